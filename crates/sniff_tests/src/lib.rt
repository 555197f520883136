//! Tests of the sniffer: streams and their lines, each end, waveforms, what is no scan, and a chip that is sniffed.
#![tactic(auto)]

#[cfg(test)]
mod chips;
#[cfg(test)]
mod ends;
#[cfg(test)]
mod paths;
#[cfg(test)]
mod scans;
#[cfg(test)]
mod streams;
#[cfg(test)]
mod waves;
