//! Tests of accesses to memory and of single steps over a chip on its bench, which take longer than those of `link_tests` and so stand beside them.
#![tactic(auto)]

#[cfg(test)]
mod block_costs;
#[cfg(test)]
mod block_edges;
#[cfg(test)]
mod blocks;
#[cfg(test)]
mod bus_blocks;
#[cfg(test)]
mod memory;
#[cfg(test)]
mod reservations;
#[cfg(test)]
mod stepping;
