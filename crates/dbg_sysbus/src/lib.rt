//! System bus access: the registers sbcs, sbaddress0, sbaddress1, sbdata0 and sbdata1, and the access that they start
//! (RISC-V Debug Specification 1.0, "System Bus Access").
//!
//! For those above, a `BusUnit` is the record of the definition. Each call here changes it exactly as the definition says.
#![tactic(auto)]

mod bus_unit;
mod halves;
#[cfg(test)]
mod tests;

pub use bus_unit::BusUnit;
