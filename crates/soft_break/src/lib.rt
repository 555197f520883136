//! Software breakpoints over a link: an ebreak takes the place of a word of memory, which a table remembers. The table hides the ebreaks from what is read,
//! and keeps them where something is written; a breakpoint is taken off while a hart steps over it.
#![tactic(auto)]

mod bytes;
mod fault;
mod lifting;
mod planting;
mod preparing;
mod table;
#[cfg(test)]
mod tests;

pub use fault::SoftFault;
pub use lifting::Uncovered;
pub use preparing::{Prepared, prepare};
pub use table::{PATCHES_MOST, SoftTable};
