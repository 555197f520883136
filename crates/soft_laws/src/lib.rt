//! Laws of software breakpoints: an ebreak that a debugger patches over a word of memory is hidden from its user, and from the program's results.
#![tactic(auto)]

mod examples;
mod laws;

pub use examples::soft_examples_happen;
pub use laws::{
    bytes_stay, patches_hide, patches_stand, reads_hide, sessions_hide, soft_first_match,
    soft_sessions_say_quietly, soft_transparent,
};
