//! A chip that is served over a net, or a chain with a chip in it: bytes are taken and fed, and the answers put, piece after piece.
//!
//! `serve` says of every net, told or not, that just the bytes that came were fed, that what was put are the answers to them, and what ended it. What it
//! feeds is a `Feed`: the chip on a bench, or whatever else takes the bytes of the stream.
#![tactic(auto)]

mod feed;
mod served;
mod serving;

pub use feed::Feed;
pub use served::Served;
pub use serving::serve;
