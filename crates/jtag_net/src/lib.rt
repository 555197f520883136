//! Nets of memory and TCP, and a wire over any net.
//!
//! `MemoryNet` tells everything: the bytes that are to come, all that was put, the pipe behind `join`, the address of its
//! opening, and which calls fail. `TcpNet` is the trusted edge over the standard library's TCP streams, and tells nothing.
//! `NetWire` carries the bytes of the bit-bang stream over the near end of a net, and tells what the net tells.
#![tactic(auto)]

mod memory_net;
mod net_wire;
mod stream;
mod take_all;
mod tcp_net;
mod tcp_open;

pub use memory_net::MemoryNet;
pub use net_wire::NetWire;
pub use tcp_net::TcpNet;
