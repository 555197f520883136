//! The device identification over each link, and what fails.

mod bench_nets;
mod benches;
mod limit;
mod loops;
mod lying;
