//! Files that are read and loaded, and each fault.

mod accepted;
mod files;
mod linked;
mod loaded;
mod refused;
