//! A host on the system: regular files of the current folder, pipes, and pairs of sockets.
//!
//! What it asks of the system is the trait `Disk`: `OfRuntime` is that of a program, and another crate can
//! have one of its own. It takes no script and tells nothing. Its contracts say when it answers a fault and how it is
//! counted, and bound what a call gives. What the system does is trusted.
#![tactic(auto)]

mod channels;
mod counts;
mod disk;
mod errors;
mod folder;
mod held;
mod pair;
mod pipe;
mod real_host;
mod table;

pub use disk::{Access, Disk, DiskFile, Inode, OfRuntime, Seen};
pub use real_host::RealHost;
