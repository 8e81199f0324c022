//! Connections: both ways of one, lines that are read from it, and where connections come from.
//!
//! A connection may tell the bytes that pass and the connections that are to come. Those in memory tell
//! them all, and fail where they are told to; those over TCP tell nothing but how often a call failed.
#![tactic(auto)]

mod duplex;
mod line;
mod links;
mod mem_link;
mod tcp;

pub use duplex::{Duplex, send_whole};
pub use line::{LINE_BYTES, WireLine, read_line};
pub use links::Links;
pub use mem_link::{MemLink, MemLinkList, MemLinks};
pub use tcp::{TcpLink, TcpLinks};
