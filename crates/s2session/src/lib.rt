//! Sessions as bytes.
//!
//! A session file holds the lists of 26 registers and both sides of their history as changes. `encode_session` writes a
//! session file; `read_session` reads one from a file that was opened, a piece at a time, and reads a union file as a
//! session with one register. `decode_session` does the same with bytes in memory. The definition of which bytes spell
//! a session stands here; it speaks of bytes alone, and bytes spell at most one. `s2edit` has what a session says.
#![tactic(auto)]

mod fault;
pub mod laws;
mod parts;
mod session_file;
mod source;

pub use crate::fault::{ReadFault, SessionFault};
pub use crate::session_file::{decode_session, encode_parts, encode_session, read_session};
