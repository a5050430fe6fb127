//! The program, as a call whose contract speaks of any streams and any folders: what they do stands in lists that only
//! proofs read.
//!
//! `reader`, `writer` and `shelf` keep a `GhostList` of `calls`, and `observer` one of `moments`; `run` is a run over
//! these. `process` does what the words of the command line ask for: a run of a script (`scripts`), an answer about
//! files (`answers`), or another one, over the `streams` of a process and one of its `folders`. `errors` is what
//! standard error gets, and `ended` how the program ends.
#![tactic(auto)]

mod answers;
mod calls;
mod ended;
mod errors;
mod folders;
pub mod laws;
mod moments;
mod observer;
mod process;
mod reader;
mod run;
mod scripts;
mod shelf;
mod streams;
mod writer;

pub use crate::ended::Ended;
pub use crate::folders::{Folders, Opening};
pub use crate::observer::ListedObserver;
pub use crate::process::program;
pub use crate::reader::ListedReader;
pub use crate::run::run_listed;
pub use crate::shelf::ListedShelf;
pub use crate::streams::Streams;
pub use crate::writer::ListedWriter;
