//! The script engine. It reads a script line by line, carries out each line over an editor of registers and a shelf of
//! files, and writes its answer. `run` is all of this: its contract says that what was written is the stated function
//! of the bytes read, however reader and writer cut them, and what holds if one of them fails.
//!
//! A line flows one way: bytes (`engine`, `progress`, `kept`) -> what it says (the crate `s2script`) -> its effect
//! (`execute`: `edits`, `files`, `sessions`, `questions`; `fetch` asks the shelf) -> an `answer`, or a `listing` ->
//! bytes (`output`, `answer_buffer`). `refusal` says why a line is refused, and `notes` writes that to whoever asks.
//! `fault` is what ends a run, `streams` what it reads from and writes to, `desk` what it works with, `flushing` when
//! the writer is flushed, `observer` who sees in which order a run reads and carries out lines. `limits` are the
//! limits, `laws` laws about the definitions.
//!
//! For the program: `command_line`, `plain_line`, `arguments`, `jobs`, `help` and `task` (what it is asked for),
//! `program`, `check`, `draw`, `overlay` and `fit` (its other answers).
#![tactic(auto)]

mod answer;
mod answer_buffer;
mod arguments;
mod check;
mod command_line;
mod desk;
mod draw;
mod edits;
mod engine;
mod execute;
mod fault;
mod fetch;
mod files;
mod fit;
mod flushing;
mod help;
mod jobs;
mod kept;
pub mod laws;
mod limits;
mod listing;
mod notes;
mod observer;
mod output;
mod overlay;
mod plain_line;
mod program;
mod progress;
mod questions;
mod refusal;
mod sessions;
mod streams;
mod task;

pub use answer_buffer::AnswerBuffer;
pub use check::check_answer;
pub use command_line::job;
pub use draw::{draw_answer, draw_cells_answer};
pub use engine::{Tally, run, run_with};
pub use fault::RunFault;
pub use fit::fit_answer;
pub use flushing::{AtTheEnd, Flushing, Promptly};
pub use limits::MOST_WAITING;
pub use notes::{NoNotes, NoteWriter, Notes};
pub use observer::{Observer, Unobserved};
pub use output::emit;
pub use overlay::overlay_answer;
pub use program::{answer_status, cell_answer, say, status};
pub use refusal::Refusal;
pub use sessions::session_file;
pub use streams::{Sink, Source};
pub use task::{Job, Stop};
