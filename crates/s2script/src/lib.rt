//! The grammar of a script's lines: from the bytes of one line to its words, and from the words to what the line says.
//! A line says nothing, or asks for a command, or is refused. `parse` tells which: it takes no memory, and checks every
//! word, from left to right, before anything is done. For a refused line, `misfit_of` tells which word does not fit,
//! and what is wanted in its place.
//!
//! A command refers to the words that it was read from. `Cells` goes over the cells of an `add`, however many there
//! are. `Name` is the name of a file as it is in the line, and `Word` is a word that does not fit.
//!
//! Modules: `words` has the words of a line; `number`, `named`, `name`, `path`, `cells`, `level`, `place`, `register`
//! and `span` what words may mean; `forms` the words that a command may have; `table` the commands by their names, and
//! the help on them; `similar` the names that a word is like. `command`, `misfit` and `refusal` are what a line may ask
//! for, where it may not fit, and why it is then refused; `grammar` is what a line says. `limits` are the limits.
#![tactic(auto)]

mod cells;
mod command;
mod forms;
mod grammar;
mod level;
mod limits;
mod misfit;
mod misfit_text;
mod name;
mod named;
mod number;
mod path;
mod place;
mod refusal;
mod register;
mod similar;
mod span;
mod table;
mod text;
mod words;
mod worked;

pub use cells::Cells;
pub use command::{Command, Comparison, Parsed, Question, RegisterEdit};
pub use grammar::{misfit_of, parse};
pub use level::{Level, Modulus};
pub use limits::{LONGEST_LINE, LONGEST_NAME};
pub use misfit::{Misfit, Wanted};
pub use name::{Name, name_in};
pub use named::cell_in;
pub use path::{Misnamed, misnamed_in};
pub use place::Place;
pub use refusal::Refusal;
pub use register::{REGISTERS, Register};
pub use span::Span;
pub use table::HELP;
pub use text::{TextSink, put_number, put_part};
pub use words::Word;
pub use worked::examples;
