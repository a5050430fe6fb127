//! What the program is asked for, and why it may be asked for nothing.
ghost use Rattle.std.specs.Prelude.{◌≡◌};
ghost use Rattle.s2calc.specs.Program.{status_of_stop, StopsForInvalid};

use std::alloc::Global;

/// What the program is asked for.
#[derive(Debug, PartialEq, Eq, Drop)]
pub enum Job {
    /// To answer a script, with at most this many cells in a register and this many kept states, and files in a folder,
    /// and if asked, to say why lines are refused, to show a prompt before each read, and to stop at the first refused
    /// line.
    Run {
        limit: usize,
        depth: usize,
        dir: String,
        explain: bool,
        prompt: bool,
        stop: bool,
    },
    /// To answer `cell WORD`.
    Cell {
        word: String,
    },
    /// To say what a file of a folder stands for.
    Check {
        dir: String,
        name: String,
    },
    /// To draw what a file of a folder stands for, with the line through its cells if `curve`.
    Draw {
        dir: String,
        name: String,
        curve: bool,
    },
    /// To draw what several files of a folder stand for in one picture, with the line through the cells of each if
    /// `curve`.
    Overlay {
        dir: String,
        names: Vec<String>,
        curve: bool,
    },
    /// To draw the part of the faces in which lies what several files of a folder stand for.
    Fit {
        dir: String,
        names: Vec<String>,
    },
    /// To draw the cells that the words name, with the line through them if `curve`.
    DrawCells {
        words: Vec<String>,
        curve: bool,
    },
}

/// Why the words of the command line ask for no job. Help and usage are in clap's words.
#[derive(Debug, PartialEq, Eq, Drop)]
pub enum Stop {
    /// The help or the version was asked for: its text.
    Help(String),
    /// The words make no sense: what is wrong with them.
    Usage(String),
    /// There was no memory to read them.
    Memory,
}

impl Stop {
    /// The exit status: 0 after the help or the version, 2 for words that make no sense, 3 without memory.
    pub fn status(&self) -> u8
        ensures { result ≡ status_of_stop self.now }
    {
        match self {
            Stop::Help(_) => 0,
            Stop::Usage(_) => 2,
            Stop::Memory => 3,
        }
    }

    /// What clap says of words that are not UTF-8, as words that make no sense; or out of memory.
    #[tactic(auto, unfolding(crate::specs::Program::invalid_utf8_text))]
    pub fn invalid_utf8(alloc: Global) -> Stop
        ensures { StopsForInvalid result }
    {
        match String::from_str(alloc, INVALID_UTF8) {
            Ok(text) => Stop::Usage(text),
            Err(_) => Stop::Memory,
        }
    }
}

/// What is wrong with words that aren't UTF-8.
const INVALID_UTF8: &str =
    "error: invalid UTF-8 was detected in one or more arguments\n\nFor more information, try '--help'.\n";
