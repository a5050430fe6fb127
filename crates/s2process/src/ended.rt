//! How the program ends: what standard error gets, and the exit status.
ghost use Rattle.std.specs.Prelude.{◌≡◌, string_bytes, map};
ghost use Rattle.s2calc.specs.Program.{status_of};
ghost use Rattle.s2process.specs.Working.Answers.{EndsAnswer};
ghost use Rattle.s2process.specs.Working.Errors.{TellsMore};
ghost use Rattle.s2process.specs.Errors.{fault_line_of, misnamed_lines};
ghost use Rattle.s2process.specs.Streams.{AreNew};
ghost use Rattle.s2process.specs.Program.{NotBegun, ShowsUsage};

use crate::errors::{tell_failure, tell_of_answer, tell_usage};
use crate::folders::Opening;
use crate::streams::Streams;
use crate::writer::ListedWriter;
use s2calc::{RunFault, Sink, Tally, answer_status, status};
use std::alloc::Global;

/// How the program has ended.
#[derive(Drop)]
pub struct Ended<R, W, E, F, S> {
    /// The exit status.
    pub status: u8,
    /// The streams, with all their calls.
    pub streams: Streams<R, W, E>,
    /// The folder that was opened, or who would have opened one.
    pub folder: Opening<F, S>,
}

/// Ends a program that had no memory to begin with.
pub(crate) fn not_begun<R: Drop, W: Drop, E: Sink + Drop, F: Drop, S: Drop>(
    mut streams: Streams<R, W, E>,
    folder: Opening<F, S>,
) -> Ended<R, W, E, F, S>
    requires { AreNew streams }
    ensures begun { NotBegun result }
    ensures folder { result.folder ≡ folder }
{
    let status = end_run(&Err(RunFault::Memory), &mut streams.errors);
    Ended {
        status,
        streams,
        folder,
    }
}

/// Ends a program whose words made no sense.
pub(crate) fn end_usage<R: Drop, W: Drop, E: Sink + Drop, F: Drop, S: Drop>(
    wrong: &[u8],
    mut streams: Streams<R, W, E>,
    folders: F,
) -> Ended<R, W, E, F, S>
    requires { AreNew streams }
    ensures { ShowsUsage result wrong.now }
{
    tell_usage(&mut streams.errors, wrong);
    Ended {
        status: 2,
        streams,
        folder: Opening::Unopened(folders),
    }
}

/// Tells what failed, if anything did, and gives the exit status after a run.
pub(crate) fn end_run<E: Sink>(
    outcome: &Result<Tally, RunFault>,
    errors: &mut ListedWriter<E>,
) -> u8
    ensures tells { TellsMore (fault_line_of outcome.now) errors.old errors.new }
    ensures status { result ≡ status_of outcome.now }
{
    tell_failure(outcome, errors);
    status(outcome)
}

/// Ends a program that has answered: tells what failed, or if the answer is a refusal what is wrong with the words that
/// are no names of files.
pub(crate) fn end_answer<R: Drop, W: Drop, E: Sink + Drop, F: Drop, S: Drop>(
    alloc: Global,
    outcome: &Result<bool, RunFault>,
    words: &[String],
    mut streams: Streams<R, W, E>,
    folder: Opening<F, S>,
) -> Ended<R, W, E, F, S>
    ensures { EndsAnswer outcome.now (misnamed_lines (map string_bytes words.now)) streams folder result }
{
    tell_of_answer(alloc, outcome, words, &mut streams.errors);
    let status = answer_status(outcome);
    Ended {
        status,
        streams,
        folder,
    }
}
