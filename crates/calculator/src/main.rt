//! The program: it gets the words of the command line and the streams, and does what was asked for.
#![tactic(auto)]

ghost use Rattle.std.specs.Prelude.{◌≡◌, [], IfOk};
ghost use Rattle.s2calc.specs.Program.{IsInRange};
ghost use Rattle.s2process.specs.Listed.{moments_of};
ghost use Rattle.s2process.specs.Program.{Does};
ghost use Rattle.s2process.specs.Streams.{AreNew};
ghost use Rattle.calculator.specs.System.{IsMadeAt, system_files};

mod folders;
mod prompt;

use crate::folders::{SystemFolder, SystemFolders};
use crate::prompt::PromptingReader;
use s2calc::{AnswerBuffer, Job, Sink, Source, Stop, job};
use s2process::{Ended, ListedObserver, ListedReader, ListedWriter, Streams, program};
use std::alloc::Global;
use std::io::ErrorKind;
use std::process::ExitCode;
use std::{env, io};

fn main(rt: HostRuntime) -> ExitCode {
    let asked = asked_for(&rt);
    let prompts = matches!(&asked, Ok(Job::Run { prompt: true, .. }));
    let input = PromptingReader::new(rt.reader(), rt.stderr(), prompts);
    let streams = Streams::new(input, io::writer(&rt), rt.stderr());
    let folders = SystemFolders { rt: &rt };
    let mut observer = ListedObserver::new();
    let ended = calculator(rt.alloc(), asked, streams, folders, &mut observer);
    ExitCode::from(ended.status)
}

/// Does what the program is asked for, over streams of which nothing was called, and over the folders of the system.
/// The observer has seen nothing.
pub fn calculator<'a, R: Source + Drop, W: Sink + Drop, E: Sink + Drop>(
    alloc: Global,
    asked: Result<Job, Stop>,
    streams: Streams<R, W, E>,
    folders: SystemFolders<'a>,
    observer: &mut ListedObserver<ListedReader<R>, AnswerBuffer<ListedWriter<W>>, SystemFolder<'a>>,
) -> Ended<R, W, E, SystemFolders<'a>, SystemFolder<'a>>
    requires range { IfOk asked IsInRange }
    requires nothing_called { AreNew streams }
    requires nothing_seen { moments_of observer.old ≡ [] }
    ensures { Does system_files IsMadeAt (moments_of observer.new) result asked }
{
    program(alloc, asked, streams, folders, observer)
}

/// What the words of the command line ask for.
fn asked_for(rt: &HostRuntime) -> Result<Job, Stop>
    ensures { IfOk result IsInRange }
{
    let words = match env::args(rt) {
        Ok(words) => words,
        Err(error) if error.kind() == ErrorKind::OutOfMemory => return Err(Stop::Memory),
        Err(_) => return Err(Stop::invalid_utf8(rt.alloc())),
    };
    match words.collect(rt.alloc()) {
        Ok(words) => job(rt.alloc(), words),
        Err(_) => Err(Stop::Memory),
    }
}
