//! The streams of a process.
ghost use Rattle.s2process.specs.Streams.{AreNew};

use crate::reader::ListedReader;
use crate::writer::ListedWriter;

/// Standard input, output and error of a process. Each call of them stands in a list that only proofs read.
#[derive(Drop)]
pub struct Streams<R, W, E> {
    /// Standard input, from which a script is read.
    pub input: ListedReader<R>,
    /// Standard output, which gets the answers.
    pub output: ListedWriter<W>,
    /// Standard error, which gets notes and what failed.
    pub errors: ListedWriter<E>,
}

impl<R: Drop, W: Drop, E: Drop> Streams<R, W, E> {
    /// Nothing was called yet.
    pub fn new(input: R, output: W, errors: E) -> Streams<R, W, E>
        ensures { AreNew result }
    {
        Streams {
            input: ListedReader::new(input),
            output: ListedWriter::new(output),
            errors: ListedWriter::new(errors),
        }
    }
}
