//! Who sees the calls of a run in the order in which they come.
ghost use Rattle.std.specs.Prelude.{◌≡◌, List, Option, None, MatchResult};
ghost use Rattle.std.specs.Io.{ReadsAtMost};
ghost use Rattle.std.specs.Io.KnownBytes.{ReadConsumes};
ghost use Rattle.std.specs.Prelude.{[], ◌∷◌};
ghost use Rattle.s2calc.specs.Calls.{Gains, bytes_given, what_came};
ghost use Rattle.s2calc.specs.Flushing.{Settled, Unsettled};
ghost use Rattle.s2calc.specs.Moments.{Moment, LineBegins, LineEnds, read_event, AddsOne};

use crate::fault::RunFault;
use crate::flushing::{Flushing, around_file_command};
use crate::streams::{Sink, Source};
use s2shelf::Shelf;
use std::io;
use std::marker::PhantomData;

/// An observer of a run. It makes the reads, and sees where each line begins and ends, with the writer and the shelf as
/// they are then. So it may keep one list of the run's reads, its lines, and what was written and stored by then.
///
/// It reads from readers of one type alone, that of the run's own. So a run can't show it, in place of its reader, one
/// that gives it what was read before.
pub trait Observer<W: Sink, S: Shelf> {
    /// The reader of the run.
    type Reader: Source;

    // what it has seen so far, if it keeps a list
    ghost seen: { Self → Option (List (Moment W S)) } = { λ _. None };

    /// Reads from the reader of the run.
    fn read(
        &mut self,
        reader: &mut Self::Reader,
        writer: &W,
        shelf: &S,
        buf: &mut [u8],
    ) -> io::Result<usize>
        ensures bound { ReadsAtMost result buf.new }
        ensures bytes { ReadConsumes (Self.Reader.remaining reader.old) (Self.Reader.remaining reader.new) result
            buf.new }
        ensures given { Gains (Self.Reader.given reader.old) (Self.Reader.given reader.new)
            (bytes_given result buf.new) }
        ensures call { Gains (Self.Reader.reads reader.old) (Self.Reader.reads reader.new) (what_came result ∷ []) }
        ensures moment { AddsOne (seen self.old) (seen self.new) (read_event result buf.new) writer.now shelf.now };

    /// A line is about to be carried out.
    fn line_begins(&mut self, writer: &W, shelf: &S)
        ensures moment { AddsOne (seen self.old) (seen self.new) LineBegins writer.now shelf.now };

    /// The line is carried out, and its answer is written.
    fn line_ends(&mut self, writer: &W, shelf: &S)
        ensures moment { AddsOne (seen self.old) (seen self.new) LineEnds writer.now shelf.now };
}

/// No one observes the run.
#[derive(Drop)]
pub struct Unobserved<R> {
    of: PhantomData<R>,
}

impl<R> Unobserved<R> {
    /// No one.
    pub fn new() -> Unobserved<R> {
        Unobserved { of: PhantomData }
    }
}

impl<R: Source, W: Sink, S: Shelf> Observer<W, S> for Unobserved<R> {
    type Reader = R;

    fn read(
        &mut self,
        reader: &mut R,
        _writer: &W,
        _shelf: &S,
        buf: &mut [u8],
    ) -> io::Result<usize> {
        reader.read(buf)
    }

    fn line_begins(&mut self, _writer: &W, _shelf: &S) {}

    fn line_ends(&mut self, _writer: &W, _shelf: &S) {}
}

/// What happens before a line is carried out.
pub(crate) fn begin_line<W: Sink, S: Shelf, F: Flushing<W>, O: Observer<W, S>>(
    has_file: bool,
    writer: &mut W,
    shelf: &S,
    observer: &mut O,
) -> Result<(), RunFault>
    ensures begins { MatchResult result
        (λ _. Settled W.contents W.calls F.is_sent F.may_fail has_file writer.old writer.new
        × AddsOne (O.seen observer.old) (O.seen observer.new) LineBegins writer.new shelf.now)
        (λ fault. Unsettled W.contents W.calls F.may_fail has_file writer.old writer.new fault
        × (O.seen observer.new ≡ O.seen observer.old)) }
{
    around_file_command::<W, F>(has_file, writer)?;
    observer.line_begins(writer, shelf);
    Ok(())
}

/// What happens after a line was carried out.
pub(crate) fn end_line<W: Sink, S: Shelf, F: Flushing<W>, O: Observer<W, S>>(
    has_file: bool,
    writer: &mut W,
    shelf: &S,
    observer: &mut O,
) -> Result<(), RunFault>
    ensures ends { MatchResult result
        (λ _. Settled W.contents W.calls F.is_sent F.may_fail has_file writer.old writer.new
        × AddsOne (O.seen observer.old) (O.seen observer.new) LineEnds writer.new shelf.now)
        (λ fault. Unsettled W.contents W.calls F.may_fail has_file writer.old writer.new fault
        × (O.seen observer.new ≡ O.seen observer.old)) }
{
    around_file_command::<W, F>(has_file, writer)?;
    observer.line_ends(writer, shelf);
    Ok(())
}
