//! An observer that lists what it sees.
ghost use Rattle.std.specs.Prelude.{◌≡◌, [], Some};
ghost use Rattle.s2process.specs.Listed.{moments_of};

use crate::moments::{MomentList, OneEvent};
use s2calc::{Observer, Sink, Source};
use s2shelf::Shelf;
use std::io;
use std::marker::PhantomData;

/// Sees the reads and the lines of a run. They stand in a list that only proofs read, each with the writer and the
/// shelf as they were then. It takes no memory, and does nothing at run time but the reads, which are of readers of one
/// type.
#[derive(Drop)]
pub struct ListedObserver<R, W, S> {
    reads_from: PhantomData<R>,
    list: MomentList<W, S>,
}

impl<R, W, S> ListedObserver<R, W, S> {
    /// It has seen nothing yet.
    pub fn new() -> ListedObserver<R, W, S>
        ensures { moments_of result ≡ [] }
    {
        ListedObserver {
            reads_from: PhantomData,
            list: MomentList::new(),
        }
    }
}

impl<R: Source, W: Sink, S: Shelf> Observer<W, S> for ListedObserver<R, W, S> {
    type Reader = R;

    ghost seen = { λ w. Some (moments_of w) };

    fn read(&mut self, reader: &mut R, writer: &W, shelf: &S, buf: &mut [u8]) -> io::Result<usize> {
        let result = reader.read(buf);
        match &result {
            Ok(count) => self.list = self
                .list
                .and(&(OneEvent::Came(&buf[..*count]), writer, shelf)),
            Err(_) => self.list = self.list.and(&(OneEvent::ReadFailed, writer, shelf)),
        }
        result
    }

    fn line_begins(&mut self, writer: &W, shelf: &S) {
        self.list = self.list.and(&(OneEvent::LineBegins, writer, shelf));
    }

    fn line_ends(&mut self, writer: &W, shelf: &S) {
        self.list = self.list.and(&(OneEvent::LineEnds, writer, shelf));
    }
}
