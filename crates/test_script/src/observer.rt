//! An observer that lists what it sees.
ghost use Rattle.s2calc.specs.Moments.{AddsOne, Came};
ghost use Rattle.test_script.specs.Working.Observed.{event_of, seen_by};

use crate::known::add;
use s2calc::{Observer, Sink, Source};
use s2shelf::Shelf;
use std::alloc::Global;
use std::io;
use std::marker::PhantomData;

/// What an observer of a run may see at a moment.
#[derive(Drop)]
pub enum SeenEvent {
    /// A read, and the bytes that it gave.
    Came(Vec<u8>),
    /// A read that failed.
    ReadFailed,
    /// A line is about to be carried out.
    LineBegins,
    /// The line is answered.
    LineEnds,
}

/// What was seen, with the writer and the shelf as they were then.
#[derive(Drop)]
pub struct SeenMoment<W, S> {
    pub event: SeenEvent,
    writer: W,
    shelf: S,
}

/// Lists what it sees of a run, as long as there is memory for it.
#[derive(Drop)]
pub struct MemoryObserver<R, W, S> {
    reads_from: PhantomData<R>,
    alloc: Global,
    moments: Option<Vec<SeenMoment<W, S>>>,
}

impl<R: Drop, W: Drop, S: Drop> MemoryObserver<R, W, S> {
    /// An observer that has seen nothing yet.
    pub fn new(alloc: Global) -> MemoryObserver<R, W, S> {
        MemoryObserver {
            reads_from: PhantomData,
            alloc,
            moments: Some(Vec::new(alloc)),
        }
    }

    /// What it has seen, if there was memory to list it.
    pub fn moments(&self) -> Option<&[SeenMoment<W, S>]> {
        match &self.moments {
            Some(moments) => Some(moments.as_slice()),
            None => None,
        }
    }

    /// Lists what it sees.
    fn list(&mut self, event: SeenEvent, writer: W, shelf: S)
        ensures { AddsOne (seen_by self.old.moments) (seen_by self.new.moments) (event_of event) writer shelf }
    {
        add(
            &mut self.moments,
            SeenMoment {
                event,
                writer,
                shelf,
            },
        );
    }

    /// Lists a read that gave these bytes.
    fn list_read(&mut self, bytes: &[u8], writer: W, shelf: S)
        ensures { AddsOne (seen_by self.old.moments) (seen_by self.new.moments) (Came bytes.now) writer shelf }
    {
        let mut copy = Vec::new(self.alloc);
        match copy.extend_from_slice(bytes) {
            Ok(()) => self.list(SeenEvent::Came(copy), writer, shelf),
            Err(_) => self.moments = None,
        }
    }
}

impl<R: Source + Drop, W: Sink + Copy, S: Shelf + Copy> Observer<W, S> for MemoryObserver<R, W, S> {
    type Reader = R;

    ghost seen = { λ w. seen_by w.moments };

    fn read(&mut self, reader: &mut R, writer: &W, shelf: &S, buf: &mut [u8]) -> io::Result<usize> {
        match reader.read(buf) {
            Ok(count) => {
                self.list_read(&buf[..count], *writer, *shelf);
                Ok(count)
            }
            Err(error) => {
                self.list(SeenEvent::ReadFailed, *writer, *shelf);
                Err(error)
            }
        }
    }

    fn line_begins(&mut self, writer: &W, shelf: &S) {
        self.list(SeenEvent::LineBegins, *writer, *shelf);
    }

    fn line_ends(&mut self, writer: &W, shelf: &S) {
        self.list(SeenEvent::LineEnds, *writer, *shelf);
    }
}
