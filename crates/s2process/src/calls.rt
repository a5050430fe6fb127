//! Calls, as a list that only clauses read has them.
use s2shelf::opened_file::Piece;
use s2shelf::{GhostList, ShelfFault, Shows};
use std::marker::Model;

/// The calls of a stream or a shelf so far.
pub(crate) type CallList = GhostList<Call>;

/// The type of an entry, a `StreamCall`. It has no other use.
pub(crate) struct Call;

impl Model for Call {
    ghost use Rattle.s2process.specs.StreamCalls.{StreamCall, ReadFailed};
    ghost use Rattle.s2process.specs.Working.Coded.{stream_call_coded};

    ghost Value = { StreamCall };

    ghost coded = { stream_call_coded };

    ghost view = { λ _. ReadFailed };
}

/// One call, as it is given to the list.
#[derive(Clone, Copy, Drop)]
pub(crate) enum OneCall<'a> {
    /// A read that gave these bytes; it had room for this many.
    Gave(&'a [u8], usize),
    /// A read that failed.
    ReadFailed,
    /// A write that took these bytes.
    Took(&'a [u8]),
    /// A write that failed.
    WriteFailed,
    /// A flush.
    Flushed,
    /// A flush that failed.
    FlushFailed,
    /// A call of a shelf.
    OfShelf(OneShelfCall<'a>),
}

/// One call of a shelf, as it is given to the list.
#[derive(Clone, Copy, Drop)]
pub(crate) enum OneShelfCall<'a> {
    /// Of the file of this name the first bytes were asked for, this many, and these were handed over.
    HandedOver(&'a str, usize, &'a [u8]),
    /// There is no file of this name.
    Missing(&'a str),
    /// The file of this name was opened.
    OpenedFile(&'a str),
    /// These bytes were stored under this name.
    Stored(&'a str, &'a [u8]),
    /// A call on the file of this name failed.
    Failed(&'a str, ShelfFault),
    /// A file that was opened under this name was closed, after reads that gave these bytes, and whether the last of
    /// them gave none.
    ClosedFile(&'a GhostList<Piece>, &'a GhostList<Piece>, bool),
    /// The closing of a file that was opened under this name failed, after reads that gave these bytes.
    CloseFailed(&'a GhostList<Piece>, &'a GhostList<Piece>, ShelfFault),
}

impl<'a> Shows<Call> for OneCall<'a> {
    ghost use Rattle.s2process.specs.Working.Shown.{shown as call_shown};

    ghost shown = { call_shown };
}
