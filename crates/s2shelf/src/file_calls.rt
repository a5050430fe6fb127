//! The calls of the system's files, as a list that only clauses read has them.
use crate::ghost_list::{GhostList, Shows};
use crate::opened_file::Piece;
use std::marker::Model;

/// The type of an entry, a `FileCall`. It has no other use.
pub(crate) struct FileEntry;

impl Model for FileEntry {
    ghost use Rattle.std.specs.Prelude.{[]};
    ghost use Rattle.s2shelf.specs.FileCalls.{FileCall, Looked};
    ghost use Rattle.s2shelf.specs.Working.FileCalls.{file_call_coded};

    ghost Value = { FileCall };

    ghost coded = { file_call_coded };

    ghost view = { λ _. Looked [] };
}

/// One call, as it is given to the list.
#[derive(Clone, Copy, Drop)]
pub(crate) enum OneFileCall<'a> {
    /// The system was asked what lies at this path.
    Looked(&'a str),
    /// The file at this path was opened for reading.
    Opened(&'a str),
    /// The opening of what lies at this path failed.
    OpenedNot(&'a str),
    /// The system was asked what was opened at this path.
    LookedAgain(&'a str),
    /// Reads of the file that was opened at this path gave these bytes.
    Gave(&'a str, &'a [u8]),
    /// Reads of the file of this name in this folder gave these bytes.
    GaveInPieces(&'a str, &'a (GhostList<Piece>, GhostList<Piece>)),
    /// A file was made at this path.
    Made(&'a str),
    /// The making of a file at this path failed.
    MadeNot(&'a str),
    /// These bytes were to be written to the file that was made at this path.
    Wrote(&'a str, &'a [u8]),
    /// The file that was opened or made at this path was closed.
    Closed(&'a str),
    /// The file of this name in this folder was closed, after reads that gave these bytes.
    ClosedNamed(&'a str, &'a (GhostList<Piece>, GhostList<Piece>)),
}

impl<'a> Shows<FileEntry> for OneFileCall<'a> {
    ghost use Rattle.s2shelf.specs.Working.FileCalls.{shown as file_call_shown};

    ghost shown = { file_call_shown };
}
