//! Changes of registers, wherever they lie in memory: those of a session, and both sides of a history.
ghost use Rattle.std.specs.Prelude.{◌≡◌, List, length, map, reverse, option_copied, slice_get};
ghost use Rattle.s2edit.specs.Content.{diff_of};
ghost use Rattle.s2edit.specs.Diff.{Diff};

use crate::change::Change;
use crate::content::Move;
use circular_buffer::HeapCircularBuffer;
use s2cell::CellId;
use s2union::CellUnion;
use std::marker::Model;

/// A change of one register whose lists lie elsewhere.
#[derive(Drop)]
pub struct BorrowedMove<'a> {
    /// The number of the register, from 0 on.
    pub register: u8,
    /// The cells that are taken out of the register's list.
    pub out: &'a [CellId],
    /// The cells that are put in.
    pub put: &'a [CellId],
}

impl<'a> Model for BorrowedMove<'a> {
    ghost use Rattle.s2edit.specs.Diff.{Diff};

    ghost Value = { Diff };

    ghost view = { λ m. record { register = m.register; out = m.out.now; put = m.put.now } };
}

/// Changes that can be read by their places.
pub trait Changes {
    ghost list: { Self → List Diff };

    /// How many changes there are.
    fn count(&self) -> usize
        ensures { result ≡ length (list self.now) };

    /// The change at place `k`, counted from 0; None if there are no more than `k`.
    fn at(&self, k: usize) -> Option<BorrowedMove<'_>>
        ensures { result ≡ slice_get (list self.now) k };
}

impl Changes for Vec<Move> {
    ghost list = { λ v. map diff_of v.items };

    fn count(&self) -> usize {
        self.len()
    }

    fn at(&self, k: usize) -> Option<BorrowedMove<'_>> {
        let change = self.get(k)?;
        Some(BorrowedMove {
            register: change.register,
            out: &change.out,
            put: &change.put,
        })
    }
}

/// The registers and both sides of a history, lent as a session has them.
#[derive(Clone, Copy)]
pub struct Sides<'a> {
    /// The union of each register, in the order of their letters.
    pub registers: &'a [CellUnion],
    /// The changes that may be undone, the oldest first.
    pub past: Past<'a>,
    /// The changes that were undone and may be redone, the nearest to now first.
    pub future: Future<'a>,
}

/// The past, the oldest change first: its ring has the newest at the front.
#[derive(Clone, Copy)]
pub struct Past<'a> {
    /// The ring of the changes.
    pub ring: &'a HeapCircularBuffer<Change>,
}

/// The future, the nearest to now first, as its ring has them.
#[derive(Clone, Copy)]
pub struct Future<'a> {
    /// The ring of the changes.
    pub ring: &'a HeapCircularBuffer<Change>,
}

impl<'a> Changes for Past<'a> {
    ghost list = { λ s. reverse s.ring.now.items };

    fn count(&self) -> usize {
        self.ring.len()
    }

    fn at(&self, k: usize) -> Option<BorrowedMove<'_>> {
        borrowed(self.ring.nth_back(k))
    }
}

impl<'a> Changes for Future<'a> {
    ghost list = { λ s. s.ring.now.items };

    fn count(&self) -> usize {
        self.ring.len()
    }

    fn at(&self, k: usize) -> Option<BorrowedMove<'_>> {
        borrowed(self.ring.get(k))
    }
}

/// A change as one of a session, with its lists where they are.
fn borrowed<'a>(change: Option<&'a Change>) -> Option<BorrowedMove<'a>>
    ensures { result ≡ option_copied change.entry }
{
    let change = change?;
    Some(BorrowedMove {
        register: change.register.index() as u8,
        out: &change.out,
        put: &change.put,
    })
}
