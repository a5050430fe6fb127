//! Moments, as a list that only clauses read has them.
use s2shelf::{GhostList, Shows};
use std::marker::Model;

/// The moments so far.
pub(crate) type MomentList<W, S> = GhostList<OneMoment<W, S>>;

/// The type of an entry, a `Moment`. It has no other use.
pub(crate) struct OneMoment<W, S> {
    writer: W,
    shelf: S,
}

impl<W, S> Model for OneMoment<W, S> {
    ghost use Rattle.s2calc.specs.Moments.{Moment, moment, ReadFailed};
    ghost use Rattle.s2process.specs.Working.Coded.{moment_coded};

    ghost Value = { Moment W S };

    ghost coded = { moment_coded W.code S.code };

    ghost view = { λ m. moment ReadFailed m.writer m.shelf };
}

/// What is seen at a moment, as it is given to the list.
#[derive(Clone, Copy, Drop)]
pub(crate) enum OneEvent<'a> {
    /// A read, and the bytes that it gave.
    Came(&'a [u8]),
    /// A read that failed.
    ReadFailed,
    /// A line is about to be carried out.
    LineBegins,
    /// The line is answered.
    LineEnds,
}

impl<'a, W, S> Shows<OneMoment<W, S>> for (OneEvent<'a>, &'a W, &'a S) {
    ghost use Rattle.s2calc.specs.Moments.{moment};
    ghost use Rattle.s2process.specs.Working.Shown.{seen};

    ghost shown = { λ s. moment (seen s.0) s.1.now s.2.now };
}
