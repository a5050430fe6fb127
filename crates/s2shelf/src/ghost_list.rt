//! A list that only clauses read. It takes no memory, and its methods do nothing at run time.
ghost use Rattle.std.specs.Prelude.{◌≡◌, List, [], ◌∷◌, ◌++◌};
ghost use Rattle.std.specs.Coded.{coded_list};
ghost use base.Fml.{ftrue};

use std::marker::{Model, PhantomData};

/// What shows an entry of a list.
pub trait Shows<E> {
    /// The entry that is shown.
    ghost shown: { Self → E };
}

/// The entries so far.
#[derive(Drop)]
pub struct GhostList<E> {
    of: PhantomData<E>,
    ghost entries: { List E } by { coded_list E.code },
}

impl<E> Model for GhostList<E> {
    ghost also_owns = { λ _. ftrue };
}

impl<E> GhostList<E> {
    /// No entry.
    pub fn new() -> GhostList<E>
        ensures { result.entries ≡ [] }
    {
        GhostList { of: PhantomData }
    }

    /// The list with one more entry at its end.
    #[inline(always)]
    pub fn and<V: Shows<E>>(&self, _shows: &V) -> GhostList<E>
        ensures { result.entries ≡ self.now.entries ++ V.shown _shows.now ∷ [] }
    {
        GhostList { of: PhantomData }
    }
}
