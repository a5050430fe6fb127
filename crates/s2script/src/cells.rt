//! The cells that words name.
ghost use Rattle.std.specs.Prelude.{◌≡◌, ◌∷◌, [], MatchOption, Some, None};
ghost use Rattle.s2script.specs.CellList.{no_cell_in, next_cells};

use crate::misfit::{Misfit, Wanted};
use crate::named::cell_in;
use crate::words::Words;
use s2cell::CellId;
use std::marker::Model;

/// The cells that words name, one for each word. A contract sees them as a list.
#[derive(Drop)]
pub struct Cells<'a> {
    /// The first one, until it is given: most lines name no other, and then no word is read twice.
    first: Option<CellId>,
    /// The words of the others.
    words: Words<'a>,
}

impl<'a> Model for Cells<'a> {
    ghost use Rattle.std.specs.Prelude.{◌≡◌, List, ℕ, None};
    ghost use Rattle.std.specs.List.{cons_option};
    ghost use Rattle.s2script.specs.CellList.{cells_of, no_cell_in};

    ghost Value = { List ℕ };

    ghost view = { λ c. cons_option c.first (cells_of c.words) };

    ghost invariant = { λ c. no_cell_in c.words ≡ None };
}

impl<'a> Cells<'a> {
    /// The cells of one or more words, each of which must name a cell.
    pub(crate) fn of(mut words: Words<'a>) -> Result<Cells<'a>, Misfit<'a>>
        ensures { result ≡ next_cells words.entry }
    {
        let Some(word) = words.next() else {
            return Err(Misfit::Missing {
                wanted: Wanted::Cell,
            });
        };
        let Some(first) = cell_in(word) else {
            return Err(Misfit::unfit(word, Wanted::Cell));
        };
        match no_cell_in(words.again()) {
            Some(word) => Err(Misfit::unfit(word, Wanted::Cell)),
            None => Ok(Cells {
                first: Some(first),
                words,
            }),
        }
    }

    /// The next cell, if one is left.
    pub fn next(&mut self) -> Option<CellId>
        ensures { MatchOption result ((self.old ≡ []) × (self.new ≡ [])) (λ cell. self.old ≡ cell ∷ self.new) }
    {
        match self.first.take() {
            Some(cell) => Some(cell),
            None => cell_in(self.words.next()?),
        }
    }
}

/// The first word that names no cell, if there is one.
fn no_cell_in<'a>(mut words: Words<'a>) -> Option<&'a [u8]>
    ensures { MatchOption result (no_cell_in words.entry ≡ None) (λ word. no_cell_in words.entry ≡ Some word.now) }
{
    while let Some(word) = words.next() {
        if cell_in(word).is_none() {
            return Some(word);
        }
    }
    None
}
