//! A walk along a short list and a much longer one, whose searches in the longer one are made ahead, for four cells at
//! once.
//!
//! Four searches don't wait for each other: while one waits for memory, the others go on. Where they end is a guess,
//! which the walk tests by the cells at that place.
ghost use Rattle.std.specs.Prelude.{◌*◌, ◌≤◌, ◌↔◌, IsTrue, length};
ghost use Rattle.s2list.specs.Packed.{EndsAfter, FirstEndBy, IsPacked};

use crate::along::find_along;
use crate::cells::Cells;
use crate::find::{find_from, first_place};
use crate::four::{Places, places_of_four};
use crate::looks::Uncounted;
use s2cell::CellId;

/// A list counts as short if the other is at least this many times as long. A search in the other takes no more steps
/// than that, so the searches for all cells of the short one take no more than a pass.
const LONG_TO_SHORT: usize = 64;

/// A search that goes this many cells ahead of a walk, or fewer, goes by leaps: these cells lie in the cache or come
/// there without being asked for, and leaps take fewer looks than a search in all of the list.
const NEAR: usize = 32;

/// Whether a list of `few` cells is short beside one of `many`.
pub fn is_short(few: usize, many: usize) -> bool
    ensures { IsTrue result ↔ 64 * few ≤ many }
{
    few <= many / LONG_TO_SHORT
}

/// How a walk along two lists searches one of them, for where it stands in the other.
pub(crate) trait Seek<X: Cells, Y: Cells> {
    /// How many cells of `ys` end by the leaf `lo`, on a walk that stands at index `i` of `xs` and at `at` of `ys`, if
    /// the first `start` cells of `ys` are known to end by it.
    fn seek(&mut self, xs: &X, i: usize, ys: &Y, at: usize, start: usize, lo: u64) -> usize
        requires { start ≤ length (Y.ids ys.now) }
        ensures from { start ≤ result }
        ensures within { result ≤ length (Y.ids ys.now) }
        ensures ended { IsPacked (Y.ids ys.now) → FirstEndBy (Y.ids ys.now) start lo
            → FirstEndBy (Y.ids ys.now) result lo }
        ensures next { IsPacked (Y.ids ys.now) → FirstEndBy (Y.ids ys.now) start lo
            → EndsAfter (Y.ids ys.now) result lo };
}

/// By leaps from where the walk stands.
#[derive(Clone, Copy)]
pub(crate) struct Leaps;

impl<X: Cells, Y: Cells> Seek<X, Y> for Leaps {
    #[inline(always)]
    fn seek(&mut self, _xs: &X, _i: usize, ys: &Y, at: usize, start: usize, lo: u64) -> usize {
        find_along(ys, at, start, lo, &mut Uncounted)
    }
}

/// By searches in all of the other list, for the next four cells at once.
#[derive(Clone, Copy)]
pub(crate) struct Fours {
    /// The index after the last cell that was searched for.
    until: usize,
    /// Where the four cells before that index lie.
    places: Places,
}

impl Fours {
    /// Before the first search.
    pub(crate) fn new() -> Fours {
        Fours {
            until: 0,
            places: Places {
                first: 0,
                second: 0,
                third: 0,
                fourth: 0,
            },
        }
    }

    /// Where the cell at index `i` of a short list may lie in a longer one, on a walk that stands at index `start` of
    /// that. None if it lies near, or if fewer than four are left.
    fn guess<X: Cells, Y: Cells>(
        &mut self,
        few: &X,
        i: usize,
        many: &Y,
        start: usize,
    ) -> Option<usize> {
        if i >= self.until {
            self.places = four_ahead(few, i, many, start)?;
            self.until = i.saturating_add(4);
        }
        match self.until - i {
            4 => Some(self.places.first),
            3 => Some(self.places.second),
            2 => Some(self.places.third),
            _ => Some(self.places.fourth),
        }
    }
}

impl<X: Cells, Y: Cells> Seek<X, Y> for Fours {
    #[inline(always)]
    fn seek(&mut self, xs: &X, i: usize, ys: &Y, at: usize, start: usize, lo: u64) -> usize {
        // The first alone: it may pass all cells of the short list.
        if at == 0 {
            return find_along(ys, 0, start, lo, &mut Uncounted);
        }
        match self.guess(xs, i, ys, start) {
            Some(guess) => {
                let from = first_place(ys, guess, lo).max(start);
                find_from(ys, from, lo)
            }
            None => find_along(ys, at, start, lo, &mut Uncounted),
        }
    }
}

/// Where four cells of a list from index `i` on lie in another list, if there are as many and the first of them isn't
/// near index `start`.
fn four_ahead<X: Cells, Y: Cells>(few: &X, i: usize, many: &Y, start: usize) -> Option<Places> {
    if few.len().saturating_sub(i) < 4 || is_near(many, start, few.id(i)) {
        return None;
    }
    let first = CellId::from_id(few.id(i))?;
    let second = CellId::from_id(few.id(i + 1))?;
    let third = CellId::from_id(few.id(i + 2))?;
    let fourth = CellId::from_id(few.id(i + 3))?;
    Some(places_of_four(many, first, second, third, fourth))
}

/// Whether a cell of `many` soon after index `start` comes after this one, or `many` ends.
fn is_near<Y: Cells>(many: &Y, start: usize, id: u64) -> bool {
    let at = start.saturating_add(NEAR);
    at >= many.len() || many.id(at) > id
}
