//! The descent through the cells, by what is known of a region in each.
ghost use Rattle.std.specs.Prelude.{◌≡◌, ◌+◌, ◌-◌, ◌*◌, ◌<◌, ◌≤◌, true, false};
ghost use Rattle.std.specs.Prelude.{◌++◌, ◌∷◌, [], length, vec_len, IfOk, IfErr};
ghost use Rattle.s2cell.specs.Cell.{IsCell, level_of, place_of};
ghost use Rattle.s2cover.specs.Working.Descent.{blocks, depth_of, filled_in, form_in, is_outer, set_for};

use crate::MOST_COVERING;
use crate::quadrant::Quadrant;
use crate::region::{CoverFault, Part};
use s2cell::{CellId, GREATEST_LEVEL};
use std::alloc::{AllocError, Global};

/// Which covering is made.
#[derive(Clone, Copy, Debug, PartialEq, Eq)]
pub(crate) enum Kind {
    /// The cells of the level that share a leaf with the region.
    Outer,
    /// The cells of the level that lie inside it.
    Inner,
}

impl Kind {
    /// Whether a cell of the level that crosses the region belongs to the covering.
    fn has_crossing(self) -> bool
        ensures { result ≡ is_outer self }
    {
        match self {
            Kind::Outer => true,
            Kind::Inner => false,
        }
    }
}

/// Adds the cells of a covering that lie in one cell; the last `loose` cells of the list may still merge. Answers
/// whether the covering has the whole cell.
pub(crate) fn visit<Q: Quadrant>(
    alloc: Global,
    quadrant: &Q,
    kind: Kind,
    level: u8,
    loose: usize,
    max: usize,
    list: &mut Vec<CellId>,
) -> Result<bool, CoverFault>
    requires sound { Q.sound quadrant.now }
    requires above { level_of (Q.id quadrant.now) ≤ level }
    requires level { level ≤ GREATEST_LEVEL }
    requires loose { loose ≤ 3 * level_of (Q.id quadrant.now) }
    requires max { max ≤ MOST_COVERING }
    requires room { vec_len list.old ≤ max + loose }
    ensures list { IfOk result (λ full. list.new.items ≡ list.old.items ++ form_in
        (blocks (is_outer kind) (set_for (is_outer kind) (Q.outer quadrant.now) (Q.inner quadrant.now)) (30 - level))
        (30 - level) (Q.id quadrant.now)) }
    ensures full { IfOk result (λ full. full ≡ filled_in
        (blocks (is_outer kind) (set_for (is_outer kind) (Q.outer quadrant.now) (Q.inner quadrant.now)) (30 - level))
        (Q.id quadrant.now)) }
    ensures room { IfOk result (λ full. full ≡ false → vec_len list.new ≤ max) }
    ensures many { IfErr result (λ fault. fault ≡ CoverFault.TooMany → (filled_in
        (blocks (is_outer kind) (set_for (is_outer kind) (Q.outer quadrant.now) (Q.inner quadrant.now)) (30 - level))
        (Q.id quadrant.now) ≡ false) × (max < vec_len list.old + length (form_in
        (blocks (is_outer kind) (set_for (is_outer kind) (Q.outer quadrant.now) (Q.inner quadrant.now)) (30 - level))
        (30 - level) (Q.id quadrant.now)))) }
{
    let cell = quadrant.cell();
    let _ = cell.id();
    match quadrant.part() {
        Part::Out => settle(max, list),
        Part::In => take(cell, list),
        Part::Cross if cell.level() == level => {
            let whole = kind.has_crossing();
            if whole {
                take(cell, list)
            } else {
                settle(max, list)
            }
        }
        Part::Cross => {
            let before = list.len();
            let mut full = true;
            for digit in 0..4u8 {
                let held = if full { loose + digit as usize } else { 0 };
                let child = child(alloc, quadrant, digit)?;
                let inside = visit(alloc, &child, kind, level, held, max, list)?;
                full = full && inside;
                if !full && list.len() > max {
                    return Err(CoverFault::TooMany);
                }
            }
            if full {
                list.truncate(before);
                take(cell, list)
            } else {
                Ok(false)
            }
        }
    }
}

/// A child of a quadrant, by its depth and place.
fn child<Q: Quadrant>(alloc: Global, quadrant: &Q, digit: u8) -> Result<Q, AllocError>
    requires sound { Q.sound quadrant.now }
    requires cell { IsCell (Q.id quadrant.now) }
    requires inner { level_of (Q.id quadrant.now) < GREATEST_LEVEL }
    requires digit { digit < 4 }
    ensures sound { IfOk result (λ child. Q.sound child) }
    ensures level { IfOk result (λ child. level_of (Q.id child) ≡ level_of (Q.id quadrant.now) + 1) }
    ensures depth { IfOk result (λ child. depth_of (Q.id child) + 1 ≡ depth_of (Q.id quadrant.now)) }
    ensures place { IfOk result (λ child. place_of (Q.id child) ≡ 4 * place_of (Q.id quadrant.now) + digit) }
    ensures outer { IfOk result (λ child. Q.outer child ≡ Q.outer quadrant.now) }
    ensures inner { IfOk result (λ child. Q.inner child ≡ Q.inner quadrant.now) }
{
    quadrant.child(alloc, digit)
}

/// Adds a cell to the list.
fn take(cell: CellId, list: &mut Vec<CellId>) -> Result<bool, CoverFault>
    ensures list { IfOk result (λ full. (full ≡ true) × (list.new.items ≡ list.old.items ++ cell ∷ [])) }
    ensures many { IfErr result (λ fault. fault ≡ CoverFault.Memory) }
{
    list.push(cell)?;
    Ok(true)
}

/// Adds nothing; no cell of the list can merge any more.
fn settle(max: usize, list: &Vec<CellId>) -> Result<bool, CoverFault>
    ensures ok { IfOk result (λ full. (full ≡ false) × (vec_len list.now ≤ max)) }
    ensures many { IfErr result (λ fault. (fault ≡ CoverFault.TooMany) × (max < vec_len list.now)) }
{
    if list.len() > max {
        Err(CoverFault::TooMany)
    } else {
        Ok(false)
    }
}
