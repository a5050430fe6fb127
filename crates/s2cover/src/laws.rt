//! Laws of the coverings: functions that do nothing, whose clauses are proved.
ghost use Rattle.std.specs.Prelude.{◌≡◌, ◌<◌, ◌≤◌, ◌↔◌, ℕ, Bool, true, List};
ghost use Rattle.s2list.specs.Union.{IsNormalForm};
ghost use Rattle.s2cover.specs.Coverings.{IsInInner, IsInOuter, inner_set, outer_set};

use s2cell::{GREATEST_LEVEL, LEAVES};

/// The leaves of the outer covering are those of all cells of the level that share a leaf with the region, and the
/// leaves of the inner covering are those of all cells of the level that lie inside it.
pub fn covering_sets()
    ensures outer { (R : ℕ → Bool) (k x : ℕ) → k ≤ GREATEST_LEVEL → (outer_set R k x ≡ true) ↔ IsInOuter R k x }
    ensures inner { (R : ℕ → Bool) (k x : ℕ) → k ≤ GREATEST_LEVEL → (inner_set R k x ≡ true) ↔ IsInInner R k x }
{}

/// Each set of leaves has a normal form. (That it has only one is the law `same_cells` of unions.)
pub fn normal_forms()
    ensures { (S : ℕ → Bool) → ((x : ℕ) → S x ≡ true → x < LEAVES) → (u : List ℕ) × IsNormalForm S u }
{}
