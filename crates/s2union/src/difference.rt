//! How a difference is made.
ghost use Rattle.std.specs.Prelude.{◌≡◌, ◌≤◌, ◌<◌, ◌&&◌, ℕ, length, []};
ghost use Rattle.std.specs.Prelude.{IfErr, List, OnOk, not};
ghost use Rattle.s2list.specs.Union.{IsLocal, IsNormalForm, has_leaf};
ghost use Rattle.s2list.specs.Sets.{difference_of};

use crate::fault::UnionFault;
use crate::grown::Grown;
use s2cell::CellId;
use s2list::CellList;

/// Puts the leaves of `xs` that `ys` doesn't have into an empty list. Stops once it has made more than `limit` cells:
/// each is in the normal form, so that has more too.
pub(crate) fn put_difference(
    list: &mut Vec<CellId>,
    xs: &[CellId],
    ys: &[CellId],
    limit: usize,
) -> Result<(), UnionFault>
    requires empty { list.old.items ≡ [] }
    requires x_local { IsLocal xs.now }
    requires y_local { IsLocal ys.now }
    ensures local { OnOk result (IsLocal list.new.items) }
    ensures leaves { OnOk result ((x : ℕ) → has_leaf list.new.items x
        ≡ (has_leaf xs.now x && not (has_leaf ys.now x))) }
    ensures within { OnOk result (length list.new.items ≤ limit) }
    ensures many { IfErr result (λ fault. fault ≡ UnionFault.TooMany → (u : List ℕ) →
        IsNormalForm (difference_of (has_leaf xs.now) (has_leaf ys.now)) u → limit < length u) }
{
    let xs = CellList { cells: xs };
    let ys = CellList { cells: ys };
    let mut grown = Grown { list, most: limit };
    if s2list::write_difference(&xs, &ys, limit, &mut grown)? <= limit {
        Ok(())
    } else {
        Err(UnionFault::TooMany)
    }
}
