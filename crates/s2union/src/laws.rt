//! The law of normal forms.
ghost use Rattle.std.specs.Prelude.{◌≡◌, ℕ};
ghost use Rattle.s2list.specs.Union.{has_leaf};

use crate::union::CellUnion;

/// Two unions with the same leaves have the same cells. So unions can be compared by `cells()`.
pub fn same_cells(a: &CellUnion, b: &CellUnion)
    requires { (x : ℕ) → has_leaf a.now.cells x ≡ has_leaf b.now.cells x }
    ensures { a.now.cells ≡ b.now.cells }
{
    let _ = &a.cells;
    let _ = &b.cells;
}
