//! The law of inverted indexes.
ghost use Rattle.std.specs.Prelude.{◌↔◌, ℕ, List, All};
ghost use Rattle.s2cell.specs.Cell.{IsCell};
ghost use Rattle.s2list.specs.Union.{ShareSome, has_leaf};
ghost use Rattle.s2room.specs.Ancestors.{AreHolders, ShareHolder};

/// Two lists of cells share a leaf exactly if a cell of one is a cell of the other, or an ancestor of a cell of the
/// other. So an index can keep, for each union, its cells and its `ancestors`. It finds the unions that share a leaf
/// with a given one by looking up the cells of that one among the `ancestors`, and its `ancestors` among the cells.
pub fn law_of_indexes()
    ensures { (xs ys x_holders y_holders : List ℕ) → All IsCell xs → All IsCell ys
        → AreHolders xs x_holders → AreHolders ys y_holders
        → (ShareSome (has_leaf xs) (has_leaf ys) ↔ ShareHolder xs ys x_holders y_holders) }
{}
