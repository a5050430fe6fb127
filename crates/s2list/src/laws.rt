//! The law of lists: one region has one list.
ghost use Rattle.std.specs.Prelude.{◌≡◌, ℕ, Bool, List};
ghost use Rattle.s2list.specs.Union.{IsLocal, IsNormalForm, has_leaf};

/// Lists that `is_union` takes are one list if they have the same leaves. Such a list is the normal form of its leaves,
/// a set has only one normal form, and that is such a list. So two regions can be compared by their lists, as bytes.
pub fn one_list()
    ensures lists { (xs ys : List ℕ) → IsLocal xs → IsLocal ys → ((x : ℕ) → has_leaf xs x ≡ has_leaf ys x)
        → xs ≡ ys }
    ensures normal { (xs : List ℕ) → IsLocal xs → IsNormalForm (has_leaf xs) xs }
    ensures forms { (S : ℕ → Bool) (xs ys : List ℕ) → IsNormalForm S xs → IsNormalForm S ys → xs ≡ ys }
    ensures local { (S : ℕ → Bool) (xs : List ℕ) → IsNormalForm S xs → IsLocal xs }
{}
