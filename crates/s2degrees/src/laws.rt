//! Laws about the definitions themselves: functions that do nothing, whose clauses are proved.
ghost use Rattle.std.specs.Prelude.{◌*◌, ◌^◌, ℕ, ℤ, neg_ℤ, pos};
ghost use Rattle.s2degrees.specs.Degrees.{IsCosine, IsSine};
ghost use Rattle.s2degrees.specs.Directions.{HasSine};

/// Each angle has sums of its sine and of its cosine.
pub fn law_of_sums()
    ensures sine { (angle : ℤ) → (a : ℤ) × (b : ℕ) × IsSine angle a b }
    ensures cosine { (angle : ℤ) → (a : ℤ) × (b : ℕ) × IsCosine angle a b }
{}

/// Angles whose sines are known, in each quarter of the circle and beyond it: a sum of each is where the sine is on the
/// grid, of which 1 is 2147483647, a half 1073741823.5, and the half of the root of 2 about 1518500249.28.
pub fn known_sines()
    ensures zero { HasSine (pos 0) (pos 0) }
    ensures thirty { HasSine (pos (30 * 10 ^ 15)) (pos 1073741824) }
    ensures eighth { HasSine (pos (45 * 10 ^ 15)) (pos 1518500249) }
    ensures quarter { HasSine (pos (90 * 10 ^ 15)) (pos 2147483647) }
    ensures second_quarter { HasSine (pos (135 * 10 ^ 15)) (pos 1518500249) }
    ensures half { HasSine (pos (180 * 10 ^ 15)) (pos 0) }
    ensures third_quarter { HasSine (pos (210 * 10 ^ 15)) (neg_ℤ (pos 1073741824)) }
    ensures last_quarter { HasSine (pos (330 * 10 ^ 15)) (neg_ℤ (pos 1073741824)) }
    ensures west { HasSine (neg_ℤ (pos (30 * 10 ^ 15))) (neg_ℤ (pos 1073741824)) }
    ensures turned { HasSine (pos (390 * 10 ^ 15)) (pos 1073741824) }
{}
