//! Numbers of 62 places with a sign, and their places on the grid.
ghost use Rattle.std.specs.Prelude.{◌≡◌, ◌≤◌, ◌<◌, ◌+◌, ◌*◌, ◌/◌, ◌^◌, ℕ, ℤ, ◌*ℤ◌, unsigned_abs};
ghost use Rattle.s2degrees.specs.Directions.{IsOnGrid};
ghost use Rattle.s2degrees.specs.Femtodegrees.{with_sign};
ghost use Rattle.s2degrees.specs.Working.Near.{IsSignedNear};

use crate::series::product;

/// A number of 62 places with a sign.
#[derive(Clone, Copy)]
pub struct Signed {
    /// Whether it is below 0.
    pub negative: bool,
    /// How far it is from 0.
    pub size: u64,
}

/// The product of two such numbers, rounded to 0.
pub(crate) fn times(a: Signed, b: Signed) -> Signed
    requires a { a.size ≤ 2 ^ 62 }
    requires b { b.size ≤ 2 ^ 62 }
    ensures small { result.size ≤ 2 ^ 62 }
    ensures large { 2 ^ 61 ≤ a.size → 2 ^ 61 ≤ b.size → 2 ^ 60 ≤ result.size }
    ensures near { (p u : ℤ) (d v : ℕ) → IsSignedNear 13000 a p d → IsSignedNear 13000 b u v
        → IsSignedNear 26001 result (p *ℤ u) (d * v) }
{
    Signed {
        negative: a.negative != b.negative,
        size: product(a.size, b.size),
    }
}

/// The number times the 2^31 - 1 steps of the grid, to the nearest whole number.
pub(crate) fn on_grid(a: Signed) -> i64
    requires { a.size ≤ 2 ^ 62 }
    ensures small { unsigned_abs result < 2 ^ 31 }
    ensures large { 2 ^ 60 ≤ a.size → 0 < unsigned_abs result }
    ensures near { (c : ℕ) (p : ℤ) (d : ℕ) → c ≤ 100000 → IsSignedNear c a p d → IsOnGrid result p d }
{
    whole(a.negative, steps(a.size))
}

/// A number of 62 places times the 2^31 - 1 steps of the grid, to the nearest whole number.
fn steps(a: u64) -> u64
    requires { a ≤ 2 ^ 62 }
    ensures small { result < 2 ^ 31 }
    ensures large { 2 ^ 60 ≤ a → 0 < result }
    ensures exact { result ≡ (a * 2147483647 + 2 ^ 61) / 2 ^ 62 }
{
    ((a as u128 * 2_147_483_647 + (1 << 61)) >> 62) as u64
}

/// A whole number with a sign.
pub(crate) fn whole(negative: bool, size: u64) -> i64
    requires { size < 2 ^ 63 }
    ensures { result ≡ with_sign negative size }
{
    let size = size as i64;
    if negative { -size } else { size }
}
