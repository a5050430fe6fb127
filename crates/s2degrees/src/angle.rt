//! Sine and cosine of any angle.
ghost use Rattle.std.specs.Prelude.{◌≡◌, ◌≢◌, ◌⊎◌, ◌≤◌, ◌<◌, ◌+◌, ◌/◌, ◌%◌, ◌^◌, ℕ, ℤ};
ghost use Rattle.s2degrees.specs.Degrees.{IsCosine, IsQuarterCosine, IsQuarterSine, IsSine, IsSineIn, around, eighth};
ghost use Rattle.s2degrees.specs.Degrees.{quarter};
ghost use Rattle.s2degrees.specs.Working.Near.{IsNear, IsSignedNear};

use crate::series::{cosine, sine};
use crate::signed::Signed;

/// 45 degrees.
const EIGHTH: u64 = 45_000_000_000_000_000;

/// 90 degrees.
pub(crate) const QUARTER: u64 = 90_000_000_000_000_000;

/// 360 degrees.
const TURN: i64 = 360_000_000_000_000_000;

/// The sine of an angle of at most 90 degrees.
pub(crate) fn quarter_sine(angle: u64) -> u64
    requires { angle ≤ quarter }
    ensures small { result ≤ 2 ^ 62 }
    ensures large { eighth < angle → 2 ^ 61 ≤ result }
    ensures near { (p d : ℕ) → IsQuarterSine angle p d → (p ≤ d) × IsNear 13000 result p d }
{
    if angle <= EIGHTH {
        sine(angle)
    } else {
        cosine(QUARTER - angle)
    }
}

/// The cosine of an angle of at most 90 degrees.
fn quarter_cosine(angle: u64) -> u64
    requires { angle ≤ quarter }
    ensures small { result ≤ 2 ^ 62 }
    ensures large { angle ≤ eighth → 2 ^ 61 ≤ result }
    ensures near { (p d : ℕ) → IsQuarterCosine angle p d → (p ≤ d) × IsNear 13000 result p d }
{
    if angle <= EIGHTH {
        cosine(angle)
    } else {
        sine(QUARTER - angle)
    }
}

/// The sine of an angle that is `rest` beyond the beginning of this quarter of the circle, of which quarter 4 is
/// quarter 0 again.
fn sine_in(q: u64, rest: u64) -> Signed
    requires q { q ≤ 4 }
    requires rest { rest ≤ quarter }
    ensures small { result.size ≤ 2 ^ 62 }
    ensures even { q % 2 ≡ 0 → eighth < rest → 2 ^ 61 ≤ result.size }
    ensures odd { q % 2 ≢ 0 → rest ≤ eighth → 2 ^ 61 ≤ result.size }
    ensures near { (a : ℤ) (b : ℕ) → IsSineIn q rest a b → IsSignedNear 13000 result a b }
{
    let size = if q % 2 == 0 {
        quarter_sine(rest)
    } else {
        quarter_cosine(rest)
    };
    Signed {
        negative: q / 2 == 1,
        size,
    }
}

/// Where an angle ends on the circle.
#[derive(Drop)]
struct OnCircle {
    /// In which quarter, of four.
    q: u64,
    /// How far beyond the beginning of that quarter.
    rest: u64,
}

/// Where an angle ends on the circle.
fn on_circle(angle: i64) -> OnCircle
    ensures q { result.q ≡ around angle / quarter }
    ensures rest { result.rest ≡ around angle % quarter }
    ensures four { result.q < 4 }
    ensures within { result.rest ≤ quarter }
{
    let around = angle.rem_euclid(TURN) as u64;
    OnCircle {
        q: around / QUARTER,
        rest: around % QUARTER,
    }
}

/// The sine and the cosine of an angle.
#[derive(Drop)]
pub struct Sides {
    /// The sine.
    pub sine: Signed,
    /// The cosine.
    pub cosine: Signed,
}

/// The sine and the cosine of an angle.
pub(crate) fn sides_of(angle: i64) -> Sides
    ensures sine_small { result.sine.size ≤ 2 ^ 62 }
    ensures cosine_small { result.cosine.size ≤ 2 ^ 62 }
    ensures large { (2 ^ 61 ≤ result.sine.size) ⊎ (2 ^ 61 ≤ result.cosine.size) }
    ensures sine { (a : ℤ) (b : ℕ) → IsSine angle a b → IsSignedNear 13000 result.sine a b }
    ensures cosine { (a : ℤ) (b : ℕ) → IsCosine angle a b → IsSignedNear 13000 result.cosine a b }
{
    let at = on_circle(angle);
    Sides {
        sine: sine_in(at.q, at.rest),
        cosine: sine_in(at.q + 1, at.rest),
    }
}
