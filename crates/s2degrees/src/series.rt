//! Sine and cosine of an angle of at most 45 degrees, by their series. A number of 62 places is a whole number that
//! stands for itself over 2^62.
ghost use Rattle.std.specs.Prelude.{◌≡◌, ◌≤◌, ◌<◌, ◌+◌, ◌*◌, ◌/◌, ◌^◌, ℕ};
ghost use Rattle.s2degrees.specs.Degrees.{IsCosineSum, IsSineSum, eighth};
ghost use Rattle.s2degrees.specs.Working.Near.{IsNear};
ghost use Rattle.s2degrees.specs.Working.Numbers.{cosine_number, radians_number, sine_number, step_number};

/// 1, as a number of 62 places.
pub(crate) const ONE: u64 = 1 << 62;

/// Radians of a femtodegree, as a number of 122 places.
const RADIAN: u128 = 92797620144528363529;

/// A product of two numbers of 62 places, rounded down.
pub(crate) fn product(a: u64, b: u64) -> u64
    requires a { a ≤ 2 ^ 62 }
    requires b { b ≤ 2 ^ 62 }
    ensures exact { result ≡ a * b / 2 ^ 62 }
    ensures small { result ≤ 2 ^ 62 }
    ensures near { (c p d e u v : ℕ) → p ≤ d → u ≤ v → IsNear c a p d → IsNear e b u v
        → IsNear (c + e + 1) result (p * u) (d * v) }
{
    ((a as u128 * b as u128) >> 62) as u64
}

/// A step of a series, from the inside out: 1 - q * y / (k * (k + 1)).
fn step(q: u64, y: u64, k: u64) -> u64
    requires q { q ≤ 2 ^ 62 }
    requires y { y ≤ 2 ^ 62 }
    requires k { 0 < k }
    requires few { k < 1000 }
    ensures exact { result ≡ step_number q y k }
    ensures small { result ≤ 2 ^ 62 }
    ensures large { 2 ^ 61 ≤ result }
{
    ONE - product(q, y) / (k * (k + 1))
}

/// Radians of an angle.
fn radians(angle: u64) -> u64
    requires { angle ≤ eighth }
    ensures exact { result ≡ radians_number angle }
    ensures small { result ≤ 2 ^ 62 }
{
    ((angle as u128 * RADIAN) >> 60) as u64
}

/// The sine of an angle of at most 45 degrees.
pub(crate) fn sine(angle: u64) -> u64
    requires { angle ≤ eighth }
    ensures exact { result ≡ sine_number angle }
    ensures small { result ≤ 2 ^ 62 }
    ensures near { (p d : ℕ) → IsSineSum angle p d → (p ≤ d) × IsNear 13000 result p d }
{
    let x = radians(angle);
    let q = product(x, x);
    let a = step(q, ONE, 14);
    let b = step(q, a, 12);
    let c = step(q, b, 10);
    let d = step(q, c, 8);
    let e = step(q, d, 6);
    let f = step(q, e, 4);
    product(x, step(q, f, 2))
}

/// The cosine of an angle of at most 45 degrees.
pub(crate) fn cosine(angle: u64) -> u64
    requires { angle ≤ eighth }
    ensures exact { result ≡ cosine_number angle }
    ensures small { result ≤ 2 ^ 62 }
    ensures large { 2 ^ 61 ≤ result }
    ensures near { (p d : ℕ) → IsCosineSum angle p d → (p ≤ d) × IsNear 13000 result p d }
{
    let x = radians(angle);
    let q = product(x, x);
    let a = step(q, ONE, 15);
    let b = step(q, a, 13);
    let c = step(q, b, 11);
    let d = step(q, c, 9);
    let e = step(q, d, 7);
    let f = step(q, e, 5);
    let g = step(q, f, 3);
    step(q, g, 1)
}
