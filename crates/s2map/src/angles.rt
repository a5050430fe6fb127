//! Longitudes and latitudes of the places of a cell in one eighth of the sphere, by its columns and rows.
ghost use Rattle.std.specs.Prelude.{◌≡◌, ◌*◌, ◌/◌, ◌^◌, ◌≤◌, ◌<◌, ℕ};
ghost use Rattle.s2degrees.specs.Degrees.{quarter};
ghost use Rattle.s2map.specs.Working.Octants.{AreAngles, AreIn, IsAlong, IsAngleSpan, IsAt, IsIn, IsSpan, whole};

use s2degrees::{angle_at_least, angle_at_most, sine_at_least, sine_at_most};

/// 90 degrees.
const QUARTER: u64 = 90_000_000_000_000_000;

/// The places along a face from its middle to its border.
const WHOLE: u64 = 3 * (1 << 60);

/// From one number to another.
#[derive(Clone, Copy)]
pub struct Span {
    /// The least.
    pub low: u64,
    /// The greatest.
    pub high: u64,
}

/// How far places lie from the meridian of 0 or of 180 degrees, and from the equator.
#[derive(Clone, Copy)]
pub struct Angles {
    /// Longitudes.
    pub east: Span,
    /// Latitudes.
    pub north: Span,
}

/// A span of angles; if the bounds contradict each other, then no angle lies between them.
fn ordered(low: u64, high: u64) -> Span
    requires { high ≤ quarter }
    ensures span { IsAngleSpan result }
    ensures high { result.high ≡ high }
    ensures all { (x : ℕ) → low ≤ x → x ≤ high → IsIn result x }
{
    Span {
        low: low.min(high),
        high,
    }
}

/// A number times one of 62 places, rounded down.
fn scaled(n: u64, by: u64) -> u64
    requires n { n ≤ whole }
    requires by { by ≤ 2 ^ 62 }
    ensures value { result ≡ n * by / 2 ^ 62 }
    ensures small { result ≤ whole }
{
    ((n as u128 * by as u128) >> 62) as u64
}

/// At most the latitude of each place from a longitude west, where n / d is at most z / x.
fn least_by_cosine(to: u64, n: u64, d: u64) -> u64
    requires to { to ≤ quarter }
    requires n { n ≤ whole }
    requires d { d ≤ whole }
    ensures within { result ≤ quarter }
    ensures least { (t m x y z : ℕ) → IsAt t m x y z → t ≤ to → n * x ≤ d * z → result ≤ m }
{
    angle_at_least(scaled(n, sine_at_least(QUARTER - to)), d)
}

/// At least the latitude of each place from a longitude east, where n / d is at least z / x.
fn most_by_cosine(from: u64, n: u64, d: u64) -> u64
    requires from { from ≤ quarter }
    requires n { n ≤ whole }
    requires d { d ≤ whole }
    ensures within { result ≤ quarter }
    ensures most { (t m x y z : ℕ) → IsAt t m x y z → from ≤ t → d * z ≤ n * x → m ≤ result }
{
    angle_at_most(scaled(n, sine_at_most(QUARTER - from)) + 1, d)
}

/// At most the latitude of each place from a longitude east, where n / d is at most z / y.
fn least_by_sine(from: u64, n: u64, d: u64) -> u64
    requires from { from ≤ quarter }
    requires n { n ≤ whole }
    requires d { d ≤ whole }
    ensures within { result ≤ quarter }
    ensures least { (t m x y z : ℕ) → IsAt t m x y z → from ≤ t → n * y ≤ d * z → result ≤ m }
{
    angle_at_least(scaled(n, sine_at_least(from)), d)
}

/// At least the latitude of each place from a longitude west, where n / d is at least z / y.
fn most_by_sine(to: u64, n: u64, d: u64) -> u64
    requires to { to ≤ quarter }
    requires n { n ≤ whole }
    requires d { d ≤ whole }
    ensures within { result ≤ quarter }
    ensures most { (t m x y z : ℕ) → IsAt t m x y z → t ≤ to → d * z ≤ n * y → m ≤ result }
{
    angle_at_most(scaled(n, sine_at_most(to)) + 1, d)
}

/// The longitude of a corner, a little nearer to 45 degrees: the sine and the cosine there are bounds without a loss.
fn corner_inward(x: u64, y: u64) -> u64
    requires x { x ≤ whole }
    requires y { y ≤ whole }
    ensures { result ≤ quarter }
{
    if x < y {
        angle_at_least(y, x)
    } else {
        angle_at_most(y, x)
    }
}

/// The same, a little farther from 45 degrees.
fn corner_outward(x: u64, y: u64) -> u64
    requires x { x ≤ whole }
    requires y { y ≤ whole }
    ensures { result ≤ quarter }
{
    if x < y {
        angle_at_most(y, x)
    } else {
        angle_at_least(y, x)
    }
}

/// At most the latitude of each place of a face around a pole that is no farther from the pole than a column and a row:
/// it is near enough by the column or by the row, whichever counts on its side of the corner.
fn farthest(x: u64, y: u64) -> u64
    requires x { x ≤ whole }
    requires y { y ≤ whole }
    ensures within { result ≤ quarter }
    ensures least { (t m p q z : ℕ) → IsAt t m p q z → whole * p ≤ x * z → whole * q ≤ y * z → result ≤ m }
{
    let corner = corner_inward(x, y);
    least_by_cosine(corner, WHOLE, x).min(least_by_sine(corner, WHOLE, y))
}

/// At least the latitude of each place of such a face that is no nearer to the pole than a column and a row.
fn nearest(x: u64, y: u64) -> u64
    requires x { x ≤ whole }
    requires y { y ≤ whole }
    ensures within { result ≤ quarter }
    ensures most { (t m p q z : ℕ) → IsAt t m p q z → x * z ≤ whole * p → y * z ≤ whole * q → m ≤ result }
{
    if x == 0 {
        most_by_sine(QUARTER, WHOLE, y)
    } else if y == 0 {
        most_by_cosine(0, WHOLE, x)
    } else {
        let corner = corner_outward(x, y);
        most_by_cosine(corner, WHOLE, x).max(most_by_sine(corner, WHOLE, y))
    }
}

/// The angles of the places of a cell on face 0 or 3: y and z over x lie in two spans.
pub(crate) fn angles_by_x(y: Span, z: Span) -> Angles
    requires y { IsSpan y }
    requires z { IsSpan z }
    ensures angles { AreAngles result }
    ensures all { (t m p q r : ℕ) → IsAt t m p q r → IsAlong y q p → IsAlong z r p → AreIn result t m }
{
    let east = ordered(angle_at_least(y.low, WHOLE), angle_at_most(y.high, WHOLE));
    let south = least_by_cosine(east.high, z.low, WHOLE);
    let north = most_by_cosine(east.low, z.high, WHOLE).min(QUARTER - 1);
    Angles {
        east,
        north: ordered(south, north),
    }
}

/// The angles of the places of a cell on face 1 or 4: x and z over y lie in two spans.
pub(crate) fn angles_by_y(x: Span, z: Span) -> Angles
    requires x { IsSpan x }
    requires z { IsSpan z }
    ensures angles { AreAngles result }
    ensures all { (t m p q r : ℕ) → IsAt t m p q r → IsAlong x p q → IsAlong z r q → AreIn result t m }
{
    let east = ordered(angle_at_least(WHOLE, x.high), angle_at_most(WHOLE, x.low));
    let south = least_by_sine(east.low, z.low, WHOLE);
    let north = most_by_sine(east.high, z.high, WHOLE).min(QUARTER - 1);
    Angles {
        east,
        north: ordered(south, north),
    }
}

/// The angles of the places of a cell on face 2 or 5: x and y over z lie in two spans.
pub(crate) fn angles_by_z(x: Span, y: Span) -> Angles
    requires x { IsSpan x }
    requires y { IsSpan y }
    ensures angles { AreAngles result }
    ensures all { (t m p q r : ℕ) → IsAt t m p q r → IsAlong x p r → IsAlong y q r → AreIn result t m }
{
    let east = ordered(angle_at_least(y.low, x.high), angle_at_most(y.high, x.low));
    let south = farthest(x.high, y.high);
    let north = nearest(x.low, y.low).min(QUARTER - 1);
    Angles {
        east,
        north: ordered(south, north),
    }
}
