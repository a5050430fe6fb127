//! Directions: points of the sphere.
ghost use Rattle.std.specs.Prelude.{◌≡◌, ◌↔◌, IfOk, IfErr, IsTrue};
ghost use Rattle.s2polygon.specs.Directions.{IsDirection, IsLarge, IsTooLarge, IsZero, Point};
ghost use Rattle.s2polygon.specs.declared.directions.DirectionFault.TheVariants.{Zero, TooLarge};

use std::marker::Model;
use thiserror::Error;

/// A direction from the center of the sphere: the point of the sphere that lies there, at any distance.
///
/// Its coordinates are whole numbers of which each is less than 2^31 in size, and not all are 0. The point of a unit
/// vector is its coordinates times 2^31 - 1, rounded; it is then at most 1.5 mm off along each axis.
#[derive(Clone, Copy, PartialEq, Eq, Debug)]
pub struct Direction {
    pub(crate) x: i64,
    pub(crate) y: i64,
    pub(crate) z: i64,
}

impl Model for Direction {
    ghost use Rattle.s2polygon.specs.Directions.{IsDirection, Point};

    ghost Value = { Point };

    ghost view = { λ d. record { x = d.x; y = d.y; z = d.z } };

    ghost inverse = { λ p. record { x = p.x; y = p.y; z = p.z } };

    ghost invariant = { λ d. IsDirection (record { x = d.x; y = d.y; z = d.z }) };
}

/// Why three numbers are no direction.
#[derive(Clone, Copy, Debug, PartialEq, Eq, Drop, Error)]
pub enum DirectionFault {
    /// All three are 0.
    #[error("a direction of three zeros")]
    Zero,
    /// One of them is 2^31 or more in size.
    #[error("a coordinate of a direction is 2^31 or more in size")]
    TooLarge,
}

impl Direction {
    /// The direction with these coordinates. `TooLarge` if one of them is 2^31 or more in size, `Zero` if all are 0.
    pub fn new(x: i64, y: i64, z: i64) -> Result<Direction, DirectionFault>
        ensures made { IfOk result (λ d. d ≡ record { x = x; y = y; z = z }) }
        ensures direction { IfOk result (λ d. IsDirection d) }
        ensures zero { IfErr result (λ fault. fault ≡ Zero → IsZero (record { x = x; y = y; z = z })) }
        ensures large { IfErr result (λ fault. fault ≡ TooLarge → IsTooLarge (record { x = x; y = y; z = z })) }
    {
        if is_large(x) || is_large(y) || is_large(z) {
            return Err(DirectionFault::TooLarge);
        }
        if x == 0 && y == 0 && z == 0 {
            return Err(DirectionFault::Zero);
        }
        Ok(Direction { x, y, z })
    }

    /// The coordinate along the axis through latitude 0 and longitude 0.
    pub fn x(self) -> i64
        ensures { result ≡ self.x }
    {
        self.x
    }

    /// The coordinate along the axis through latitude 0 and longitude 90.
    pub fn y(self) -> i64
        ensures { result ≡ self.y }
    {
        self.y
    }

    /// The coordinate along the axis through latitude 90.
    pub fn z(self) -> i64
        ensures { result ≡ self.z }
    {
        self.z
    }
}

/// Whether a coordinate is 2^31 or more in size.
fn is_large(c: i64) -> bool
    ensures { IsTrue result ↔ IsLarge c }
{
    c <= -(1 << 31) || c >= 1 << 31
}

/// An edge: the short way from one direction to another.
#[derive(Clone, Copy, PartialEq, Eq, Debug)]
pub struct Edge {
    /// Where it begins.
    pub a: Direction,
    /// Where it ends.
    pub b: Direction,
}
