//! Places of leaves, as words give them.
ghost use Rattle.std.specs.Prelude.{◌≡◌, ◌≤◌, ◌<◌};

use s2cell::SIDE;
use std::marker::Model;

/// The place of a leaf: a face, 0 to 5, and two coordinates below 2^30.
#[derive(Clone, Copy)]
pub struct Place {
    face: u8,
    i: u32,
    j: u32,
}

impl Model for Place {
    ghost use Rattle.std.specs.Prelude.{◌≤◌, ◌<◌};
    ghost use Rattle.s2cell.specs.declared.TheConstants.{SIDE};
    ghost use Rattle.s2script.specs.Values.{Spot};

    ghost Value = { Spot };

    ghost view = { λ p. record { face = p.face; i = p.i; j = p.j } };

    ghost inverse = { λ s. record { face = s.face; i = s.i; j = s.j } };

    ghost invariant = { λ p. (p.face ≤ 5) × (p.i < SIDE) × (p.j < SIDE) };
}

impl Place {
    /// The place with these coordinates.
    pub(crate) fn of(face: u8, i: u32, j: u32) -> Place
        requires face { face ≤ 5 }
        requires i { i < SIDE }
        requires j { j < SIDE }
        ensures { result ≡ record { face = face; i = i; j = j } }
    {
        Place { face, i, j }
    }

    /// Its face.
    pub fn face(self) -> u8
        ensures value { result ≡ self.face }
        ensures most { result < 6 }
    {
        self.face
    }

    /// Its first coordinate.
    pub fn i(self) -> u32
        ensures value { result ≡ self.i }
        ensures most { result < SIDE }
    {
        self.i
    }

    /// Its second coordinate.
    pub fn j(self) -> u32
        ensures value { result ≡ self.j }
        ensures most { result < SIDE }
    {
        self.j
    }
}
