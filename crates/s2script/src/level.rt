//! Levels and moduli of levels, as words give them.
ghost use Rattle.std.specs.Prelude.{◌≡◌, ◌≤◌};

use s2cell::GREATEST_LEVEL;
use std::marker::Model;

/// A level, 0 to 30. A contract sees it as a number.
#[derive(Clone, Copy)]
pub struct Level {
    number: u8,
}

impl Model for Level {
    ghost use Rattle.std.specs.Prelude.{ℕ, ◌≤◌};
    ghost use Rattle.s2cell.specs.declared.TheConstants.{GREATEST_LEVEL};

    ghost Value = { ℕ };

    ghost view = { λ l. l.number };

    ghost inverse = { λ n. record { number = n } };

    ghost invariant = { λ l. l.number ≤ GREATEST_LEVEL };
}

impl Level {
    /// The level with this number.
    pub(crate) fn of(number: u8) -> Level
        requires { number ≤ GREATEST_LEVEL }
        ensures { result ≡ number }
    {
        Level { number }
    }

    /// Its number.
    pub fn number(self) -> u8
        ensures value { result ≡ self }
        ensures most { result ≤ GREATEST_LEVEL }
    {
        self.number
    }
}

/// The modulus of a choice of levels, 1 to 3. A contract sees it as a number.
#[derive(Clone, Copy)]
pub struct Modulus {
    number: u8,
}

impl Model for Modulus {
    ghost use Rattle.std.specs.Prelude.{ℕ, ◌≤◌};

    ghost Value = { ℕ };

    ghost view = { λ m. m.number };

    ghost inverse = { λ n. record { number = n } };

    ghost invariant = { λ m. (1 ≤ m.number) × (m.number ≤ 3) };
}

impl Modulus {
    /// The modulus with this number.
    pub(crate) fn of(number: u8) -> Modulus
        requires some { 1 ≤ number }
        requires most { number ≤ 3 }
        ensures { result ≡ number }
    {
        Modulus { number }
    }

    /// Its number.
    pub fn number(self) -> u8
        ensures value { result ≡ self }
        ensures some { 1 ≤ result }
        ensures most { result ≤ 3 }
    {
        self.number
    }
}
