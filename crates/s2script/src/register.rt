//! The names of the registers.
ghost use Rattle.std.specs.Prelude.{◌≡◌, ◌+◌, ◌<◌, ◌≤◌, MatchOption};

use std::marker::Model;

/// How many registers there are. They are named by the letters from `a` on.
pub const REGISTERS: usize = 26;

/// A register. A contract sees its number, from 0 on.
#[derive(Clone, Copy, PartialEq, Eq)]
pub struct Register {
    number: u8,
}

impl Model for Register {
    ghost use Rattle.std.specs.Prelude.{ℕ, ◌<◌};
    ghost use Rattle.s2script.specs.declared.register.TheConstants.{REGISTERS};

    ghost Value = { ℕ };

    ghost view = { λ r. r.number };

    ghost invariant = { λ r. r.number < REGISTERS };

    ghost inverse = { λ n. record { number = n } };
}

impl Register {
    /// The register of a lower-case ASCII letter, from `a` on; None for every other byte.
    pub fn from_letter(letter: u8) -> Option<Register>
        ensures { MatchOption result (97 ≤ letter → 97 + REGISTERS ≤ letter) (λ r. r + 97 ≡ letter) }
    {
        let number = letter.checked_sub(b'a')?;
        if (number as usize) < REGISTERS {
            Some(Register { number })
        } else {
            None
        }
    }

    /// The register of a number.
    pub fn at(number: u8) -> Register
        requires { number < REGISTERS }
        ensures { result ≡ number }
    {
        Register { number }
    }

    /// Its number, which is the index of its union in the table of registers.
    pub fn index(self) -> usize
        ensures value { result ≡ self }
        ensures within { result < REGISTERS }
    {
        self.number as usize
    }
}
