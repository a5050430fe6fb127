//! The levels that cells are cut to.
ghost use Rattle.std.specs.Prelude.{◌-◌, ◌^◌, ◌≡◌, ◌≤◌, ◌<◌};
ghost use Rattle.s2cell.specs.CutLevels.{IsCutLevel, cut_level};

use crate::GREATEST_LEVEL;
use std::marker::Model;

/// The levels that cells are cut to, of a least level and a modulus, which is all that a contract sees. A table has the
/// level for each level of a cell, so nothing is divided.
#[derive(Drop)]
pub struct CutLevels {
    min: u8,
    modulus: u8,
    levels: [u8; 31],
}

impl Model for CutLevels {
    ghost use Rattle.s2cell.specs.CutLevels.{Cutting};
    ghost use Rattle.s2cell.specs.Working.CutLevels.{AreCutLevels};

    ghost Value = { Cutting };

    ghost view = { λ c. record { least = c.min; modulus = c.modulus } };

    ghost invariant = { λ c. AreCutLevels c.min c.modulus c.levels };
}

impl CutLevels {
    /// The levels for a least level, at most 30, and a modulus, 1 to 3.
    pub fn new(min: u8, modulus: u8) -> CutLevels
        requires min { min ≤ GREATEST_LEVEL }
        requires some { 0 < modulus }
        requires modulus { modulus ≤ 3 }
        ensures min { result.least ≡ min }
        ensures modulus { result.modulus ≡ modulus }
    {
        let mut levels = [0u8; 31];
        let mut cut = min;
        for level in 0..31u8 {
            if cut < level {
                cut += modulus;
            }
            levels[level as usize] = cut.min(GREATEST_LEVEL);
        }
        CutLevels {
            min,
            modulus,
            levels,
        }
    }

    /// The level that a cell of this level is cut to: the least that is at least its own, is at least `min`, and
    /// differs from `min` by a multiple of `modulus`; 30 if there is none.
    pub fn of(&self, level: u8) -> u8
        requires { level ≤ GREATEST_LEVEL }
        ensures value { result ≡ cut_level level self.now.least self.now.modulus }
        ensures meaning { IsCutLevel level self.now.least self.now.modulus result }
        ensures own { level ≤ result }
        ensures most { result ≤ GREATEST_LEVEL }
        ensures some { 0 < self.now.modulus }
    {
        self.levels[level as usize]
    }
}

/// How many cells of a level a cell of another level has: 4 for each level between them.
pub fn count_descendants(own: u8, level: u8) -> u64
    requires own { own ≤ level }
    requires level { level ≤ GREATEST_LEVEL }
    ensures { result ≡ 4 ^ (level - own) }
{
    1 << (2 * (level - own) as u32)
}
