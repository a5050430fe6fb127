//! Walks over the cells of a map, level by level, up to an amount of work.
ghost use Rattle.std.specs.Prelude.{◌≡◌, ◌≤◌, ◌⊎◌, ◌++◌, IfErr, IfOk};
ghost use Rattle.s2map.specs.Cells.{AreMet};
ghost use Rattle.s2written.specs.Coverings.{HasNoneOutside, MissesNone};
ghost use Rattle.s2written.specs.Walks.{TakesMore};
ghost use Rattle.s2written.specs.declared.fault.CoverError.TheVariants.{Memory, TooManyCells};

use crate::CELL_WORK;
use crate::fault::CoverError;
use s2cell::GREATEST_LEVEL;
use s2map::{MapCovering, MapShape};
use std::alloc::Global;

/// The cells of two coverings down to a level.
///
/// A walk asks the faces, and the children of each cell of the levels above that edges meet, so it begins only once
/// their number is known from the walk to the level above, and all walks together take no more than the work allowed.
pub(crate) fn walk(
    alloc: Global,
    map: &MapShape,
    positions: usize,
    level: u8,
    work: u64,
) -> Result<MapCovering, CoverError>
    requires { level ≤ GREATEST_LEVEL }
    ensures outer { IfOk result (λ c. MissesNone map.now (c.met.items ++ c.within.items)) }
    ensures inner { IfOk result (λ c. HasNoneOutside map.now c.within.items) }
    ensures met { IfOk result (λ c. AreMet map.now level c.met.items) }
    ensures fault { IfErr result (λ e. (e ≡ Memory) ⊎ ((e ≡ TooManyCells)
        × TakesMore map.now positions level work)) }
{
    let each = (positions as u64).saturating_add(CELL_WORK);
    let mut asked = 6u64;
    let mut asked_by_all = 6u64;
    for above in 0..level {
        if each.saturating_mul(asked_by_all) > work {
            return Err(CoverError::TooManyCells);
        }
        let met = map.covering(alloc, above)?.met.len() as u64;
        asked = asked.saturating_add(met.saturating_mul(4));
        asked_by_all = asked_by_all.saturating_add(asked);
    }
    if each.saturating_mul(asked_by_all) > work {
        return Err(CoverError::TooManyCells);
    }
    Ok(map.covering(alloc, level)?)
}
