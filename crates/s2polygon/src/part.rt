//! How a cell lies relative to a polygon.
ghost use Rattle.std.specs.Prelude.{◌≡◌, ◌↔◌, IfOk};
ghost use Rattle.s2list.specs.Union.{LiesIn};
ghost use Rattle.s2cover.specs.Coverings.{LiesOutside};
ghost use Rattle.s2polygon.specs.Leaves.{inner_leaf, outer_leaf};
ghost use Rattle.s2polygon.specs.Working.Known.{IsKnownCell};

use crate::descent::{Known, descend_to};
use crate::polygon::Polygon;
use crate::quadrant::{is_bare, part_of};
use s2cell::{CellId, GREATEST_LEVEL};
use s2cover::Part;
use std::alloc::{AllocError, Global};

impl Polygon {
    /// How a cell lies: `In` if all its leaves are inner ones, `Out` if none is an outer one, else `Cross`. Fails only
    /// if there is no memory.
    ///
    /// The edges of the cell's face are looked at once, those near the cell once for each level. S2:
    /// `S2Polygon::Contains` and `MayIntersect` of a cell.
    pub fn part(&self, alloc: Global, cell: CellId) -> Result<Part, AllocError>
        ensures out { IfOk result (λ part. (part ≡ Part.Out) ↔ LiesOutside (outer_leaf self.now) cell) }
        ensures inside { IfOk result (λ part. (part ≡ Part.In) ↔ LiesIn (inner_leaf self.now) cell) }
    {
        let known = self.known_cell(alloc, cell)?;
        Ok(part_of(is_bare(&known), known.odd))
    }

    /// The parity and the edges of a cell.
    fn known_cell(&self, alloc: Global, cell: CellId) -> Result<Known, AllocError>
        ensures { IfOk result (λ known. IsKnownCell self.now cell known) }
    {
        let _ = cell.id();
        let at = cell.square();
        let face = self.known_face(alloc, at.face)?;
        let bottom = u32::from(GREATEST_LEVEL - cell.level());
        let (x, y) = (u64::from(at.i), u64::from(at.j));
        descend_to(alloc, self.list(at.face), face, bottom, x, y, self.margin())
    }
}
