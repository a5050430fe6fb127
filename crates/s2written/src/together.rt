//! Regions taken together.
ghost use Rattle.std.specs.Prelude.{◌≡◌, ◌<◌, ◌++◌, ◌∷◌, ◌⊎◌, [], All, Contains, IfOk, false, true};
ghost use Rattle.s2cell.specs.Cell.{IsCell, child_of, face_of, level_of};
ghost use Rattle.s2list.specs.Union.{LiesIn};
ghost use Rattle.s2cover.specs.Coverings.{LiesOutside};
ghost use Rattle.s2written.specs.Several.{CrossesOne, size_of_all};
ghost use Rattle.s2written.specs.Working.Remaining.{Remain, any_has};

use s2cell::{CellId, GREATEST_LEVEL, PlacedCell};
use s2cover::{Part, Quadrant, Quartered, RoughRegion};
use std::alloc::{AllocError, Global};

/// Regions taken together, as islands are: a cell lies outside if it lies outside of each of them, and inside if it
/// lies inside one. A cell of which two regions have one half each crosses, though it has no leaf outside.
///
/// A cell carries what is known of those regions that share a leaf with it, so that the others cost nothing
/// from there on.
#[derive(Clone, Copy)]
pub struct Together<'a, R> {
    /// The regions.
    pub parts: &'a [R],
}

/// A cell, with the quadrants of the regions that share a leaf with it.
#[derive(Drop)]
pub struct TogetherCell<Q> {
    cell: CellId,
    quadrants: Vec<Q>,
}

/// Adds a quadrant to a list, unless it lies outside.
fn keep<Q: Quadrant>(quadrant: Q, list: &mut Vec<Q>) -> Result<(), AllocError>
    requires { Q.sound quadrant }
    ensures { IfOk result (λ _. (LiesOutside (Q.outer quadrant) (Q.id quadrant) × (list.new.items ≡ list.old.items))
        ⊎ (list.new.items ≡ list.old.items ++ quadrant ∷ [])) }
{
    match quadrant.part() {
        Part::Out => {}
        Part::In | Part::Cross => list.push(quadrant)?,
    }
    Ok(())
}

/// The quadrants in a face of the regions that share a leaf with it. `cell` is the face.
fn tops_of<R: Quartered>(
    alloc: Global,
    parts: &[R],
    face: u8,
    cell: CellId,
) -> Result<Vec<R::At>, AllocError>
    requires face { face < 6 }
    requires cell { IsCell cell }
    requires level { level_of cell ≡ 0 }
    requires same { face_of cell ≡ face }
    ensures { IfOk result (λ tops. Remain (λ r. LiesOutside (R.outer r) cell)
        (λ r q. R.At.sound q × (R.At.id q ≡ cell) × (R.At.outer q ≡ R.outer r) × (R.At.inner q ≡ R.inner r)
        × (R.At.work q ≡ R.work r)) parts.now tops.items) }
{
    let mut tops = Vec::new(alloc);
    for k in 0..parts.len() {
        let top = parts[k].face(alloc, face)?;
        let _ = top.cell().id();
        keep(top, &mut tops)?;
    }
    Ok(tops)
}

/// The quadrants of the child with this number of those that share a leaf with it.
fn children_of<Q: Quadrant>(alloc: Global, quadrants: &[Q], digit: u8) -> Result<Vec<Q>, AllocError>
    requires quadrants { All (λ q. Q.sound q × (level_of (Q.id q) < GREATEST_LEVEL)) quadrants.now }
    requires digit { digit < 4 }
    ensures { IfOk result (λ children. Remain (λ q. LiesOutside (Q.outer q) (child_of (Q.id q) digit))
        (λ q p. Q.sound p × (Q.id p ≡ child_of (Q.id q) digit) × (Q.outer p ≡ Q.outer q) × (Q.inner p ≡ Q.inner q)
        × (Q.work p ≡ Q.work q)) quadrants.now children.items) }
{
    let mut children = Vec::new(alloc);
    for k in 0..quadrants.len() {
        let child = quadrants[k].child(alloc, digit)?;
        keep(child, &mut children)?;
    }
    Ok(children)
}

/// How a cell lies of which two things are so, in what they say of two regions.
fn either(one: Part, other: Part) -> Part
    ensures out { result ≡ Part.Out → (one ≡ Part.Out) × (other ≡ Part.Out) }
    ensures inside { result ≡ Part.In → (one ≡ Part.In) ⊎ (other ≡ Part.In) }
    ensures across { result ≡ Part.Cross → (one ≡ Part.Cross) ⊎ (other ≡ Part.Cross) }
{
    match (one, other) {
        (Part::In, _) | (_, Part::In) => Part::In,
        (Part::Cross, _) | (_, Part::Cross) => Part::Cross,
        (Part::Out, Part::Out) => Part::Out,
    }
}

/// How a cell with these quadrants lies.
fn part_of<Q: Quadrant>(quadrants: &[Q]) -> Part
    requires { All Q.sound quadrants.now }
    ensures out { result ≡ Part.Out → All (λ q. LiesOutside (Q.outer q) (Q.id q)) quadrants.now }
    ensures inside { result ≡ Part.In → (q : Q) × Contains quadrants.now q × LiesIn (Q.inner q) (Q.id q) }
    ensures across { result ≡ Part.Cross → (q : Q) × Contains quadrants.now q
        × (LiesOutside (Q.outer q) (Q.id q) → ⊥) × (LiesIn (Q.inner q) (Q.id q) → ⊥) }
{
    let mut found = Part::Out;
    for k in 0..quadrants.len() {
        found = either(found, quadrants[k].part());
    }
    found
}

/// The sizes of quadrants together, of which 2^64 - 1 are the most that count.
fn size_of<Q: Quadrant>(quadrants: &[Q]) -> usize
    requires { All Q.sound quadrants.now }
    ensures { result ≡ size_of_all (λ q. Q.work q (Q.id q)) quadrants.now }
{
    let mut size = 0usize;
    for k in 0..quadrants.len() {
        size = size.saturating_add(quadrants[k].size());
    }
    size
}

impl<'a, R: Quartered> RoughRegion for Together<'a, R> {
    ghost outside = { λ t x. any_has R.outer t.parts.now x ≡ false };

    ghost inside = { λ t x. any_has R.inner t.parts.now x ≡ true };

    ghost crosses = { λ t c n. CrossesOne R.outer R.inner R.work t.parts.now c n };

    ghost extent = { λ t. size_of_all R.extent t.parts.now };

    type At = TogetherCell<R::At>;

    ghost id = { λ at. at.cell };

    ghost work = { λ at. size_of_all (λ q. R.At.work q (R.At.id q)) at.quadrants.items };

    ghost sound = { λ t at. Remain (λ r. LiesOutside (R.outer r) at.cell)
        (λ r q. R.At.sound q × (R.At.id q ≡ at.cell) × (R.At.outer q ≡ R.outer r) × (R.At.inner q ≡ R.inner r)
        × (R.At.work q ≡ R.work r)) t.parts.now at.quadrants.items };

    fn size(&self) -> usize {
        let mut size = 0usize;
        for k in 0..self.parts.len() {
            size = size.saturating_add(self.parts[k].size());
        }
        size
    }

    fn face(&self, alloc: Global, face: u8) -> Result<TogetherCell<R::At>, AllocError> {
        let cell = PlacedCell::face(face).cell;
        let _ = cell.id();
        let quadrants = tops_of(alloc, self.parts, face, cell)?;
        Ok(TogetherCell { cell, quadrants })
    }

    fn cell_at(&self, at: &TogetherCell<R::At>) -> CellId {
        at.cell
    }

    fn size_at(&self, at: &TogetherCell<R::At>) -> usize {
        size_of(&at.quadrants)
    }

    fn part_at(&self, at: &TogetherCell<R::At>) -> Part {
        let _ = at.cell.id();
        part_of(&at.quadrants)
    }

    fn child_at(
        &self,
        alloc: Global,
        at: &TogetherCell<R::At>,
        digit: u8,
    ) -> Result<TogetherCell<R::At>, AllocError> {
        let _ = at.cell.id();
        let cell = at.cell.child(digit);
        let quadrants = children_of(alloc, &at.quadrants, digit)?;
        Ok(TogetherCell { cell, quadrants })
    }
}
