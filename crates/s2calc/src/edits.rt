//! Edits of a register: the union that an edit makes, how the register gets it, and undo and redo.
ghost use Rattle.std.specs.Prelude.{◌≡◌, ◌<◌, ℕ, Bool, List, length, Ok, IfOk, IfErr};
ghost use Rattle.s2cell.specs.Rectangles.{rect_set};
ghost use Rattle.s2list.specs.Union.{IsNormalForm, has_leaf};
ghost use Rattle.s2list.specs.Sets.{union_of, intersection_of, difference_of};
ghost use Rattle.s2cover.specs.Coverings.{outer_set, inner_set};
ghost use Rattle.s2edit.specs.History.{undone, redone, sets};
ghost use Rattle.s2calc.specs.Working.Answer.{reply_of};
ghost use Rattle.s2calc.specs.Edits.{new_set, leaves_of, no_leaf, within, Gets, Moves};
ghost use Rattle.s2calc.specs.Working.Edits.{Makes, answer_of};

use crate::answer::Answer;
use crate::refusal::Refusal;
use s2cover::{
    CoverFault, FaceRect, Looks, clip_inner, clip_outer, rect_inner, rect_outer, union_inner,
    union_outer,
};
use s2edit::{EditFault, Editor, Register};
use s2script::{Cells, Level, RegisterEdit};
use s2union::{CellUnion, UnionFault, normalise};
use std::alloc::{AllocError, Global};

/// A list that the history keeps may have spare room for an eighth of its cells.
const CELLS_TO_SPARE_ROOM: usize = 8;

/// A short one may have spare room for this many cells: a copy would save little.
const SHORT_SPARE_ROOM: usize = 64;

/// Carries out an edit of a register.
pub(crate) fn edit_register(
    alloc: Global,
    editor: &mut Editor,
    register: Register,
    edit: RegisterEdit<'_>,
) -> Answer
    ensures { Gets (new_set editor.old.now register edit.entry) register editor.old (reply_of result editor.new)
        editor.new }
{
    match edit {
        RegisterEdit::Add(cells) => add_cells(alloc, editor, register, cells),
        RegisterEdit::Remove(cells) => remove_cells(alloc, editor, register, cells),
        RegisterEdit::Keep(cells) => {
            let kept = intersection_with_cells(alloc, editor.register(register), cells);
            give(editor, register, in_memory(kept))
        }
        RegisterEdit::Clear => assign(editor, register, nothing(alloc)),
        RegisterEdit::Copy(other) => copy(editor, register, other),
        RegisterEdit::Union(other) => {
            let union = editor.register(register).union(editor.register(other));
            give(editor, register, in_memory(union))
        }
        RegisterEdit::Intersect(other) => {
            let both = editor
                .register(register)
                .intersection(editor.register(other));
            give(editor, register, in_memory(both))
        }
        RegisterEdit::Subtract(other) => {
            let union = editor.register(register);
            let rest = difference(union, editor.register(other), editor.limit());
            give(editor, register, rest)
        }
        RegisterEdit::Range(span) => {
            let (first, last) = span.ends();
            give(
                editor,
                register,
                in_memory(CellUnion::from_range(alloc, first, last)),
            )
        }
        RegisterEdit::Outer { level, rect } => {
            let covering = outer_rect(alloc, &rect, level, editor);
            give(editor, register, covering)
        }
        RegisterEdit::Inner { level, rect } => {
            let covering = inner_rect(alloc, &rect, level, editor);
            give(editor, register, covering)
        }
        RegisterEdit::OuterOf { other, level, rect } => {
            let covering = outer_of(alloc, editor, other, level, rect);
            give(editor, register, covering)
        }
        RegisterEdit::InnerOf { other, level, rect } => {
            let covering = inner_of(alloc, editor, other, level, rect);
            give(editor, register, covering)
        }
    }
}

/// Gives a register the union that was made, or answers why none was.
fn give(editor: &mut Editor, register: Register, made: Result<CellUnion, Refusal>) -> Answer
    ensures { (S : ℕ → Bool) → Makes S editor.old.limit made →
        Gets S register editor.old (reply_of result editor.new) editor.new }
{
    match made {
        Ok(union) => assign(editor, register, union),
        Err(refusal) => Answer::Refused(refusal),
    }
}

/// Gives a register a union, without the spare room that its list may have.
pub(crate) fn assign(editor: &mut Editor, register: Register, union: CellUnion) -> Answer
    ensures { (S : ℕ → Bool) → IsNormalForm S union.cells →
        Gets S register editor.old (reply_of result editor.new) editor.new }
{
    match fitted(union, editor.register(register)) {
        Ok(union) => assign_as_it_is(editor, register, union),
        Err(_) => Answer::Refused(Refusal::Memory),
    }
}

/// The union for a register with this old one. The history keeps the list that an empty register is given. So if that
/// has much spare room, as after many cells of a file became few, it is a copy that fits.
fn fitted(union: CellUnion, old: &CellUnion) -> Result<CellUnion, AllocError>
    ensures { IfOk result (λ u. u.cells ≡ union.cells) }
{
    let spare = union.room().saturating_sub(union.len());
    if old.is_empty() && spare > (union.len() / CELLS_TO_SPARE_ROOM).max(SHORT_SPARE_ROOM) {
        return union.try_clone();
    }
    Ok(union)
}

/// Gives a register a union with its own list.
fn assign_as_it_is(editor: &mut Editor, register: Register, union: CellUnion) -> Answer
    ensures { (S : ℕ → Bool) → IsNormalForm S union.cells →
        Gets S register editor.old (reply_of result editor.new) editor.new }
{
    answer_of(editor.assign(register, union))
}

/// Gives a register the list of another one.
fn copy(editor: &mut Editor, register: Register, other: Register) -> Answer
    ensures { Gets (leaves_of editor.old.now other) register editor.old (reply_of result editor.new) editor.new }
{
    let _ = editor.register(other).cells();
    match editor.copy(register, other) {
        Ok(numbers) => answer_of(Ok(numbers)),
        Err(_) => Answer::Refused(Refusal::Memory),
    }
}

/// The answer to an edit that the editor carried out, or refused.
fn answer_of(edited: Result<(usize, usize), EditFault>) -> Answer
    ensures { result ≡ answer_of edited }
{
    match edited {
        Ok((out, put)) => Answer::Moved { out, put },
        Err(EditFault::TooMany) => Answer::Refused(Refusal::TooMany),
        Err(EditFault::Memory) => Answer::Refused(Refusal::Memory),
    }
}

/// Goes back one state.
pub(crate) fn undo(editor: &mut Editor) -> Answer
    ensures { Moves editor.old.past editor.old (undone editor.old) (undone (sets editor.old))
        (reply_of result editor.new) editor.new }
{
    match editor.undo() {
        Some((out, put)) => Answer::Moved { out, put },
        None => Answer::Refused(Refusal::Nothing),
    }
}

/// Goes forward one state.
pub(crate) fn redo(editor: &mut Editor) -> Answer
    ensures { Moves editor.old.future editor.old (redone editor.old) (redone (sets editor.old))
        (reply_of result editor.new) editor.new }
{
    match editor.redo() {
        Some((out, put)) => Answer::Moved { out, put },
        None => Answer::Refused(Refusal::Nothing),
    }
}

/// Adds cells to a register.
fn add_cells(alloc: Global, editor: &mut Editor, register: Register, cells: Cells<'_>) -> Answer
    ensures { Gets (union_of (leaves_of editor.old.now register) (has_leaf cells.entry)) register editor.old
        (reply_of result editor.new) editor.new }
{
    match union_of(alloc, cells) {
        Ok(named) => add(editor, register, &named),
        Err(_) => Answer::Refused(Refusal::Memory),
    }
}

/// Adds the leaves of a union to a register.
fn add(editor: &mut Editor, register: Register, named: &CellUnion) -> Answer
    ensures { Gets (union_of (leaves_of editor.old.now register) (has_leaf named.now.cells)) register editor.old
        (reply_of result editor.new) editor.new }
{
    let _ = named.cells();
    let _ = editor.register(register).cells();
    answer_of(editor.add(register, named))
}

/// Takes cells out of a register.
fn remove_cells(alloc: Global, editor: &mut Editor, register: Register, cells: Cells<'_>) -> Answer
    ensures { Gets (difference_of (leaves_of editor.old.now register) (has_leaf cells.entry)) register editor.old
        (reply_of result editor.new) editor.new }
{
    match union_of(alloc, cells) {
        Ok(named) => remove(editor, register, &named),
        Err(_) => Answer::Refused(Refusal::Memory),
    }
}

/// Takes the leaves of a union out of a register.
fn remove(editor: &mut Editor, register: Register, named: &CellUnion) -> Answer
    ensures { Gets (difference_of (leaves_of editor.old.now register) (has_leaf named.now.cells)) register editor.old
        (reply_of result editor.new) editor.new }
{
    let _ = editor.register(register).cells();
    answer_of(editor.remove(register, named))
}

/// The union, or out of memory as a refusal.
fn in_memory(made: Result<CellUnion, AllocError>) -> Result<CellUnion, Refusal>
    ensures makes { (S : ℕ → Bool) (limit : ℕ) → IfOk made (λ u. IsNormalForm S u.cells) → Makes S limit result }
    ensures same { IfOk made (λ u. result ≡ Ok u) }
{
    Ok(made?)
}

/// A covering, or the refusal that says why there is none.
#[tactic(auto, using(crate::proofs::CoveringLemmas::outer_too_long, crate::proofs::CoveringLemmas::inner_too_long))]
fn covering_or_refusal(made: Result<CellUnion, CoverFault>) -> Result<CellUnion, Refusal>
    ensures outer { (R : ℕ → Bool) (level limit : ℕ) → IfOk made (λ u. IsNormalForm (outer_set R level) u.cells) →
        IfErr made (λ fault. fault ≡ CoverFault.TooMany → (u : List ℕ) → IsNormalForm (outer_set R level) u →
        limit < length u) → Makes (outer_set R level) limit result }
    ensures inner { (R : ℕ → Bool) (level limit : ℕ) → IfOk made (λ u. IsNormalForm (inner_set R level) u.cells) →
        IfErr made (λ fault. fault ≡ CoverFault.TooMany → (u : List ℕ) → IsNormalForm (inner_set R level) u →
        limit < length u) → Makes (inner_set R level) limit result }
{
    match made {
        Ok(union) => Ok(union),
        Err(CoverFault::TooMany) => Err(Refusal::TooMany),
        Err(CoverFault::Memory) => Err(Refusal::Memory),
    }
}

/// The union of the cells.
fn union_of(alloc: Global, mut cells: Cells<'_>) -> Result<CellUnion, AllocError>
    ensures { IfOk result (λ u. (x : ℕ) → has_leaf u.cells x ≡ has_leaf cells.entry x) }
{
    let mut list = Vec::new(alloc);
    while let Some(cell) = cells.next() {
        list.push(cell)?;
    }
    Ok(normalise(list))
}

/// The union without the leaves of another.
#[tactic(auto, using(crate::proofs::CoveringLemmas::rest_too_long))]
fn difference(union: &CellUnion, taken: &CellUnion, limit: usize) -> Result<CellUnion, Refusal>
    ensures { Makes (difference_of (has_leaf union.now.cells) (has_leaf taken.now.cells)) limit result }
{
    let _ = union.cells();
    match union.difference_up_to(taken, limit) {
        Ok(rest) => Ok(rest),
        Err(UnionFault::TooMany) => Err(Refusal::TooMany),
        Err(UnionFault::Memory) => Err(Refusal::Memory),
    }
}

/// The leaves that the union shares with the cells.
fn intersection_with_cells(
    alloc: Global,
    union: &CellUnion,
    cells: Cells<'_>,
) -> Result<CellUnion, AllocError>
    ensures { IfOk result (λ u. IsNormalForm (intersection_of (has_leaf union.now.cells) (has_leaf cells.entry))
        u.cells) }
{
    union.intersection(&union_of(alloc, cells)?)
}

/// The union that has no leaf.
fn nothing(alloc: Global) -> CellUnion
    ensures { IsNormalForm no_leaf result.cells }
{
    let union = CellUnion::empty(alloc);
    let _ = union.cells();
    union
}

/// The outer covering of a rectangle.
fn outer_rect(
    alloc: Global,
    rect: &FaceRect,
    level: Level,
    editor: &Editor,
) -> Result<CellUnion, Refusal>
    ensures { Makes (outer_set (rect_set rect.now) level) editor.now.limit result }
{
    let mut looks = Looks { count: 0 };
    let limit = editor.limit();
    covering_or_refusal(rect_outer(alloc, rect, level.number(), limit, &mut looks))
}

/// The inner covering of a rectangle.
fn inner_rect(
    alloc: Global,
    rect: &FaceRect,
    level: Level,
    editor: &Editor,
) -> Result<CellUnion, Refusal>
    ensures { Makes (inner_set (rect_set rect.now) level) editor.now.limit result }
{
    let mut looks = Looks { count: 0 };
    let limit = editor.limit();
    covering_or_refusal(rect_inner(alloc, rect, level.number(), limit, &mut looks))
}

/// The outer covering of a register, within a rectangle if there is one.
fn outer_of(
    alloc: Global,
    editor: &Editor,
    register: Register,
    level: Level,
    rect: Option<FaceRect>,
) -> Result<CellUnion, Refusal>
    ensures { Makes (outer_set (within rect (leaves_of editor.now.now register)) level) editor.now.limit result }
{
    let union = editor.register(register);
    match rect {
        None => covering_or_refusal(union_outer(alloc, union, level.number(), editor.limit())),
        Some(rect) => {
            let mut looks = Looks { count: 0 };
            let limit = editor.limit();
            covering_or_refusal(clip_outer(alloc, union, &rect, level.number(), limit, &mut looks))
        }
    }
}

/// The inner covering of a register, within a rectangle if there is one.
fn inner_of(
    alloc: Global,
    editor: &Editor,
    register: Register,
    level: Level,
    rect: Option<FaceRect>,
) -> Result<CellUnion, Refusal>
    ensures { Makes (inner_set (within rect (leaves_of editor.now.now register)) level) editor.now.limit result }
{
    let union = editor.register(register);
    match rect {
        None => covering_or_refusal(union_inner(alloc, union, level.number(), editor.limit())),
        Some(rect) => {
            let mut looks = Looks { count: 0 };
            let limit = editor.limit();
            covering_or_refusal(clip_inner(alloc, union, &rect, level.number(), limit, &mut looks))
        }
    }
}
