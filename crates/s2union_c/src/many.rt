//! Many questions about one union, where it lies, as in `questions`.
ghost use Rattle.std.specs.Prelude.{◌≡◌, ◌+◌, ◌<◌, ◌≤◌, ℕ, IsTrue, All, List, length, drop, slice_index};
ghost use Rattle.s2cell.specs.Cell.{IsCell, covers, first_leaf};
ghost use Rattle.s2list.specs.Union.{IsLocal, IsWithin, ShareSome, has_leaf};
ghost use Rattle.s2list.specs.Packed.{IsPlace};
ghost use Rattle.s2list.specs.Search.{Brackets, IsFirstWrong};
ghost use Rattle.s2list.specs.Gaps.{IsGap};
ghost use Rattle.s2list.specs.Working.Walk.{Holds};
ghost use Rattle.s2union_c.specs.Status.{IsBit, made, no_cell, no_room};

use crate::status::{MADE, NO_CELL, NO_ROOM};
use s2cell::CellId;
use s2list::{
    Cells, Gap, IdList, NEARBY, Question, cell_of, contains_cell_at, contains_in_gap, first_wrong,
    gap_among_few, gap_at, gap_of, intersects_cell_at, intersects_in_gap, lies_in_gap,
    places_of_four,
};

/// How many cells a union has at most in which each question is a search of its own.
const FEW: usize = 128;

/// Whether a union has all leaves of each cell in turn: 1 or 0 for each. `bad` is the index of the first number that is
/// not a cell, or if there is none, how many answers there are. A search begins at the index of the one before, so
/// cells in order are quick; cells whose indexes are far apart are searched four at once, and in a union of few cells
/// each alone.
#[unsafe(no_mangle)]
pub extern "C" fn s2u_contains_cells(
    ids: &[u64],
    cells: &[u64],
    answers: &mut [u8],
    bad: &mut usize,
) -> i32
    ensures made { All IsCell cells.now → length cells.now ≤ length answers.old
        → (result ≡ made) × (bad.new ≡ length cells.now) }
    ensures exact { IsLocal ids.now → All IsCell cells.now → length cells.now ≤ length answers.old
        → (k : ℕ) → k < length cells.now
        → IsBit (slice_index answers.new k) (IsWithin (covers (slice_index cells.now k)) (has_leaf ids.now)) }
    ensures bits { All IsCell cells.now → length cells.now ≤ length answers.old
        → (k : ℕ) → k < length cells.now → slice_index answers.new k ≤ 1 }
    ensures rest { drop (length cells.now) answers.new ≡ drop (length cells.now) answers.old }
    ensures no_cell { (All IsCell cells.now → ⊥) → (result ≡ no_cell) × IsFirstWrong cells.now bad.new
        × (answers.new ≡ answers.old) }
    ensures room { All IsCell cells.now → length answers.old < length cells.now
        → (result ≡ no_room) × (bad.new ≡ length cells.now) × (answers.new ≡ answers.old) }
{
    answer_cells(Question::Contains, &IdList { ids }, cells, answers, bad)
}

/// Whether a union has a leaf of each cell in turn: 1 or 0 for each. `bad` is as in `s2u_contains_cells`.
#[unsafe(no_mangle)]
pub extern "C" fn s2u_intersects_cells(
    ids: &[u64],
    cells: &[u64],
    answers: &mut [u8],
    bad: &mut usize,
) -> i32
    ensures made { All IsCell cells.now → length cells.now ≤ length answers.old
        → (result ≡ made) × (bad.new ≡ length cells.now) }
    ensures exact { IsLocal ids.now → All IsCell cells.now → length cells.now ≤ length answers.old
        → (k : ℕ) → k < length cells.now
        → IsBit (slice_index answers.new k) (ShareSome (covers (slice_index cells.now k)) (has_leaf ids.now)) }
    ensures bits { All IsCell cells.now → length cells.now ≤ length answers.old
        → (k : ℕ) → k < length cells.now → slice_index answers.new k ≤ 1 }
    ensures rest { drop (length cells.now) answers.new ≡ drop (length cells.now) answers.old }
    ensures no_cell { (All IsCell cells.now → ⊥) → (result ≡ no_cell) × IsFirstWrong cells.now bad.new
        × (answers.new ≡ answers.old) }
    ensures room { All IsCell cells.now → length answers.old < length cells.now
        → (result ≡ no_room) × (bad.new ≡ length cells.now) × (answers.new ≡ answers.old) }
{
    answer_cells(Question::Intersects, &IdList { ids }, cells, answers, bad)
}

/// Answers the question about each cell in turn, if all of them are cells and there is room.
pub(crate) fn answer_cells<C: Cells>(
    question: Question,
    ids: &C,
    cells: &[u64],
    answers: &mut [u8],
    bad: &mut usize,
) -> i32
    ensures made { All IsCell cells.now → length cells.now ≤ length answers.old
        → (result ≡ made) × (bad.new ≡ length cells.now) }
    ensures exact { IsLocal (C.ids ids.now) → All IsCell cells.now → length cells.now ≤ length answers.old
        → (k : ℕ) → k < length cells.now
        → IsBit (slice_index answers.new k) (Holds question (C.ids ids.now) (slice_index cells.now k)) }
    ensures bits { All IsCell cells.now → length cells.now ≤ length answers.old
        → (k : ℕ) → k < length cells.now → slice_index answers.new k ≤ 1 }
    ensures rest { drop (length cells.now) answers.new ≡ drop (length cells.now) answers.old }
    ensures no_cell { (All IsCell cells.now → ⊥) → (result ≡ no_cell) × IsFirstWrong cells.now bad.new
        × (answers.new ≡ answers.old) }
    ensures room { All IsCell cells.now → length answers.old < length cells.now
        → (result ≡ no_room) × (bad.new ≡ length cells.now) × (answers.new ≡ answers.old) }
{
    if let Some(k) = first_wrong(&IdList { ids: cells }) {
        *bad = k;
        return NO_CELL;
    }
    *bad = cells.len();
    if cells.len() > answers.len() {
        return NO_ROOM;
    }
    answer_each(question, ids, cells, answers);
    MADE
}

/// Answers the question about each cell. Eight cells whose numbers lie in one gap of the list are answered together.
/// Otherwise each of the eight is searched alone, with no branch on what is found, if the list has few cells. In a
/// longer list the search for a cell begins at the last index; but if the last two were far apart, the next four cells
/// are searched at once.
fn answer_each<C: Cells>(question: Question, ids: &C, cells: &[u64], answers: &mut [u8])
    requires cells { All IsCell cells.now }
    requires room { length cells.now ≤ length answers.old }
    ensures exact { IsLocal (C.ids ids.now) → (k : ℕ) → k < length cells.now
        → IsBit (slice_index answers.new k) (Holds question (C.ids ids.now) (slice_index cells.now k)) }
    ensures bits { (k : ℕ) → k < length cells.now → slice_index answers.new k ≤ 1 }
    ensures rest { drop (length cells.now) answers.new ≡ drop (length cells.now) answers.old }
{
    let few = ids.len() <= FEW;
    let mut gap = gap_at(ids, 0);
    let mut apart = false;
    let mut k = 0;
    while k < cells.len() {
        if apart && cells.len() - k >= 4 {
            let (third, fourth) = answer_four(question, ids, cells, k, answers);
            apart = third.abs_diff(fourth) > NEARBY;
            if !apart {
                gap = gap_at(ids, fourth);
            }
            k += 4;
        } else if eight_lie_in(gap, cells, k) {
            answer_eight(question, ids, gap, cells, k, answers);
            k += 8;
        } else if few {
            let stop = k + (cells.len() - k).min(8);
            gap = answer_among_few(question, ids, cells, k, stop, answers);
            k = stop;
        } else {
            let id = cells[k];
            let next = gap_of(ids, gap, id);
            answers[k] = bit_in(question, next, id);
            apart = gap.at.abs_diff(next.at) > NEARBY;
            gap = next;
            k += 1;
        }
    }
}

/// Answers the question about the cells from index `k` to before `stop`, each by a search in the whole list. The last
/// gap in which a number lies.
fn answer_among_few<C: Cells>(
    question: Question,
    ids: &C,
    cells: &[u64],
    k: usize,
    stop: usize,
    answers: &mut [u8],
) -> Gap
    requires cells { All IsCell cells.now }
    requires order { k ≤ stop }
    requires there { stop ≤ length cells.now }
    requires room { length cells.now ≤ length answers.old }
    ensures gap { IsGap (C.ids ids.now) result }
    ensures length { length answers.new ≡ length answers.old }
    ensures exact { IsLocal (C.ids ids.now)
        → ((i : ℕ) → i < k
        → IsBit (slice_index answers.old i) (Holds question (C.ids ids.now) (slice_index cells.now i)))
        → (i : ℕ) → i < stop
        → IsBit (slice_index answers.new i) (Holds question (C.ids ids.now) (slice_index cells.now i)) }
    ensures bits { ((i : ℕ) → i < k → slice_index answers.old i ≤ 1)
        → (i : ℕ) → i < stop → slice_index answers.new i ≤ 1 }
    ensures rest { drop (length cells.now) answers.new ≡ drop (length cells.now) answers.old }
{
    let mut gap = gap_at(ids, 0);
    for i in k..stop {
        gap = gap_among_few(ids, cells[i]);
        answers[i] = bit_in(question, gap, cells[i]);
    }
    gap
}

/// Whether there are eight numbers from index `k` on, and all of them lie in the gap. The first and the last are looked
/// at first, and together.
#[inline(always)]
fn eight_lie_in(gap: Gap, cells: &[u64], k: usize) -> bool
    requires { k ≤ length cells.now }
    ensures room { IsTrue result → k + 8 ≤ length cells.now }
    ensures there { IsTrue result → (u : List ℕ) → IsGap u gap → IsLocal u → (i : ℕ) → k ≤ i → i < k + 8
        → Brackets u (slice_index cells.now i) gap.at gap.at }
{
    if cells.len() - k < 8 {
        return false;
    }
    if (cells[k] <= gap.below) | (cells[k + 7] > gap.ahead) {
        return false;
    }
    let mut all = true;
    for i in k..k + 8 {
        all = all & lies_in_gap(gap, cells[i]);
    }
    all
}

/// Answers the question about the eight cells from index `k` on, whose numbers lie in the gap.
#[inline(always)]
fn answer_eight<C: Cells>(
    question: Question,
    ids: &C,
    gap: Gap,
    cells: &[u64],
    k: usize,
    answers: &mut [u8],
)
    requires cells { All IsCell cells.now }
    requires there { k + 8 ≤ length cells.now }
    requires room { length cells.now ≤ length answers.old }
    requires gap { IsGap (C.ids ids.now) gap }
    requires within { IsLocal (C.ids ids.now) → (i : ℕ) → k ≤ i → i < k + 8
        → Brackets (C.ids ids.now) (slice_index cells.now i) gap.at gap.at }
    ensures length { length answers.new ≡ length answers.old }
    ensures exact { IsLocal (C.ids ids.now)
        → ((i : ℕ) → i < k
        → IsBit (slice_index answers.old i) (Holds question (C.ids ids.now) (slice_index cells.now i)))
        → (i : ℕ) → i < k + 8
        → IsBit (slice_index answers.new i) (Holds question (C.ids ids.now) (slice_index cells.now i)) }
    ensures bits { ((i : ℕ) → i < k → slice_index answers.old i ≤ 1)
        → (i : ℕ) → i < k + 8 → slice_index answers.new i ≤ 1 }
    ensures rest { drop (length cells.now) answers.new ≡ drop (length cells.now) answers.old }
{
    for i in k..k + 8 {
        answers[i] = bit_in(question, gap, cells[i]);
    }
}

/// The answer about a cell, once the gap is known in which its number lies: 1 or 0.
#[inline(always)]
fn bit_in(question: Question, gap: Gap, id: u64) -> u8
    ensures exact { (u : List ℕ) → IsGap u gap → IsLocal u → IsCell id → Brackets u id gap.at gap.at
        → IsBit result (Holds question u id) }
    ensures bit { result ≤ 1 }
{
    let holds = match question {
        Question::Contains => contains_in_gap(gap, id),
        Question::Intersects => intersects_in_gap(gap, id),
    };
    if holds { 1 } else { 0 }
}

/// Answers the question about the four cells from index `k` on, whose indexes in the union are searched at once. The
/// last two of these indexes.
fn answer_four<C: Cells>(
    question: Question,
    ids: &C,
    cells: &[u64],
    k: usize,
    answers: &mut [u8],
) -> (usize, usize)
    requires cells { All IsCell cells.now }
    requires there { k + 4 ≤ length cells.now }
    requires room { length cells.now ≤ length answers.old }
    ensures length { length answers.new ≡ length answers.old }
    ensures exact { IsLocal (C.ids ids.now)
        → ((i : ℕ) → i < k
        → IsBit (slice_index answers.old i) (Holds question (C.ids ids.now) (slice_index cells.now i)))
        → (i : ℕ) → i < k + 4
        → IsBit (slice_index answers.new i) (Holds question (C.ids ids.now) (slice_index cells.now i)) }
    ensures bits { ((i : ℕ) → i < k → slice_index answers.old i ≤ 1)
        → (i : ℕ) → i < k + 4 → slice_index answers.new i ≤ 1 }
    ensures rest { drop (length cells.now) answers.new ≡ drop (length cells.now) answers.old }
{
    let first = cell_of(cells[k]);
    let second = cell_of(cells[k + 1]);
    let third = cell_of(cells[k + 2]);
    let fourth = cell_of(cells[k + 3]);
    let places = places_of_four(ids, first, second, third, fourth);
    answers[k] = bit(question, ids, places.first, first);
    answers[k + 1] = bit(question, ids, places.second, second);
    answers[k + 2] = bit(question, ids, places.third, third);
    answers[k + 3] = bit(question, ids, places.fourth, fourth);
    (places.third, places.fourth)
}

/// The answer about a cell, once its index in the union is known: 1 or 0.
fn bit<C: Cells>(question: Question, ids: &C, at: usize, cell: CellId) -> u8
    ensures exact { IsLocal (C.ids ids.now) → IsPlace (C.ids ids.now) (first_leaf cell) at
        → IsBit result (Holds question (C.ids ids.now) cell) }
    ensures bit { result ≤ 1 }
{
    let holds = match question {
        Question::Contains => contains_cell_at(ids, at, cell),
        Question::Intersects => intersects_cell_at(ids, at, cell),
    };
    if holds { 1 } else { 0 }
}
