//! Changes of a union's list: cells are taken out of it and others put in.
//!
//! [`Merge`] walks along the list and the two lists of a change, and gives the changed list by runs and single cells.
//! [`Tail`] tells from the last three cells that it gave whether the next one may come after them.
ghost use Rattle.std.specs.Prelude.{◌≡◌, ◌≤◌, ◌<◌, ◌+◌, ◌-◌, ◌++◌, ◌↔◌};
ghost use Rattle.std.specs.Prelude.{[], length, take, drop, IfOk, IsTrue, Some, None};
ghost use Rattle.std.specs.List.Sorted.{IsStrictlyIncreasing};
ghost use Rattle.std.specs.Vec.{vec_len, vec_capacity};
ghost use Rattle.s2cell.specs.Cell.{IsCell};
ghost use Rattle.s2list.specs.Union.{IsLocal};
ghost use Rattle.s2union.specs.Apply.{applied, Fits};
ghost use Rattle.s2union.specs.Working.Merge.{IsTurn, IsHead, IsFrontOf, IsRest, Keeps};
ghost use Rattle.s2list.specs.Packed.{IsPacked};
ghost use Rattle.s2union.specs.Working.Tail.{Follows, Passes};

use crate::sets::extend_reserved;
use crate::union::CellUnion;
use s2cell::CellId;
use s2list::{CellList, find_id, parent_of_family};
use std::alloc::{AllocError, Global};
use std::cmp::Ordering;
use std::marker::Model;
use std::mem;

impl CellUnion {
    /// An empty union with room for `n` cells, which [`apply`](CellUnion::apply), [`splice`](CellUnion::splice),
    /// [`apply_into`](CellUnion::apply_into) and [`copy_from`](CellUnion::copy_from) may fill.
    ///
    /// Of the calls on changes this is the only one that takes memory: all that the room needs, at once.
    pub fn with_room(alloc: Global, n: usize) -> Result<CellUnion, AllocError>
        ensures cells { IfOk result (λ u. u.cells ≡ []) }
        ensures room { IfOk result (λ u. n ≤ u.room) }
    {
        let cells = Vec::with_capacity(alloc, n)?;
        Ok(CellUnion { cells })
    }

    /// Makes this union a copy of another, for whose list it must have room. Its room doesn't shrink.
    ///
    /// Copies the whole list, and drops what was there before. Takes no memory.
    pub fn copy_from(&mut self, other: &CellUnion)
        requires { length other.now.cells ≤ self.old.room }
        ensures cells { self.new.cells ≡ other.now.cells }
        ensures room { self.old.room ≤ self.new.room }
    {
        let _ = other.cells();
        self.cells.clear();
        extend_reserved(&mut self.cells, other.cells());
    }

    /// Whether the cells of `out` can be taken out of the list and those of `put` be put in: every cell
    /// of `out` is in the list, none of `put` is, and the result is normalized.
    ///
    /// Both given lists ascend by identifier. Searches for each of their cells, starting where the search before ended,
    /// so the cost of a small change is logarithmic in the length of the list. Takes no memory.
    pub fn can_apply(&self, out: &[CellId], put: &[CellId]) -> bool
        requires out_ascends { IsStrictlyIncreasing out.now }
        requires put_ascends { IsStrictlyIncreasing put.now }
        ensures { IsTrue result ↔ Fits out.now put.now self.now.cells }
    {
        fits_cells(self.cells(), out, put)
    }

    /// Takes the cells of `out` out of the list and puts those of `put` in, in the list's own room, for which it must
    /// have it. The spare list must have room for the changed list too.
    ///
    /// Searches for each cell of `out` and `put`. The part of the list from the first of them to the last is written
    /// anew in the spare list, whose own cells are dropped, and copied back; the cells after that part are moved once.
    /// Takes no memory.
    pub fn apply(&mut self, out: &[CellId], put: &[CellId], spare: &mut CellUnion)
        requires fits { Fits out.now put.now self.old.cells }
        requires room { length (applied out.now put.now self.old.cells) ≤ self.old.room }
        requires spare_room { length (applied out.now put.now self.old.cells) ≤ spare.old.room }
        ensures cells { self.new.cells ≡ applied out.now put.now self.old.cells }
        ensures room { self.old.room ≤ self.new.room }
        ensures spare_room { spare.old.room ≤ spare.new.room }
    {
        let _ = self.cells();
        let none = Vec::new(*self.cells.allocator());
        let mut list = mem::replace(&mut self.cells, none);
        let none = Vec::new(*spare.cells.allocator());
        let room = mem::replace(&mut spare.cells, none);
        let mut part = changed_part(room, &list, out, put);
        replace_part(&mut list, part.from, part.to, &part.cells);
        self.cells = list;
        part.cells.clear();
        spare.cells = part.cells;
    }

    /// Takes the cells from index `from` to before `to` out of the list and puts others in their place, in the list's
    /// own room. `from` must be at most `to`, and `to` at most the length of the list. The result must be normalized,
    /// and the list must have room for it.
    ///
    /// Looks at no cell, and moves the cells after them once. Takes no memory.
    pub fn splice(&mut self, from: usize, to: usize, put: &[CellId])
        requires order { (from ≤ to) × (to ≤ length self.old.cells) }
        requires local { IsLocal ((take from self.old.cells ++ put.now) ++ drop to self.old.cells) }
        requires room { length ((take from self.old.cells ++ put.now) ++ drop to self.old.cells) ≤ self.old.room }
        ensures cells { self.new.cells ≡ (take from self.old.cells ++ put.now) ++ drop to self.old.cells }
        ensures room { self.old.room ≤ self.new.room }
    {
        let none = Vec::new(*self.cells.allocator());
        let mut list = mem::replace(&mut self.cells, none);
        replace_part(&mut list, from, to, put);
        self.cells = list;
    }

    /// Writes this list without `out` and with `put` into another union, which must have room for it and keeps that
    /// room.
    ///
    /// Searches for each cell of `out` and `put`, and copies what lies between whole. Drops what `into` held before.
    /// Takes no memory.
    pub fn apply_into(&self, out: &[CellId], put: &[CellId], into: &mut CellUnion)
        requires fits { Fits out.now put.now self.now.cells }
        requires room { length (applied out.now put.now self.now.cells) ≤ into.old.room }
        ensures cells { into.new.cells ≡ applied out.now put.now self.now.cells }
        ensures room { into.new.room ≡ into.old.room }
    {
        let none = Vec::new(*into.cells.allocator());
        let room = mem::replace(&mut into.cells, none);
        into.cells = applied_in(room, self.cells(), out, put);
    }
}

/// What a change makes of the part of a list that it concerns.
#[derive(Drop)]
struct Part {
    /// How many cells of the list come before the part.
    from: usize,
    /// The index of the first cell after it.
    to: usize,
    /// The cells that take its place.
    cells: Vec<CellId>,
}

/// The part of the cells from the first that is taken out or comes after one put in, in the room of a list whose own
/// cells are dropped.
fn changed_part(room: Vec<CellId>, cells: &[CellId], out: &[CellId], put: &[CellId]) -> Part
    requires local { IsLocal cells.now }
    requires fits { Fits out.now put.now cells.now }
    requires room { length (applied out.now put.now cells.now) ≤ vec_capacity room }
    ensures whole { (take result.from cells.now ++ result.cells.items) ++ drop result.to cells.now
        ≡ applied out.now put.now cells.now }
    ensures order { (result.from ≤ result.to) × (result.to ≤ length cells.now) }
    ensures capacity { vec_capacity result.cells ≡ vec_capacity room }
{
    let mut list = room;
    list.clear();
    let mut merge = Merge::new(cells, out, put);
    let from = merge.run().len();
    loop {
        if merge.is_done() {
            let to = cells.len() - merge.cells.len();
            return Part {
                from,
                to,
                cells: list,
            };
        }
        let run = merge.run();
        list = with_cells(list, run);
        match merge.turn() {
            Turn::Write(cell) => list.push_reserved(cell),
            Turn::Skip => {}
            Turn::Misfit | Turn::End => {
                return Part {
                    from,
                    to: cells.len(),
                    cells: list,
                };
            }
        }
    }
}

/// Puts other cells in the place of a part of a list, which has room for them.
fn replace_part(list: &mut Vec<CellId>, from: usize, to: usize, part: &[CellId])
    requires order { (from ≤ to) × (to ≤ vec_len list.old) }
    requires room { from + length part.now + (vec_len list.old - to) ≤ vec_capacity list.old }
    ensures items { list.new.items ≡ (take from list.old.items ++ part.now) ++ drop to list.old.items }
    ensures room { vec_capacity list.old ≤ vec_capacity list.new }
{
    move_rest(list, from, to, part);
    list[from..from + part.len()].copy_from_slice(part);
}

/// Moves the cells after a part of a list to where they come after the cells that take its place.
fn move_rest(list: &mut Vec<CellId>, from: usize, to: usize, part: &[CellId])
    requires order { (from ≤ to) × (to ≤ vec_len list.old) }
    requires room { from + length part.now + (vec_len list.old - to) ≤ vec_capacity list.old }
    ensures len { vec_len list.new ≡ from + length part.now + (vec_len list.old - to) }
    ensures front { take from list.new.items ≡ take from list.old.items }
    ensures back { drop (from + length part.now) list.new.items ≡ drop to list.old.items }
    ensures room { vec_capacity list.old ≤ vec_capacity list.new }
{
    let end = from + part.len();
    if end < to {
        shrink(list, end, to);
    } else if to < end {
        grow(list, to, &part[..end - to]);
    }
}

/// Takes cells out of a list, those from index `from` to `to`.
fn shrink(list: &mut Vec<CellId>, from: usize, to: usize)
    requires order { from < to }
    requires within { to ≤ vec_len list.old }
    ensures items { list.new.items ≡ take from list.old.items ++ drop to list.old.items }
    ensures room { vec_capacity list.new ≡ vec_capacity list.old }
{
    let len = list.len();
    if to - from == 1 {
        move_down_by_one(&mut list[from..]);
        list.truncate(len - 1);
        return;
    }
    list.copy_within(to..len, from);
    list.truncate(from + (len - to));
}

/// Makes a list longer by the number of `more`, for which it has room: the cells from an index on are moved.
fn grow(list: &mut Vec<CellId>, at: usize, more: &[CellId])
    requires within { at ≤ vec_len list.old }
    requires room { vec_len list.old + length more.now ≤ vec_capacity list.old }
    ensures len { vec_len list.new ≡ vec_len list.old + length more.now }
    ensures front { take at list.new.items ≡ take at list.old.items }
    ensures back { drop (at + length more.now) list.new.items ≡ drop at list.old.items }
    ensures room { vec_capacity list.old ≤ vec_capacity list.new }
{
    let len = list.len();
    extend_reserved(list, more);
    if more.len() == 1 {
        move_up_by_one(&mut list[at..]);
    } else {
        list.copy_within(at..len, at + more.len());
    }
}

/// Moves all cells but the first down by one place. Alone, where LLVM sees the distance and makes this one `memmove`.
#[inline(never)]
fn move_down_by_one(cells: &mut [CellId])
    requires { 0 < length cells.old }
    ensures len { length cells.new ≡ length cells.old }
    ensures moved { take (length cells.old - 1) cells.new ≡ drop 1 cells.old }
{
    let n = cells.len();
    cells.copy_within(1..n, 0);
}

/// Moves all cells but the last up by one place, in the same way.
#[inline(never)]
fn move_up_by_one(cells: &mut [CellId])
    requires { 0 < length cells.old }
    ensures len { length cells.new ≡ length cells.old }
    ensures moved { drop 1 cells.new ≡ take (length cells.old - 1) cells.old }
{
    let n = cells.len();
    cells.copy_within(0..n - 1, 1);
}

/// The cells without `out` and with `put`, in the room of a list whose own cells are dropped.
///
/// The list is handed over and back: the copy of a run is several times as fast if the length of the list is the
/// function's own and not behind a reference.
fn applied_in(
    mut list: Vec<CellId>,
    cells: &[CellId],
    out: &[CellId],
    put: &[CellId],
) -> Vec<CellId>
    requires local { IsLocal cells.now }
    requires fits { Fits out.now put.now cells.now }
    requires room { length (applied out.now put.now cells.now) ≤ vec_capacity list }
    ensures items { result.items ≡ applied out.now put.now cells.now }
    ensures capacity { vec_capacity result ≡ vec_capacity list }
{
    list.clear();
    let mut merge = Merge::new(cells, out, put);
    loop {
        let run = merge.run();
        list = with_cells(list, run);
        match merge.turn() {
            Turn::Write(cell) => list.push_reserved(cell),
            Turn::Skip => {}
            Turn::Misfit | Turn::End => return list,
        }
    }
}

/// A list with cells after it, for which it has room, in the room that it has.
fn with_cells(mut list: Vec<CellId>, cells: &[CellId]) -> Vec<CellId>
    requires { vec_len list + length cells.now ≤ vec_capacity list }
    ensures items { result.items ≡ list.items ++ cells.now }
    ensures capacity { vec_capacity result ≡ vec_capacity list }
{
    for k in 0..cells.len() {
        list.push_reserved(cells[k]);
    }
    list
}

/// Whether the change fits the cells: the walk finds no misfit, and the cells that it gives are packed. Skips runs of
/// cells that stay.
fn fits_cells(cells: &[CellId], out: &[CellId], put: &[CellId]) -> bool
    requires local { IsLocal cells.now }
    requires out_ascends { IsStrictlyIncreasing out.now }
    requires put_ascends { IsStrictlyIncreasing put.now }
    ensures { IsTrue result ↔ Fits out.now put.now cells.now }
{
    let mut merge = Merge::new(cells, out, put);
    let mut tail = Tail::new();
    loop {
        let run = merge.run();
        if !tail.pass(run) {
            return false;
        }
        match merge.turn() {
            Turn::Write(cell) => {
                if !tail.takes(cell) {
                    return false;
                }
                tail.push(cell);
            }
            Turn::Skip => {}
            Turn::Misfit => return false,
            Turn::End => return true,
        }
    }
}

/// What is left of a list, of the cells to take out of it, and of those to put in.
#[derive(Drop)]
pub(crate) struct Merge<'a> {
    cells: &'a [CellId],
    out: &'a [CellId],
    put: &'a [CellId],
}

impl<'a> Model for Merge<'a> {
    ghost use Rattle.s2union.specs.Working.Merge.{Left, Ascend};

    ghost Value = { Left };

    ghost view = { λ m. record { out = m.out.now; put = m.put.now; cells = m.cells.now } };

    ghost invariant = { λ m. Ascend (record { out = m.out.now; put = m.put.now; cells = m.cells.now }) };
}

/// One step of the walk.
#[derive(Drop)]
pub(crate) enum Turn {
    /// The next cell of the changed list.
    Write(CellId),
    /// A cell that is taken out.
    Skip,
    /// The change does not fit the list.
    Misfit,
    /// The walk is at its end.
    End,
}

impl<'a> Merge<'a> {
    /// The walk from the beginning.
    pub(crate) fn new(cells: &'a [CellId], out: &'a [CellId], put: &'a [CellId]) -> Merge<'a>
        requires cells_packed { IsPacked cells.now }
        requires out_ascends { IsStrictlyIncreasing out.now }
        requires put_ascends { IsStrictlyIncreasing put.now }
        ensures { result ≡ record { out = out.now; put = put.now; cells = cells.now } }
    {
        Merge { cells, out, put }
    }

    /// Whether all cells are taken out and put in.
    pub(crate) fn is_done(&self) -> bool
        ensures { IsTrue result ↔ ((self.now.out ≡ []) × (self.now.put ≡ [])) }
    {
        self.out.is_empty() && self.put.is_empty()
    }

    /// The cells of the list before the next one that is taken out or put in, which stay. The walk goes on after them.
    /// Logarithmic in how many they are.
    pub(crate) fn run(&mut self) -> &'a [CellId]
        ensures keeps { Keeps result.now self.old self.new }
        ensures front { take (length result.now) self.old.cells ≡ result.now }
        ensures rest { IsRest self.new.cells self.old.cells }
        ensures packed { IsPacked result.now }
        ensures len { length result.now + length self.new.cells ≡ length self.old.cells }
    {
        let next = first_id(self.out).min(first_id(self.put));
        let cells = self.cells;
        let at = find_id(&CellList { cells }, next);
        self.cells = &cells[at..];
        &cells[..at]
    }

    /// The step if no cell of the list is left.
    fn turn_after_cells(&mut self) -> Turn
        requires { self.old.cells ≡ [] }
        ensures turn { IsTurn result self.old self.new }
        ensures rest { IsRest self.new.cells self.old.cells }
    {
        if let Some((&put, rest)) = self.put.split_first() {
            self.put = rest;
            return Turn::Write(put);
        }
        if !self.out.is_empty() {
            return Turn::Misfit;
        }
        Turn::End
    }

    /// Takes one step. After a run it's one by a cell of the change.
    pub(crate) fn turn(&mut self) -> Turn
        ensures turn { IsTurn result self.old self.new }
        ensures rest { IsRest self.new.cells self.old.cells }
    {
        if self.cells.is_empty() {
            return self.turn_after_cells();
        }
        let cell = self.cells[0];
        match head_order(self.put, cell) {
            Ordering::Less => {
                let put = self.put[0];
                self.put = &self.put[1..];
                Turn::Write(put)
            }
            Ordering::Equal => Turn::Misfit,
            Ordering::Greater => match head_order(self.out, cell) {
                Ordering::Less => Turn::Misfit,
                Ordering::Equal => {
                    self.out = &self.out[1..];
                    self.cells = &self.cells[1..];
                    Turn::Skip
                }
                Ordering::Greater => {
                    self.cells = &self.cells[1..];
                    Turn::Write(cell)
                }
            },
        }
    }
}

/// How the first cell of a list compares to the cell; an empty list compares as greater.
fn head_order(list: &[CellId], cell: CellId) -> Ordering
    ensures { IsHead result list.now cell }
{
    match list.first() {
        Some(first) => first.cmp(&cell),
        None => Ordering::Greater,
    }
}

/// The identifier of the first cell of a list, or a number above every cell if the list is empty.
fn first_id(list: &[CellId]) -> u64
    ensures { IsFrontOf result list.now }
{
    match list.first() {
        Some(first) => first.id(),
        None => u64::MAX,
    }
}

/// The last three of the cells that were passed, or fewer if there were fewer. The next cell can share leaves or make a
/// family only with these.
#[derive(Drop)]
pub(crate) struct Tail {
    last: Option<CellId>,
    second: Option<CellId>,
    third: Option<CellId>,
}

impl Tail {
    /// The tail before any cell was passed.
    pub(crate) fn new() -> Tail
        ensures { result ≡ record { last = None; second = None; third = None } }
    {
        Tail {
            last: None,
            second: None,
            third: None,
        }
    }

    /// Whether the cell may come next.
    pub(crate) fn takes(&self, cell: CellId) -> bool
        ensures exact { IsTrue result ↔ Follows self.now cell }
        ensures is_cell { IsCell cell }
    {
        let _ = cell.id();
        let Some(last) = self.last else {
            return true;
        };
        if cell.range_min() <= last.range_max() {
            return false;
        }
        let Some(second) = self.second else {
            return true;
        };
        let Some(third) = self.third else {
            return true;
        };
        match parent_of_family(third.id(), second.id(), last.id(), cell) {
            Some(_) => false,
            None => true,
        }
    }

    /// Whether the cells of a run of a list may come next, one after another; if so, they are passed. Only the first
    /// three of them can share leaves or make a family with those before; the others follow each other as in the list.
    pub(crate) fn pass(&mut self, run: &[CellId]) -> bool
        requires { IsPacked run.now }
        ensures { Passes (IsTrue result) self.old self.new run.now }
    {
        let len = run.len();
        for k in 0..len.min(3) {
            let cell = run[k];
            if !self.takes(cell) {
                return false;
            }
            self.push(cell);
        }
        if len > 3 {
            self.push(run[len - 3]);
            self.push(run[len - 2]);
            self.push(run[len - 1]);
        }
        true
    }

    /// Passes the cell.
    pub(crate) fn push(&mut self, cell: CellId)
        ensures { self.new ≡ record { last = Some cell; second = self.old.last; third = self.old.second } }
    {
        self.third = self.second;
        self.second = self.last;
        self.last = Some(cell);
    }
}
