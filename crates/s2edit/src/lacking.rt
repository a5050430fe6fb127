//! How two ascending lists of cells differ.
ghost use Rattle.std.specs.Prelude.{◌≡◌, ◌≢◌, ◌≤◌, ◌<◌, ◌+◌, ◌-◌, ◌++◌, IfOk, length, take, drop, slice_index};
ghost use Rattle.std.specs.Vec.{vec_len};
ghost use Rattle.std.specs.List.Sorted.{IsStrictlyIncreasing};
ghost use Rattle.s2union.specs.Apply.{cells_without};

use s2cell::CellId;
use std::alloc::{AllocError, Global};

/// Beside a list of this many times its cells, a list is walked along by leaps in the longer one.
const LEAP_RATIO: usize = 16;

/// The cells of `old` that `new` lacks, and those of `new` that `old` lacks. The two lists have exactly the room that
/// they need. The second may be written over a list that is given, if that is long enough.
///
/// Skips what both lists begin with and what both end with. If one list is much longer, a walk leaps over its cells,
/// and is logarithmic in how many lie between two of the other.
pub(crate) fn unshared_cells(
    alloc: Global,
    old: &[CellId],
    new: &[CellId],
    put: Vec<CellId>,
) -> Result<(Vec<CellId>, Vec<CellId>), AllocError>
    requires old_ascends { IsStrictlyIncreasing old.now }
    requires new_ascends { IsStrictlyIncreasing new.now }
    ensures out { IfOk result (λ lists. lists.0.items ≡ cells_without old.now new.now) }
    ensures put { IfOk result (λ lists. lists.1.items ≡ cells_without new.now old.now) }
{
    let front = same_front(old, new);
    let old = &old[front..];
    let new = &new[front..];
    let back = same_back(old, new);
    unshared_by_a_walk(
        alloc,
        &old[..old.len() - back],
        &new[..new.len() - back],
        put,
    )
}

/// How many cells at the front of both lists are the same.
fn same_front(us: &[CellId], vs: &[CellId]) -> usize
    ensures within { (result ≤ length us.now) × (result ≤ length vs.now) }
    ensures same { take result us.now ≡ take result vs.now }
    ensures differ { result < length us.now → result < length vs.now →
        slice_index us.now result ≢ slice_index vs.now result }
{
    let most = us.len().min(vs.len());
    for i in 0..most {
        if us[i] != vs[i] {
            return i;
        }
    }
    most
}

/// How many cells at the end of both lists are the same.
fn same_back(us: &[CellId], vs: &[CellId]) -> usize
    ensures within { (result ≤ length us.now) × (result ≤ length vs.now) }
    ensures same { drop (length us.now - result) us.now ≡ drop (length vs.now - result) vs.now }
    ensures differ { result < length us.now → result < length vs.now →
        slice_index us.now (length us.now - result - 1) ≢ slice_index vs.now (length vs.now - result - 1) }
{
    let most = us.len().min(vs.len());
    for i in 0..most {
        if us[us.len() - i - 1] != vs[vs.len() - i - 1] {
            return i;
        }
    }
    most
}

/// Whether one of the lists is much longer than the other.
fn differ_much(us: &[CellId], vs: &[CellId]) -> bool {
    us.len() / LEAP_RATIO > vs.len() || vs.len() / LEAP_RATIO > us.len()
}

/// The same as `unshared_cells`, by a walk along both lists.
fn unshared_by_a_walk(
    alloc: Global,
    old: &[CellId],
    new: &[CellId],
    put: Vec<CellId>,
) -> Result<(Vec<CellId>, Vec<CellId>), AllocError>
    requires old_ascends { IsStrictlyIncreasing old.now }
    requires new_ascends { IsStrictlyIncreasing new.now }
    ensures out { IfOk result (λ lists. lists.0.items ≡ cells_without old.now new.now) }
    ensures put { IfOk result (λ lists. lists.1.items ≡ cells_without new.now old.now) }
{
    if differ_much(old, new) {
        return unshared_by_leaps(alloc, old, new);
    }
    if put.len() < new.len() {
        return unshared_by_steps(alloc, old, new, Vec::from_slice(alloc, new)?);
    }
    unshared_by_steps(alloc, old, new, put)
}

/// The same by steps. Each cell is written, over a copy of `old` and over `put`, and the place for the next one goes on
/// if only one list has it: sums in place of branches, which the processor would guess wrong half of the time.
fn unshared_by_steps(
    alloc: Global,
    old: &[CellId],
    new: &[CellId],
    mut put: Vec<CellId>,
) -> Result<(Vec<CellId>, Vec<CellId>), AllocError>
    requires old_ascends { IsStrictlyIncreasing old.now }
    requires new_ascends { IsStrictlyIncreasing new.now }
    requires long { length new.now ≤ vec_len put }
    ensures out { IfOk result (λ lists. lists.0.items ≡ cells_without old.now new.now) }
    ensures put { IfOk result (λ lists. lists.1.items ≡ cells_without new.now old.now) }
{
    let mut out = Vec::from_slice(alloc, old)?;
    let mut lost = 0;
    let mut won = 0;
    let mut i = 0;
    let mut j = 0;
    while i < old.len() && j < new.len() {
        let u = old[i];
        let v = new[j];
        out[lost] = u;
        put[won] = v;
        let is_below = u < v;
        let is_above = v < u;
        lost += is_below as usize;
        won += is_above as usize;
        i += !is_above as usize;
        j += !is_below as usize;
    }
    let out = with_rest(alloc, out, lost, &old[i..])?;
    let put = with_rest(alloc, put, won, &new[j..])?;
    Ok((out, put))
}

/// The cells of a list before an index and then others, for which it is long enough, in exactly the room that they
/// need. If that isn't the list's own, they are copied: a block that is cut where it lies leaves a hole behind it, in
/// which the next list of that length has no place.
fn with_rest(
    alloc: Global,
    mut list: Vec<CellId>,
    at: usize,
    rest: &[CellId],
) -> Result<Vec<CellId>, AllocError>
    requires { at + length rest.now ≤ vec_len list }
    ensures { IfOk result (λ v. v.items ≡ take at list.items ++ rest.now) }
{
    let end = at + rest.len();
    list.truncate(end);
    list[at..end].copy_from_slice(rest);
    if end == list.capacity() {
        return Ok(list);
    }
    Vec::from_slice(alloc, &list)
}

/// The same by leaps, once to count and once for the runs of cells that only one list has.
fn unshared_by_leaps(
    alloc: Global,
    old: &[CellId],
    new: &[CellId],
) -> Result<(Vec<CellId>, Vec<CellId>), AllocError>
    requires old_ascends { IsStrictlyIncreasing old.now }
    requires new_ascends { IsStrictlyIncreasing new.now }
    ensures out { IfOk result (λ lists. lists.0.items ≡ cells_without old.now new.now) }
    ensures put { IfOk result (λ lists. lists.1.items ≡ cells_without new.now old.now) }
{
    let lost = count_by_leaps(old, new);
    let shared = old.len() - lost;
    let won = new.len() - shared;
    let mut out = Vec::with_capacity(alloc, lost)?;
    let mut put = Vec::with_capacity(alloc, won)?;
    let mut i = 0;
    let mut j = 0;
    while i < old.len() && j < new.len() {
        if old[i] == new[j] {
            i += 1;
            j += 1;
        } else {
            let (next_i, next_j) = leap(old, new, i, j);
            out.extend_from_slice(&old[i..next_i])?;
            put.extend_from_slice(&new[j..next_j])?;
            i = next_i;
            j = next_j;
        }
    }
    out.extend_from_slice(&old[i..])?;
    put.extend_from_slice(&new[j..])?;
    Ok((out, put))
}

/// How many cells of a list another one lacks, by leaps.
fn count_by_leaps(us: &[CellId], others: &[CellId]) -> usize
    requires ascends { IsStrictlyIncreasing us.now }
    requires others_ascend { IsStrictlyIncreasing others.now }
    ensures { result ≡ length (cells_without us.now others.now) }
{
    let mut count = 0;
    let mut i = 0;
    let mut j = 0;
    while i < us.len() && j < others.len() {
        if us[i] == others[j] {
            i += 1;
            j += 1;
        } else {
            let (next_i, next_j) = leap(us, others, i, j);
            count += next_i - i;
            i = next_i;
            j = next_j;
        }
    }
    count + (us.len() - i)
}

/// The indexes after the cells of one list that are below the next one of the other.
fn leap(us: &[CellId], vs: &[CellId], i: usize, j: usize) -> (usize, usize)
    requires us_ascend { IsStrictlyIncreasing us.now }
    requires vs_ascend { IsStrictlyIncreasing vs.now }
    requires in_us { i < length us.now }
    requires in_vs { j < length vs.now }
    requires differ { slice_index us.now i ≢ slice_index vs.now j }
    ensures in_us { (i ≤ result.0) × (result.0 ≤ length us.now) }
    ensures in_vs { (j ≤ result.1) × (result.1 ≤ length vs.now) }
    ensures further { i + j < result.0 + result.1 }
    ensures us { take (result.0 - i) (drop i us.now) ++ cells_without (drop result.0 us.now) (drop result.1 vs.now)
        ≡ cells_without (drop i us.now) (drop j vs.now) }
    ensures vs { take (result.1 - j) (drop j vs.now) ++ cells_without (drop result.1 vs.now) (drop result.0 us.now)
        ≡ cells_without (drop j vs.now) (drop i us.now) }
{
    let u = us[i];
    let v = vs[j];
    let is_below = u < v;
    if is_below {
        return (leap_below(us, i, v), j);
    }
    (i, leap_below(vs, j, u))
}

/// An index after `at` up to which the cells of an ascending list are below a mark, as the one at `at` is. Each leap is
/// twice as long as the one before it, as long as it doesn't pass the mark, and then half as long.
fn leap_below(cells: &[CellId], at: usize, mark: CellId) -> usize
    requires within { at < length cells.now }
    requires below { slice_index cells.now at < mark }
    ensures further { at < result }
    ensures within { result ≤ length cells.now }
    ensures below { slice_index cells.now (result - 1) < mark }
{
    let mut last = at;
    let mut leap = 1;
    while leap < cells.len() - last && cells[last + leap] < mark {
        last += leap;
        leap = leap.saturating_mul(2);
    }
    while leap > 0 {
        if leap < cells.len() - last && cells[last + leap] < mark {
            last += leap;
        }
        leap /= 2;
    }
    last + 1
}
