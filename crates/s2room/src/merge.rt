//! The union of many lists of cells, which are merged in pairs, and then normalized.
ghost use Rattle.std.specs.Prelude.{◌≡◌, ◌+◌, ◌*◌, ◌<◌, ◌≤◌, ◌++◌, All, length, take};
ghost use Rattle.std.specs.List.Sorted.{IsPermutation};
ghost use Rattle.s2cell.specs.Cell.{IsCell};
ghost use Rattle.s2list.specs.Union.{IsNormalForm, has_leaf};
ghost use Rattle.s2room.specs.Working.Merging.{IsMerging};

use crate::normalising::normalise;

/// Lists that have fewer cells than this in the mean are sorted together, which takes less time than to merge them.
const MERGED_CELLS: usize = 32;

/// How often lists are parted at most, and their parts again. Ends that ascend halve the cells every second time.
const PARTINGS: u32 = 130;

/// How many numbers are copied at once, if all of them come next.
const COPIED_AT_ONCE: usize = 8;

/// What is left of two lists: one from `x` to before `x_end`, the other from `y` to before `y_end`.
#[derive(Clone, Copy)]
struct Left {
    x: usize,
    x_end: usize,
    y: usize,
    y_end: usize,
}

/// Puts the union that has the leaves of all the cells `ids` at the front of a room, and answers how many cells it has.
/// `ends` says where lists in `ids` end that ascend, each of which begins where the one before ends. They are merged
/// in pairs, and the merged lists again, by way of a spare room. A list that does not ascend is sorted first, and short
/// lists together. Wrong ends cost time, and change nothing else. The rooms' other numbers have no meaning.
pub fn union_of_many(ids: &[u64], ends: &[usize], room: &mut [u64], spare: &mut [u64]) -> usize
    requires cells { All IsCell ids.now }
    requires room { length room.old ≡ length ids.now }
    requires spare { length spare.old ≡ length ids.now }
    ensures within { result ≤ length ids.now }
    ensures len { length room.new ≡ length room.old }
    ensures normal { IsNormalForm (has_leaf ids.now) (take result room.new) }
{
    gather(ids, 0, ends, PARTINGS, room, spare);
    normalise(room)
}

/// Puts the numbers of lists, which end at `ends` beyond `base`, into a room, in order. They are parted where about as
/// many numbers lie on either side, so one long list among short ones is merged once or twice.
fn gather(
    ids: &[u64],
    base: usize,
    ends: &[usize],
    partings: u32,
    room: &mut [u64],
    spare: &mut [u64],
)
    requires room { length room.old ≡ length ids.now }
    requires spare { length spare.old ≡ length ids.now }
    ensures len { length room.new ≡ length room.old }
    ensures spare { length spare.new ≡ length spare.old }
    ensures all { IsPermutation ids.now room.new }
{
    if ends.len() < 2 || ids.len() / MERGED_CELLS < ends.len() || partings == 0 {
        room.copy_from_slice(ids);
        room.sort_unstable();
        return;
    }
    let first = lists_before(ends, base.saturating_add(ids.len() / 2));
    let (front_ends, back_ends) = ends.split_at(first.max(1).min(ends.len() - 1));
    let cut = front_ends[front_ends.len() - 1]
        .saturating_sub(base)
        .min(ids.len());
    let (front, back) = ids.split_at(cut);
    let (room_front, room_back) = room.split_at_mut(cut);
    let (spare_front, spare_back) = spare.split_at_mut(cut);
    gather(
        front,
        base,
        front_ends,
        partings - 1,
        spare_front,
        room_front,
    );
    gather(
        back,
        base.saturating_add(cut),
        back_ends,
        partings - 1,
        spare_back,
        room_back,
    );
    merge(spare_front, spare_back, room);
}

/// How many of the first ends are at most `middle`.
fn lists_before(ends: &[usize], middle: usize) -> usize
    ensures { result ≤ length ends.now }
{
    let mut k = 0;
    while k < ends.len() && ends[k] <= middle {
        k += 1;
    }
    k
}

/// Puts the numbers of two lists into a room, in order if both are. It is filled from both ends at once, since each
/// number has to wait for the one before. Where the next numbers of a list all come before those of the other, they are
/// copied.
fn merge(xs: &[u64], ys: &[u64], out: &mut [u64])
    requires room { length out.old ≡ length xs.now + length ys.now }
    ensures len { length out.new ≡ length out.old }
    ensures all { IsPermutation (xs.now ++ ys.now) out.new }
{
    let mut left = Left {
        x: 0,
        x_end: xs.len(),
        y: 0,
        y_end: ys.len(),
    };
    while left.x_end - left.x >= 2 * COPIED_AT_ONCE && left.y_end - left.y >= 2 * COPIED_AT_ONCE {
        if xs[left.x + COPIED_AT_ONCE - 1] <= ys[left.y] {
            left = put_x(xs, ys, COPIED_AT_ONCE, left, out);
        } else if ys[left.y + COPIED_AT_ONCE - 1] <= xs[left.x] {
            left = put_y(xs, ys, COPIED_AT_ONCE, left, out);
        } else {
            left = put_both(xs, ys, left, out);
        }
    }
    while left.x < left.x_end && left.y < left.y_end {
        left = put_least(xs, ys, left, out);
    }
    left = put_x(xs, ys, left.x_end - left.x, left, out);
    put_y(xs, ys, left.y_end - left.y, left, out);
}

/// Puts the next `n` numbers of `xs` into the room.
#[inline(always)]
fn put_x(xs: &[u64], ys: &[u64], n: usize, left: Left, out: &mut [u64]) -> Left
    requires merging { IsMerging xs.now ys.now out.old left }
    requires some { left.x + n ≤ left.x_end }
    ensures merging { IsMerging xs.now ys.now out.new result }
    ensures x { result.x ≡ left.x + n }
    ensures x_end { result.x_end ≡ left.x_end }
    ensures y { result.y ≡ left.y }
    ensures y_end { result.y_end ≡ left.y_end }
{
    let at = left.x + left.y;
    out[at..at + n].copy_from_slice(&xs[left.x..left.x + n]);
    Left {
        x: left.x + n,
        ..left
    }
}

/// Puts the next `n` numbers of `ys` into the room.
#[inline(always)]
fn put_y(xs: &[u64], ys: &[u64], n: usize, left: Left, out: &mut [u64]) -> Left
    requires merging { IsMerging xs.now ys.now out.old left }
    requires some { left.y + n ≤ left.y_end }
    ensures merging { IsMerging xs.now ys.now out.new result }
    ensures x { result.x ≡ left.x }
    ensures x_end { result.x_end ≡ left.x_end }
    ensures y { result.y ≡ left.y + n }
    ensures y_end { result.y_end ≡ left.y_end }
{
    let at = left.x + left.y;
    out[at..at + n].copy_from_slice(&ys[left.y..left.y + n]);
    Left {
        y: left.y + n,
        ..left
    }
}

/// Puts eight numbers into the front of what is free of the room and eight into the back, in turn.
#[inline(always)]
fn put_both(xs: &[u64], ys: &[u64], left: Left, out: &mut [u64]) -> Left
    requires merging { IsMerging xs.now ys.now out.old left }
    requires x_left { left.x + 16 ≤ left.x_end }
    requires y_left { left.y + 16 ≤ left.y_end }
    ensures merging { IsMerging xs.now ys.now out.new result }
    ensures front { left.x + left.y < result.x + result.y }
    ensures back { result.x_end + result.y_end ≤ left.x_end + left.y_end }
{
    let mut rest = left;
    let mut turn = 0;
    while turn < COPIED_AT_ONCE {
        rest = put_least(xs, ys, rest, out);
        rest = put_greatest(xs, ys, rest, out);
        turn += 1;
    }
    rest
}

/// Puts the lesser one of the next numbers into the front of what is free of the room, by a choice and two sums in
/// place of branches, which the processor would guess wrong half of the time.
#[inline(always)]
fn put_least(xs: &[u64], ys: &[u64], left: Left, out: &mut [u64]) -> Left
    requires merging { IsMerging xs.now ys.now out.old left }
    requires x_left { left.x < left.x_end }
    requires y_left { left.y < left.y_end }
    ensures merging { IsMerging xs.now ys.now out.new result }
    ensures one { result.x + result.y ≡ left.x + left.y + 1 }
    ensures x { result.x ≤ left.x + 1 }
    ensures x_end { result.x_end ≡ left.x_end }
    ensures y { result.y ≤ left.y + 1 }
    ensures y_end { result.y_end ≡ left.y_end }
{
    let x = xs[left.x];
    let y = ys[left.y];
    let is_x = x <= y;
    out[left.x + left.y] = if is_x { x } else { y };
    Left {
        x: left.x + is_x as usize,
        y: left.y + !is_x as usize,
        ..left
    }
}

/// Puts the greater one of the last numbers into the back of what is free of the room.
#[inline(always)]
fn put_greatest(xs: &[u64], ys: &[u64], left: Left, out: &mut [u64]) -> Left
    requires merging { IsMerging xs.now ys.now out.old left }
    requires x_left { left.x < left.x_end }
    requires y_left { left.y < left.y_end }
    ensures merging { IsMerging xs.now ys.now out.new result }
    ensures x { result.x ≡ left.x }
    ensures x_end { left.x_end ≤ result.x_end + 1 }
    ensures y { result.y ≡ left.y }
    ensures y_end { left.y_end ≤ result.y_end + 1 }
    ensures one { result.x_end + result.y_end + 1 ≡ left.x_end + left.y_end }
{
    let x = xs[left.x_end - 1];
    let y = ys[left.y_end - 1];
    let is_y = x <= y;
    out[left.x_end + left.y_end - 1] = if is_y { y } else { x };
    Left {
        x_end: left.x_end - !is_y as usize,
        y_end: left.y_end - is_y as usize,
        ..left
    }
}
