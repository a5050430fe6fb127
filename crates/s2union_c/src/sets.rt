//! The operations on unions, written straight into the caller's list.
//!
//! An operation is given as much of the room as its result can need, and answers no greater length: so both bounds hold
//! of any list.
ghost use Rattle.std.specs.Prelude.{◌+◌, ◌*◌, ◌≤◌, length};
ghost use Rattle.s2list.specs.Sets.{union_of, symmetric_difference_of, complement_of, intersection_of, difference_of};
ghost use Rattle.s2list.specs.Union.{IsLocal, IsNormalForm, has_leaf};
ghost use Rattle.s2union_c.specs.Results.{KeepsRest, MadeInPlace};

use crate::results::{bound, room_status};
use s2list::IdList;
use s2room::{
    put_complement, put_difference, put_intersection, put_symmetric_difference, put_union,
};

/// How many cells there are beside a leaf and its ancestors: three of each level.
const BESIDE: usize = 90;

/// The leaves of either union. Of lists that are not unions the result means nothing.
#[unsafe(no_mangle)]
pub extern "C" fn s2u_union(xs: &[u64], ys: &[u64], out: &mut [u64], len: &mut usize) -> i32
    ensures made { IsLocal xs.now → IsLocal ys.now
        → MadeInPlace result (IsNormalForm (union_of (has_leaf xs.now) (has_leaf ys.now))) out.old out.new len.new }
    ensures any { KeepsRest result out.old out.new len.new }
    ensures most { len.new ≤ length xs.now + length ys.now }
{
    let most = xs.len() + ys.len();
    let room = most.min(out.len());
    let n = put_union(&IdList { ids: xs }, &IdList { ids: ys }, &mut out[..room]);
    *len = n.min(most);
    room_status(*len, out.len())
}

/// The leaves that both unions have. Of lists that are not unions the result means nothing.
#[unsafe(no_mangle)]
pub extern "C" fn s2u_intersection(xs: &[u64], ys: &[u64], out: &mut [u64], len: &mut usize) -> i32
    ensures made { IsLocal xs.now → IsLocal ys.now
        → MadeInPlace result (IsNormalForm (intersection_of (has_leaf xs.now) (has_leaf ys.now))) out.old out.new
        len.new }
    ensures any { KeepsRest result out.old out.new len.new }
    ensures most { len.new ≤ length xs.now + length ys.now }
{
    let most = xs.len() + ys.len();
    let room = most.min(out.len());
    let n = put_intersection(&IdList { ids: xs }, &IdList { ids: ys }, &mut out[..room]);
    *len = n.min(most);
    room_status(*len, out.len())
}

/// The leaves of the first union that the second doesn't have. Of lists that are not unions the result means nothing.
#[unsafe(no_mangle)]
pub extern "C" fn s2u_difference(xs: &[u64], ys: &[u64], out: &mut [u64], len: &mut usize) -> i32
    ensures made { IsLocal xs.now → IsLocal ys.now
        → MadeInPlace result (IsNormalForm (difference_of (has_leaf xs.now) (has_leaf ys.now))) out.old out.new
        len.new }
    ensures any { KeepsRest result out.old out.new len.new }
    ensures most { len.new ≤ length xs.now + 90 * length ys.now }
{
    let most = bound(xs.len(), BESIDE, ys.len());
    let room = most.min(out.len());
    let n = put_difference(&IdList { ids: xs }, &IdList { ids: ys }, &mut out[..room]);
    *len = n.min(most);
    room_status(*len, out.len())
}

/// The leaves that exactly one of two unions has. Of lists that are not unions the result means nothing.
#[unsafe(no_mangle)]
pub extern "C" fn s2u_symmetric_difference(
    xs: &[u64],
    ys: &[u64],
    out: &mut [u64],
    len: &mut usize,
) -> i32
    ensures made { IsLocal xs.now → IsLocal ys.now
        → MadeInPlace result (IsNormalForm (symmetric_difference_of (has_leaf xs.now) (has_leaf ys.now))) out.old
        out.new len.new }
    ensures any { KeepsRest result out.old out.new len.new }
    ensures most { len.new ≤ 90 * length xs.now + 90 * length ys.now }
{
    let most = bound(0, BESIDE, xs.len() + ys.len());
    let room = most.min(out.len());
    let n = put_symmetric_difference(&IdList { ids: xs }, &IdList { ids: ys }, &mut out[..room]);
    *len = n.min(most);
    room_status(*len, out.len())
}

/// The leaves of the six faces that a union doesn't have. Of a list that is not a union the result means nothing.
#[unsafe(no_mangle)]
pub extern "C" fn s2u_complement(ids: &[u64], out: &mut [u64], len: &mut usize) -> i32
    ensures made { IsLocal ids.now
        → MadeInPlace result (IsNormalForm (complement_of (has_leaf ids.now))) out.old out.new len.new }
    ensures any { KeepsRest result out.old out.new len.new }
    ensures most { len.new ≤ 6 + 90 * length ids.now }
{
    let most = bound(6, BESIDE, ids.len());
    let room = most.min(out.len());
    let n = put_complement(&IdList { ids }, &mut out[..room]);
    *len = n.min(most);
    room_status(*len, out.len())
}
