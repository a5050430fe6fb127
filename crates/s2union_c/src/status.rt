//! The statuses that calls answer: 0 or more is an answer, below 0 a refusal.
ghost use Rattle.std.specs.Prelude.{◌≡◌, IsTrue};
ghost use Rattle.s2union_c.specs.Status.{no, yes};

/// The call made what it was asked for.
pub(crate) const MADE: i32 = 0;

/// The result is longer than the room.
pub(crate) const NO_ROOM: i32 = -1;

/// Out of memory.
pub(crate) const NO_MEMORY: i32 = -2;

/// A number or a text does not stand for a cell.
pub(crate) const NO_CELL: i32 = -3;

/// An argument is out of its range.
pub(crate) const BAD_ARGUMENT: i32 = -5;

/// The result would have more cells than are allowed.
pub(crate) const TOO_MANY: i32 = -6;

/// Bytes of the file are missing.
pub(crate) const FILE_SHORT: i32 = -10;

/// The file's first byte is not 1.
pub(crate) const FILE_VERSION: i32 = -11;

/// Bytes follow the file's last identifier.
pub(crate) const FILE_TRAILING: i32 = -12;

/// An identifier in the file is not the identifier of a cell.
pub(crate) const FILE_CELL: i32 = -13;

/// A corner of a polygon is no direction, or lies opposite the next corner of its ring.
pub(crate) const BAD_CORNER: i32 = -14;

/// A ring of a polygon ends in a wrong place or has fewer than three corners, or there is none.
pub(crate) const BAD_RING: i32 = -15;

/// A text or bytes are no shape, or the shape has no inside.
pub(crate) const BAD_SHAPE: i32 = -16;

/// The answer to a question.
pub(crate) fn answer(holds: bool) -> i32
    ensures yes { IsTrue holds → result ≡ yes }
    ensures no { (IsTrue holds → ⊥) → result ≡ no }
{
    if holds { 1 } else { 0 }
}
