//! The limits on lines and words, each in one place. Contracts and `specs/` cite them from here.
use s2cell::SIDE;

/// The longest line that is not refused, in bytes, without its newline.
pub const LONGEST_LINE: usize = 4096;

/// The most bytes that the name of a file may have.
pub const LONGEST_NAME: usize = 64;

/// The most digits that a number may have.
pub(crate) const MOST_DIGITS: usize = 10;

/// The greatest face of a place or a rectangle.
pub(crate) const GREATEST_FACE: u64 = 5;

/// The greatest level: that of leaves.
pub(crate) const GREATEST_LEVEL: u64 = s2cell::GREATEST_LEVEL as u64;

/// The greatest modulus of levels.
pub(crate) const GREATEST_MODULUS: u64 = 3;

/// The greatest coordinate of a leaf on its face.
pub(crate) const GREATEST_COORDINATE: u64 = SIDE as u64 - 1;
