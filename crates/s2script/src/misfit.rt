//! Where a line does not fit the grammar.
ghost use Rattle.std.specs.Prelude.{◌≡◌};
ghost use Rattle.s2script.specs.Misfits.{refusal_for, refusal_of};

use crate::refusal::Refusal;
use crate::words::Word;

/// What is wanted in the place of a word.
#[derive(Clone, Copy, Debug, PartialEq, Eq)]
pub enum Wanted {
    /// The name of a command.
    CommandName,
    /// No word: the line has all words that its command takes.
    EndOfLine,
    /// A register, by its letter.
    Register,
    /// A cell, by a token or a debug text.
    Cell,
    /// The second cell of a range, which must not end before the first begins.
    RangeEnd,
    /// A level, 0 to 30.
    Level,
    /// A modulus of levels, 1 to 3.
    Modulus,
    /// A face, 0 to 5.
    Face,
    /// A coordinate of a leaf, `least` to 1073741823. The upper bound of a rectangle is at least its lower bound.
    Coordinate { least: u32 },
    /// The name of a file.
    FileName,
}

impl Wanted {
    /// The refusal of a word that is not what is wanted in its place.
    pub fn refusal(self) -> Refusal
        ensures { result ≡ refusal_for self }
    {
        match self {
            Wanted::CommandName | Wanted::EndOfLine => Refusal::Syntax,
            Wanted::Register => Refusal::Register,
            Wanted::Cell => Refusal::Cell,
            Wanted::RangeEnd => Refusal::Order,
            Wanted::Level | Wanted::Modulus => Refusal::Level,
            Wanted::Face => Refusal::Face,
            Wanted::Coordinate { least: _ } => Refusal::Rectangle,
            Wanted::FileName => Refusal::Name,
        }
    }
}

/// Where a line does not fit the grammar, read from left to right.
#[derive(Drop)]
pub enum Misfit<'a> {
    /// The line has more than `LONGEST_LINE` bytes. Its words are not read.
    LongLine,
    /// The line ends where a word is wanted.
    Missing { wanted: Wanted },
    /// The first word that is not what is wanted in its place.
    Unfit { word: Word<'a>, wanted: Wanted },
}

impl<'a> Misfit<'a> {
    /// The refusal of the line: `Syntax` if a word is missing, whatever is wanted in its place.
    pub fn refusal(&self) -> Refusal
        ensures { result ≡ refusal_of self.now }
    {
        match self {
            Misfit::LongLine => Refusal::Line,
            Misfit::Missing { wanted: _ } => Refusal::Syntax,
            Misfit::Unfit { word: _, wanted } => wanted.refusal(),
        }
    }

    /// A word that is not what is wanted.
    pub(crate) fn unfit(word: &'a [u8], wanted: Wanted) -> Misfit<'a>
        ensures { result ≡ Misfit.Unfit word.now wanted }
    {
        Misfit::Unfit {
            word: Word::of(word),
            wanted,
        }
    }
}
