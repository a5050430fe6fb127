//! The forms that the words of a command may have, from left to right.
ghost use Rattle.std.specs.Prelude.{◌≡◌, ◌≤◌, ◌<◌, ◌+◌, ℕ, List, [], ◌∷◌, MatchResult, IfOk, Ok, Err};
ghost use Rattle.s2cell.specs.Cell.{first_leaf, size_of};
ghost use Rattle.s2script.specs.Forms.{register_named, next_register, next_cell, next_last, next_span, next_level};
ghost use Rattle.s2script.specs.Forms.{next_modulus, next_face, next_coordinate, next_place, next_name, next_rect};
ghost use Rattle.s2script.specs.Forms.{optional_rect, one_cell, one_place, one_register, two_registers};
ghost use Rattle.s2script.specs.Forms.{register_and_cell, register_and_cells, register_and_span, register_and_name};
ghost use Rattle.s2script.specs.Forms.{one_name, register_level_modulus, register_level_rect, registers_level_rect};

use crate::cells::Cells;
use crate::level::{Level, Modulus};
use crate::limits::{GREATEST_COORDINATE, GREATEST_FACE, GREATEST_LEVEL, GREATEST_MODULUS};
use crate::misfit::{Misfit, Wanted};
use crate::name::{Name, name_in};
use crate::named::cell_in;
use crate::number::number_within;
use crate::place::Place;
use crate::register::Register;
use crate::span::Span;
use crate::words::Words;
use s2cell::{CellId, FaceRect};

/// The register that a word names, if it names one.
fn register_in(word: &[u8]) -> Option<Register>
    ensures { result ≡ register_named word.now }
{
    match word {
        [letter] => Register::from_letter(*letter),
        _ => None,
    }
}

impl<'a> Words<'a> {
    /// The next word. It must be there.
    fn word(&mut self, wanted: Wanted) -> Result<&'a [u8], Misfit<'a>>
        ensures { MatchResult result (λ word. self.old ≡ word.now ∷ self.new) (λ misfit. (self.old ≡ [])
            × (misfit ≡ Misfit.Missing wanted)) }
    {
        match self.next() {
            Some(word) => Ok(word),
            None => Err(Misfit::Missing { wanted }),
        }
    }

    /// The end of the line: no word may be left.
    pub(crate) fn end(&mut self) -> Result<(), Misfit<'a>>
        ensures { MatchResult result (λ _. self.old ≡ []) (λ misfit. (word : List ℕ)
            × (self.old ≡ word ∷ self.new) × (misfit ≡ Misfit.Unfit word Wanted.EndOfLine)) }
    {
        match self.next() {
            Some(word) => Err(Misfit::unfit(word, Wanted::EndOfLine)),
            None => Ok(()),
        }
    }

    /// A register.
    pub(crate) fn register(&mut self) -> Result<Register, Misfit<'a>>
        ensures { MatchResult result (λ register. next_register self.old ≡ Ok (register, self.new))
            (λ misfit. next_register self.old ≡ Err misfit) }
    {
        let word = self.word(Wanted::Register)?;
        match register_in(word) {
            Some(register) => Ok(register),
            None => Err(Misfit::unfit(word, Wanted::Register)),
        }
    }

    /// A cell.
    pub(crate) fn cell(&mut self) -> Result<CellId, Misfit<'a>>
        ensures { MatchResult result (λ cell. next_cell self.old ≡ Ok (cell, self.new))
            (λ misfit. next_cell self.old ≡ Err misfit) }
    {
        let word = self.word(Wanted::Cell)?;
        match cell_in(word) {
            Some(cell) => Ok(cell),
            None => Err(Misfit::unfit(word, Wanted::Cell)),
        }
    }

    /// The second cell of a range.
    fn last(&mut self, first: CellId) -> Result<CellId, Misfit<'a>>
        ensures cell { MatchResult result (λ cell. next_last first self.old ≡ Ok (cell, self.new))
            (λ misfit. next_last first self.old ≡ Err misfit) }
        ensures order { IfOk result (λ cell. first_leaf first < first_leaf cell + size_of cell) }
    {
        let word = self.word(Wanted::Cell)?;
        match cell_in(word) {
            Some(last) if first.first_leaf() < last.end_leaf() => Ok(last),
            Some(_) => Err(Misfit::unfit(word, Wanted::RangeEnd)),
            None => Err(Misfit::unfit(word, Wanted::Cell)),
        }
    }

    /// The two cells of a range.
    pub(crate) fn span(&mut self) -> Result<Span, Misfit<'a>>
        ensures { MatchResult result (λ span. next_span self.old ≡ Ok (span, self.new))
            (λ misfit. next_span self.old ≡ Err misfit) }
    {
        let first = self.cell()?;
        let last = self.last(first)?;
        Ok(Span::between(first, last))
    }

    /// A level.
    pub(crate) fn level(&mut self) -> Result<Level, Misfit<'a>>
        ensures { MatchResult result (λ level. next_level self.old ≡ Ok (level, self.new))
            (λ misfit. next_level self.old ≡ Err misfit) }
    {
        let word = self.word(Wanted::Level)?;
        match number_within(word, 0, GREATEST_LEVEL) {
            Some(level) => Ok(Level::of(level as u8)),
            None => Err(Misfit::unfit(word, Wanted::Level)),
        }
    }

    /// A modulus of levels.
    pub(crate) fn modulus(&mut self) -> Result<Modulus, Misfit<'a>>
        ensures { MatchResult result (λ modulus. next_modulus self.old ≡ Ok (modulus, self.new))
            (λ misfit. next_modulus self.old ≡ Err misfit) }
    {
        let word = self.word(Wanted::Modulus)?;
        match number_within(word, 1, GREATEST_MODULUS) {
            Some(modulus) => Ok(Modulus::of(modulus as u8)),
            None => Err(Misfit::unfit(word, Wanted::Modulus)),
        }
    }

    /// A face.
    fn face(&mut self) -> Result<u8, Misfit<'a>>
        ensures face { MatchResult result (λ face. next_face self.old ≡ Ok (face, self.new))
            (λ misfit. next_face self.old ≡ Err misfit) }
        ensures most { IfOk result (λ face. face ≤ 5) }
    {
        let word = self.word(Wanted::Face)?;
        match number_within(word, 0, GREATEST_FACE) {
            Some(face) => Ok(face as u8),
            None => Err(Misfit::unfit(word, Wanted::Face)),
        }
    }

    /// A coordinate that is not below the least one.
    fn coordinate(&mut self, low: u32) -> Result<u32, Misfit<'a>>
        ensures place { MatchResult result (λ place. next_coordinate low self.old ≡ Ok (place, self.new))
            (λ misfit. next_coordinate low self.old ≡ Err misfit) }
        ensures bounds { IfOk result (λ place. (low ≤ place) × (place ≤ GREATEST_COORDINATE)) }
    {
        let wanted = Wanted::Coordinate { least: low };
        let word = self.word(wanted)?;
        match number_within(word, u64::from(low), GREATEST_COORDINATE) {
            Some(place) => Ok(place as u32),
            None => Err(Misfit::unfit(word, wanted)),
        }
    }

    /// The place of a leaf.
    pub(crate) fn place(&mut self) -> Result<Place, Misfit<'a>>
        ensures { MatchResult result (λ place. next_place self.old ≡ Ok (place, self.new))
            (λ misfit. next_place self.old ≡ Err misfit) }
    {
        let face = self.face()?;
        let i = self.coordinate(0)?;
        let j = self.coordinate(0)?;
        Ok(Place::of(face, i, j))
    }

    /// The name of a file.
    pub(crate) fn name(&mut self) -> Result<Name<'a>, Misfit<'a>>
        ensures { MatchResult result (λ name. next_name self.old ≡ Ok (name, self.new))
            (λ misfit. next_name self.old ≡ Err misfit) }
    {
        let word = self.word(Wanted::FileName)?;
        match name_in(word) {
            Some(name) => Ok(name),
            None => Err(Misfit::unfit(word, Wanted::FileName)),
        }
    }

    /// A rectangle, by its face and its bounds.
    pub(crate) fn rect(&mut self) -> Result<FaceRect, Misfit<'a>>
        ensures { MatchResult result (λ rect. next_rect self.old ≡ Ok (rect, self.new))
            (λ misfit. next_rect self.old ≡ Err misfit) }
    {
        let face = self.face()?;
        let i0 = self.coordinate(0)?;
        let i1 = self.coordinate(i0)?;
        let j0 = self.coordinate(0)?;
        let j1 = self.coordinate(j0)?;
        Ok(FaceRect::new(face, i0, i1, j0, j1).unwrap())
    }

    /// Nothing, or a rectangle.
    pub(crate) fn optional_rect(&mut self) -> Result<Option<FaceRect>, Misfit<'a>>
        ensures { MatchResult result (λ rect. optional_rect self.old ≡ Ok (rect, self.new))
            (λ misfit. optional_rect self.old ≡ Err misfit) }
    {
        if self.is_empty() {
            return Ok(None);
        }
        let rect = self.rect()?;
        Ok(Some(rect))
    }
}

/// `CELL`
#[inline(always)]
#[tactic(auto, unfolding(crate::specs::Forms::one_cell))]
pub(crate) fn one_cell(mut words: Words<'_>) -> Result<CellId, Misfit<'_>>
    ensures { result ≡ one_cell words.entry }
{
    let cell = words.cell()?;
    words.end()?;
    Ok(cell)
}

/// `FACE I J`
#[inline(always)]
#[tactic(auto, unfolding(crate::specs::Forms::one_place))]
pub(crate) fn one_place(mut words: Words<'_>) -> Result<Place, Misfit<'_>>
    ensures { result ≡ one_place words.entry }
{
    let place = words.place()?;
    words.end()?;
    Ok(place)
}

/// `r`
#[inline(always)]
#[tactic(auto, unfolding(crate::specs::Forms::one_register))]
pub(crate) fn one_register(mut words: Words<'_>) -> Result<Register, Misfit<'_>>
    ensures { result ≡ one_register words.entry }
{
    let register = words.register()?;
    words.end()?;
    Ok(register)
}

/// `r s`
#[inline(always)]
#[tactic(auto, unfolding(crate::specs::Forms::two_registers))]
pub(crate) fn two_registers(mut words: Words<'_>) -> Result<(Register, Register), Misfit<'_>>
    ensures { result ≡ two_registers words.entry }
{
    let register = words.register()?;
    let other = words.register()?;
    words.end()?;
    Ok((register, other))
}

/// `r CELL`
#[inline(always)]
#[tactic(auto, unfolding(crate::specs::Forms::register_and_cell))]
pub(crate) fn register_and_cell(mut words: Words<'_>) -> Result<(Register, CellId), Misfit<'_>>
    ensures { result ≡ register_and_cell words.entry }
{
    let register = words.register()?;
    let cell = words.cell()?;
    words.end()?;
    Ok((register, cell))
}

/// `r CELL..`
#[inline(always)]
#[tactic(auto, unfolding(crate::specs::Forms::register_and_cells))]
pub(crate) fn register_and_cells(mut words: Words<'_>) -> Result<(Register, Cells<'_>), Misfit<'_>>
    ensures { result ≡ register_and_cells words.entry }
{
    let register = words.register()?;
    let cells = Cells::of(words)?;
    Ok((register, cells))
}

/// `r CELL CELL`
#[inline(always)]
#[tactic(auto, unfolding(crate::specs::Forms::register_and_span))]
pub(crate) fn register_and_span(mut words: Words<'_>) -> Result<(Register, Span), Misfit<'_>>
    ensures { result ≡ register_and_span words.entry }
{
    let register = words.register()?;
    let span = words.span()?;
    words.end()?;
    Ok((register, span))
}

/// `r NAME`
#[inline(always)]
#[tactic(auto, unfolding(crate::specs::Forms::register_and_name))]
pub(crate) fn register_and_name(mut words: Words<'_>) -> Result<(Register, Name<'_>), Misfit<'_>>
    ensures { result ≡ register_and_name words.entry }
{
    let register = words.register()?;
    let name = words.name()?;
    words.end()?;
    Ok((register, name))
}

/// `NAME`
#[inline(always)]
#[tactic(auto, unfolding(crate::specs::Forms::one_name))]
pub(crate) fn one_name(mut words: Words<'_>) -> Result<Name<'_>, Misfit<'_>>
    ensures { result ≡ one_name words.entry }
{
    let name = words.name()?;
    words.end()?;
    Ok(name)
}

/// `r MIN MOD`
#[inline(always)]
#[tactic(auto, unfolding(crate::specs::Forms::register_level_modulus))]
pub(crate) fn register_level_modulus(
    mut words: Words<'_>,
) -> Result<(Register, Level, Modulus), Misfit<'_>>
    ensures { result ≡ register_level_modulus words.entry }
{
    let register = words.register()?;
    let least = words.level()?;
    let modulus = words.modulus()?;
    words.end()?;
    Ok((register, least, modulus))
}

/// `r LEVEL FACE I0 I1 J0 J1`
#[inline(always)]
#[tactic(auto, unfolding(crate::specs::Forms::register_level_rect))]
pub(crate) fn register_level_rect(
    mut words: Words<'_>,
) -> Result<(Register, Level, FaceRect), Misfit<'_>>
    ensures { result ≡ register_level_rect words.entry }
{
    let register = words.register()?;
    let level = words.level()?;
    let rect = words.rect()?;
    words.end()?;
    Ok((register, level, rect))
}

/// `r s LEVEL`, and nothing or `FACE I0 I1 J0 J1`
#[inline(always)]
#[tactic(auto, unfolding(crate::specs::Forms::registers_level_rect))]
pub(crate) fn registers_level_rect(
    mut words: Words<'_>,
) -> Result<(Register, Register, Level, Option<FaceRect>), Misfit<'_>>
    ensures { result ≡ registers_level_rect words.entry }
{
    let register = words.register()?;
    let other = words.register()?;
    let level = words.level()?;
    let rect = words.optional_rect()?;
    words.end()?;
    Ok((register, other, level, rect))
}
