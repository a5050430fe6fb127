//! What a line may ask for.
use crate::cells::Cells;
use crate::level::{Level, Modulus};
use crate::name::Name;
use crate::place::Place;
use crate::refusal::Refusal;
use crate::register::Register;
use crate::span::Span;
use s2cell::{CellId, FaceRect};

/// What a register becomes.
#[derive(Drop)]
pub enum RegisterEdit<'a> {
    /// The register with the cells added.
    Add(Cells<'a>),
    /// The register without the leaves of the cells.
    Remove(Cells<'a>),
    /// The leaves that the register shares with the cells.
    Keep(Cells<'a>),
    /// No leaf.
    Clear,
    /// The other register.
    Copy(Register),
    /// The leaves that the register or the other one has.
    Union(Register),
    /// The leaves that both have.
    Intersect(Register),
    /// The leaves of the register that the other one doesn't have.
    Subtract(Register),
    /// All leaves from the first of one cell to the last of another.
    Range(Span),
    /// The outer covering of a rectangle.
    Outer {
        level: Level,
        rect: FaceRect,
    },
    /// The inner covering of a rectangle.
    Inner {
        level: Level,
        rect: FaceRect,
    },
    /// The outer covering of the other register, within a rectangle if there is one.
    OuterOf {
        other: Register,
        level: Level,
        rect: Option<FaceRect>,
    },
    /// The inner covering of the other register, within a rectangle if there is one.
    InnerOf {
        other: Register,
        level: Level,
        rect: Option<FaceRect>,
    },
}

/// How two registers may be related.
#[derive(Clone, Copy)]
pub enum Comparison {
    /// The first has all leaves of the second.
    Covers,
    /// They share a leaf.
    Meets,
}

/// A question about cells or registers.
#[derive(Drop)]
pub enum Question {
    /// The facts about a cell.
    Cell(CellId),
    /// The facts about the leaf at a place.
    At(Place),
    /// The square of a cell.
    Square(CellId),
    /// The cells of a register.
    Show(Register),
    /// How many cells and leaves a register has.
    Count(Register),
    /// Whether a register has all leaves of a cell.
    Has {
        register: Register,
        cell: CellId,
    },
    /// Whether a register has a leaf of a cell.
    Touches {
        register: Register,
        cell: CellId,
    },
    /// Whether two registers are related this way.
    Compares {
        comparison: Comparison,
        register: Register,
        other: Register,
    },
    /// The cells of a register, cut to levels that begin at the least one and rise in steps of the modulus.
    Denorm {
        register: Register,
        least: Level,
        modulus: Modulus,
    },
    /// How many states can be undone and redone.
    History,
}

/// What a line asks for.
#[derive(Drop)]
pub enum Command<'a> {
    /// To edit a register.
    Edit {
        register: Register,
        edit: RegisterEdit<'a>,
    },
    /// To give a register the union that a file holds.
    Load {
        register: Register,
        name: Name<'a>,
    },
    /// To write a register to a file.
    Save {
        register: Register,
        name: Name<'a>,
    },
    /// To write the registers and their history to a file.
    Dump {
        name: Name<'a>,
    },
    /// To take over the registers and the history that a file holds.
    Restore {
        name: Name<'a>,
    },
    /// To go back one state.
    Undo,
    /// To go forward one state.
    Redo,
    /// To answer a question.
    Ask(Question),
}

/// What a line says.
#[derive(Drop)]
pub enum Parsed<'a> {
    /// Nothing: it is a comment, or has no words.
    Nothing,
    /// A command, with the values of its words.
    Does(Command<'a>),
    /// Nothing, since the line is refused.
    Fails(Refusal),
}
