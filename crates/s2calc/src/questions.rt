//! Questions about cells and registers.
ghost use Rattle.s2calc.specs.Working.Answer.{reply_of};
ghost use Rattle.s2calc.specs.Questions.{Answers};
ghost use Rattle.s2script.specs.declared.command.Comparison.TheVariants.{Covers, Meets};
ghost use Rattle.s2script.specs.declared.command.Question.TheVariants.{At, Square as OfSquare, Count, Has, Touches};
ghost use Rattle.s2script.specs.declared.command.Question.TheVariants.{Compares, Denorm, History as Sides};

use crate::answer::Answer;
use crate::limits::MOST_LISTED;
use crate::refusal::Refusal;
use s2cell::CellId;
use s2edit::{Editor, Register};
use s2script::{Comparison, Level, Modulus, Place, Question};

/// Answers a question.
pub(crate) fn answer_to(editor: &Editor, question: &Question) -> Answer
    ensures { Answers question.now editor.now (reply_of result editor.now) }
{
    match question {
        Question::Cell(cell) => Answer::Cell(*cell),
        Question::At(place) => leaf_at(*place, editor),
        Question::Square(cell) => square(*cell, editor),
        Question::Show(register) => Answer::Listing(*register),
        Question::Count(register) => count(editor, *register),
        Question::Has { register, cell } => has(editor, *register, *cell),
        Question::Touches { register, cell } => touches(editor, *register, *cell),
        Question::Compares {
            comparison,
            register,
            other,
        } => compares(editor, *comparison, *register, *other),
        Question::Denorm {
            register,
            least,
            modulus,
        } => denorm(editor, *register, *least, *modulus),
        Question::History => sides(editor),
    }
}

fn leaf_at(place: Place, editor: &Editor) -> Answer
    ensures { Answers (At place) editor.now (reply_of result editor.now) }
{
    let _ = editor;
    let leaf = CellId::from_face_ij(place.face(), place.i(), place.j());
    let _ = leaf.id();
    Answer::Cell(leaf)
}

fn square(cell: CellId, editor: &Editor) -> Answer
    ensures { Answers (OfSquare cell) editor.now (reply_of result editor.now) }
{
    let _ = editor;
    let _ = cell.id();
    Answer::Square(cell.square())
}

fn count(editor: &Editor, register: Register) -> Answer
    ensures { Answers (Count register) editor.now (reply_of result editor.now) }
{
    let union = editor.register(register);
    Answer::Count {
        cells: union.len(),
        leaves: union.leaf_count(),
    }
}

fn has(editor: &Editor, register: Register, cell: CellId) -> Answer
    ensures { Answers (Has register cell) editor.now (reply_of result editor.now) }
{
    Answer::YesOrNo(editor.register(register).contains_cell(cell))
}

fn touches(editor: &Editor, register: Register, cell: CellId) -> Answer
    ensures { Answers (Touches register cell) editor.now (reply_of result editor.now) }
{
    Answer::YesOrNo(editor.register(register).intersects_cell(cell))
}

fn compares(editor: &Editor, comparison: Comparison, register: Register, other: Register) -> Answer
    ensures { Answers (Compares comparison register other) editor.now (reply_of result editor.now) }
{
    match comparison {
        Comparison::Covers => covers(editor, register, other),
        Comparison::Meets => meets(editor, register, other),
    }
}

fn covers(editor: &Editor, register: Register, other: Register) -> Answer
    ensures { Answers (Compares Covers register other) editor.now (reply_of result editor.now) }
{
    Answer::YesOrNo(editor.register(register).contains(editor.register(other)))
}

fn meets(editor: &Editor, register: Register, other: Register) -> Answer
    ensures { Answers (Compares Meets register other) editor.now (reply_of result editor.now) }
{
    Answer::YesOrNo(editor.register(register).intersects(editor.register(other)))
}

fn denorm(editor: &Editor, register: Register, least: Level, modulus: Modulus) -> Answer
    ensures { Answers (Denorm register least modulus) editor.now (reply_of result editor.now) }
{
    let union = editor.register(register);
    if union.denormalized_len(least.number(), modulus.number()) > MOST_LISTED {
        return Answer::Refused(Refusal::TooMany);
    }
    Answer::Cut {
        register,
        least,
        modulus,
    }
}

fn sides(editor: &Editor) -> Answer
    ensures { Answers Sides editor.now (reply_of result editor.now) }
{
    Answer::Sides {
        undos: editor.undoable(),
        redos: editor.redoable(),
    }
}
