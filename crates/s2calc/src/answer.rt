//! Answers: what they are, their texts, and how they are written.
ghost use Rattle.std.specs.Prelude.{◌≡◌, ◌≤◌, ◌+◌, ◌++◌, ◌∷◌, [], length, codes, decimal, OnOk, OnErr};
ghost use Rattle.std.specs.Prelude.{IfErr, ℕ, List, true};
ghost use Rattle.std.specs.Io.KnownBytes.{Appends};
ghost use Rattle.s2cell.specs.Token.{token_of};
ghost use Rattle.s2cell.specs.Debug.{debug_of};
ghost use Rattle.s2calc.specs.Output.{AppendsPart};
ghost use Rattle.s2calc.specs.Calls.{NoneFailed, LastFailed};
ghost use Rattle.s2calc.specs.Refusals.{name_of};
ghost use Rattle.s2calc.specs.Replies.{text_of};
ghost use Rattle.s2edit.specs.History.{History};
ghost use Rattle.s2calc.specs.Working.Answer.{reply_of, told, is_line};
ghost use Rattle.s2calc.specs.Texts.{cell_line, square_line, ok_line, count_line, history_line, done_line};

use crate::fault::RunFault;
use crate::listing::{write_cells, write_cut};
use crate::output::emit;
use crate::refusal::Refusal;
use crate::streams::Sink;
use arrayvec::ArrayVec;
use itoa::Buffer;
use s2cell::{CellId, Square};
use s2edit::{Editor, Register};
use s2script::{Level, Modulus};

/// The answer to a line, until it is written. For a long answer it says only what to list.
#[derive(Clone, Copy)]
pub enum Answer {
    /// Nothing is written.
    Nothing,
    /// What is known of a cell.
    Cell(CellId),
    /// A square.
    Square(Square),
    /// How many cells were taken out of a register and put in.
    Moved {
        out: usize,
        put: usize,
    },
    /// How many cells and leaves a register has.
    Count {
        cells: usize,
        leaves: u64,
    },
    /// Yes or no.
    YesOrNo(bool),
    /// The cells of a register.
    Listing(Register),
    /// The cells of a register, cut to levels.
    Cut {
        register: Register,
        least: Level,
        modulus: Modulus,
    },
    /// How many states can be undone and redone.
    Sides {
        undos: usize,
        redos: usize,
    },
    /// A file was written, or the state in one was taken over.
    Done,
    /// The name of a refusal.
    Refused(Refusal),
}

/// Writes an answer. It takes no memory: a long answer goes out by blocks of lines.
pub(crate) fn write_answer<W: Sink>(
    writer: &mut W,
    answer: &Answer,
    editor: &Editor,
) -> Result<(), RunFault>
    ensures ok { OnOk result (Appends (W.contents writer.old) (W.contents writer.new)
        (text_of (reply_of answer.now editor.now))) }
    ensures err { OnErr result (AppendsPart (W.contents writer.old) (W.contents writer.new)
        (text_of (reply_of answer.now editor.now))) }
    ensures fault { IfErr result (λ fault. fault ≡ RunFault.Output) }
    ensures none_failed { OnOk result (NoneFailed ⊥ (W.calls writer.old) (W.calls writer.new)) }
    ensures failed { OnErr result (LastFailed ⊥ (W.calls writer.old) (W.calls writer.new)) }
{
    match answer {
        Answer::Nothing => Ok(()),
        Answer::YesOrNo(yes) => emit(writer, yes_or_no_line(*yes)),
        Answer::Done => emit(writer, done_line()),
        Answer::Listing(register) => write_cells(writer, editor.register(*register).cells()),
        Answer::Cut {
            register,
            least,
            modulus,
        } => write_cut(writer, editor.register(*register), *least, *modulus),
        Answer::Cell(_)
        | Answer::Square(_)
        | Answer::Moved { .. }
        | Answer::Count { .. }
        | Answer::Sides { .. }
        | Answer::Refused(_) => write_line(writer, answer, editor),
    }
}

/// Writes an answer that is one line of numbers or names. It stands apart, so that an answer of another kind doesn't
/// pay for the room of a line.
#[inline(never)]
fn write_line<W: Sink>(writer: &mut W, answer: &Answer, editor: &Editor) -> Result<(), RunFault>
    requires { is_line answer.now ≡ true }
    ensures ok { OnOk result (Appends (W.contents writer.old) (W.contents writer.new)
        (text_of (reply_of answer.now editor.now))) }
    ensures err { OnErr result (AppendsPart (W.contents writer.old) (W.contents writer.new)
        (text_of (reply_of answer.now editor.now))) }
    ensures fault { IfErr result (λ fault. fault ≡ RunFault.Output) }
    ensures none_failed { OnOk result (NoneFailed ⊥ (W.calls writer.old) (W.calls writer.new)) }
    ensures failed { OnErr result (LastFailed ⊥ (W.calls writer.old) (W.calls writer.new)) }
{
    let _ = editor;
    let mut line = ArrayVec::new();
    put_answer(&mut line, answer);
    emit(writer, line.as_slice())
}

/// Makes the line of an answer that is one line of numbers or names, in its place: it isn't copied.
#[inline(never)]
fn put_answer(line: &mut Line, answer: &Answer)
    requires empty { line.old.items ≡ [] }
    requires one_line { is_line answer.now ≡ true }
    ensures { (state : History (List ℕ)) → line.new.items ≡ text_of (reply_of answer.now state) }
{
    match answer {
        Answer::Cell(cell) => put_cell(line, *cell),
        Answer::Square(square) => put_square(line, *square),
        Answer::Moved { out, put } => put_ok(line, *out as u64, *put as u64),
        Answer::Count { cells, leaves } => put_count(line, *cells as u64, *leaves),
        Answer::Sides { undos, redos } => put_history(line, *undos as u64, *redos as u64),
        Answer::Refused(refusal) => put_error(line, *refusal),
        Answer::Nothing
        | Answer::YesOrNo(_)
        | Answer::Done
        | Answer::Listing(_)
        | Answer::Cut { .. } => unreachable!(),
    }
}

/// The line `yes` or `no`.
#[tactic(auto, unfolding(crate::specs::Texts::yes_line, crate::specs::Texts::no_line))]
fn yes_or_no_line(yes: bool) -> &'static [u8]
    ensures { result.now ≡ told yes }
{
    if yes { b"yes\n" } else { b"no\n" }
}

/// The line of a command that is done, if there are no numbers to report.
#[tactic(auto, unfolding(crate::specs::Texts::done_line))]
fn done_line() -> &'static [u8]
    ensures { result.now ≡ done_line }
{
    b"ok\n"
}

/// The room for one line.
const LINE_ROOM: usize = 160;

/// The bytes of one line of an answer.
pub(crate) type Line = ArrayVec<u8, LINE_ROOM>;

/// The line of a refusal.
pub(crate) fn error_line(refusal: Refusal) -> Line
    ensures { result.items ≡ codes "error " ++ name_of refusal ++ 10 ∷ [] }
{
    let mut line = ArrayVec::new();
    put_error(&mut line, refusal);
    line
}

/// The line that says what is known of a cell.
pub(crate) fn cell_line(cell: CellId) -> Line
    ensures { result.items ≡ cell_line cell }
{
    let mut line = ArrayVec::new();
    put_cell(&mut line, cell);
    line
}

/// The line with the numbers of cells and leaves.
pub(crate) fn count_line(cells: u64, leaves: u64) -> Line
    ensures { result.items ≡ count_line cells leaves }
{
    let mut line = ArrayVec::new();
    put_count(&mut line, cells, leaves);
    line
}

/// Puts the line of a refusal.
fn put_error(line: &mut Line, refusal: Refusal)
    requires { line.old.items ≡ [] }
    ensures { line.new.items ≡ codes "error " ++ name_of refusal ++ 10 ∷ [] }
{
    put(line, b"error ");
    put(line, refusal.name().as_bytes());
    put(line, b"\n");
}

/// Puts the line that says what is known of a cell.
#[tactic(auto, unfolding(crate::specs::Texts::cell_line))]
fn put_cell(line: &mut Line, cell: CellId)
    requires { line.old.items ≡ [] }
    ensures { line.new.items ≡ cell_line cell }
{
    put_names(line, cell);
    put(line, b" level ");
    put_number(line, u64::from(cell.level()));
    put(line, b" face ");
    put_number(line, u64::from(cell.face()));
    put(line, b" leaves ");
    put_number(line, cell.first_leaf());
    put(line, b" ");
    put_number(line, cell.end_leaf() - 1);
    put(line, b"\n");
}

/// Puts the line of a square.
#[tactic(auto, unfolding(crate::specs::Texts::square_line))]
fn put_square(line: &mut Line, square: Square)
    requires { line.old.items ≡ [] }
    ensures { line.new.items ≡ square_line square.face square.i square.j square.size }
{
    put(line, b"face ");
    put_number(line, u64::from(square.face));
    put(line, b" i ");
    put_number(line, u64::from(square.i));
    put(line, b" j ");
    put_number(line, u64::from(square.j));
    put(line, b" size ");
    put_number(line, u64::from(square.size));
    put(line, b"\n");
}

/// Puts the line of an edit.
#[tactic(auto, unfolding(crate::specs::Texts::ok_line))]
fn put_ok(line: &mut Line, out: u64, put_in: u64)
    requires { line.old.items ≡ [] }
    ensures { line.new.items ≡ ok_line out put_in }
{
    put_two(line, b"ok ", out, b" ", put_in);
}

/// Puts the line with the numbers of cells and leaves.
#[tactic(auto, unfolding(crate::specs::Texts::count_line))]
fn put_count(line: &mut Line, cells: u64, leaves: u64)
    requires { line.old.items ≡ [] }
    ensures { line.new.items ≡ count_line cells leaves }
{
    put_two(line, b"cells ", cells, b" leaves ", leaves);
}

/// Puts the line with the numbers of states that can be undone and redone.
#[tactic(auto, unfolding(crate::specs::Texts::history_line))]
fn put_history(line: &mut Line, undos: u64, redos: u64)
    requires { line.old.items ≡ [] }
    ensures { line.new.items ≡ history_line undos redos }
{
    put_two(line, b"undo ", undos, b" redo ", redos);
}

/// Puts a line with two numbers, each after a few bytes.
fn put_two(line: &mut Line, before: &[u8], first: u64, between: &[u8], second: u64)
    requires empty { line.old.items ≡ [] }
    requires short { length before.now + length between.now ≤ 100 }
    ensures { line.new.items ≡ before.now ++ decimal first ++ between.now ++ decimal second ++ 10 ∷ [] }
{
    put(line, before);
    put_number(line, first);
    put(line, between);
    put_number(line, second);
    put(line, b"\n");
}

/// Adds a cell's token and its debug text.
fn put_names(line: &mut Line, cell: CellId)
    requires { line.old.items ≡ [] }
    ensures text { line.new.items ≡ codes "cell " ++ token_of cell ++ codes " " ++ debug_of cell }
    ensures short { length line.new.items ≤ 54 }
{
    put(line, b"cell ");
    put_token(line, cell);
    put(line, b" ");
    put_debug(line, cell);
}

/// Adds a cell's token.
fn put_token(line: &mut Line, cell: CellId)
    requires { length line.old.items + 16 ≤ 160 }
    ensures text { line.new.items ≡ line.old.items ++ token_of cell }
    ensures short { length line.new.items ≤ length line.old.items + 16 }
{
    put(line, cell.token().as_slice());
}

/// Adds a cell's debug text.
fn put_debug(line: &mut Line, cell: CellId)
    requires { length line.old.items + 32 ≤ 160 }
    ensures text { line.new.items ≡ line.old.items ++ debug_of cell }
    ensures short { length line.new.items ≤ length line.old.items + 32 }
{
    put(line, cell.debug().as_slice());
}

/// Adds bytes at the end of a line.
fn put(line: &mut Line, bytes: &[u8])
    requires { length line.old.items + length bytes.now ≤ 160 }
    ensures text { line.new.items ≡ line.old.items ++ bytes.now }
    ensures long { length line.new.items ≡ length line.old.items + length bytes.now }
{
    line.try_extend_from_slice(bytes).unwrap();
}

/// Adds a number in decimal digits.
fn put_number(line: &mut Line, number: u64)
    requires { length line.old.items + 20 ≤ 160 }
    ensures text { line.new.items ≡ line.old.items ++ decimal number }
    ensures short { length line.new.items ≤ length line.old.items + 20 }
{
    let mut buffer = Buffer::new();
    put(line, buffer.format(number).as_bytes());
}
