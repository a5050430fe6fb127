//! Listings: the tokens of cells, one a line. Lines are put together in a block, which is handed on when it is full.
ghost use Rattle.std.specs.Prelude.{◌≡◌, ◌≤◌, ◌+◌, ◌++◌, ℕ, List, Option, length, take, flat_map, OnOk, OnErr};
ghost use Rattle.std.specs.Prelude.{IfOk, IfErr};
ghost use Rattle.std.specs.Io.KnownBytes.{Appends};
ghost use Rattle.s2list.specs.Denorm.{denormalised};
ghost use Rattle.s2calc.specs.Output.{AppendsPart};
ghost use Rattle.s2calc.specs.Calls.{NoneFailed, LastFailed};
ghost use Rattle.s2calc.specs.Texts.{token_line, listing};
ghost use Rattle.s2calc.specs.Working.Listing.{IsUnderway};

use crate::fault::RunFault;
use crate::output::emit;
use crate::streams::Sink;
use s2cell::CellId;
use s2script::{Level, Modulus};
use s2union::CellUnion;

/// The room for the lines that are handed on together. A short listing pays for it, so it isn't larger.
const BLOCK: usize = 1024;

/// The most bytes of one line: the digits of an identifier, and the end of the line.
const LINE: usize = 17;

/// Writes the tokens of cells, one a line, and then `end`.
pub(crate) fn write_cells<W: Sink>(writer: &mut W, cells: &[CellId]) -> Result<(), RunFault>
    ensures ok { OnOk result (Appends (W.contents writer.old) (W.contents writer.new) (listing cells.now)) }
    ensures err { OnErr result (AppendsPart (W.contents writer.old) (W.contents writer.new) (listing cells.now)) }
    ensures fault { IfErr result (λ fault. fault ≡ RunFault.Output) }
    ensures none_failed { OnOk result (NoneFailed ⊥ (W.calls writer.old) (W.calls writer.new)) }
    ensures failed { OnErr result (LastFailed ⊥ (W.calls writer.old) (W.calls writer.new)) }
{
    let mut block = [0u8; BLOCK];
    let mut waiting = 0;
    for cell in cells {
        waiting = put_line(writer, &mut block, waiting, *cell)?;
    }
    put_end(writer, &mut block, waiting)
}

/// Writes the tokens of the cells that a union is cut to, one a line, and then `end`.
pub(crate) fn write_cut<W: Sink>(
    writer: &mut W,
    union: &CellUnion,
    least: Level,
    modulus: Modulus,
) -> Result<(), RunFault>
    ensures ok { OnOk result (Appends (W.contents writer.old) (W.contents writer.new)
        (listing (denormalised least modulus union.now.cells))) }
    ensures err { OnErr result (AppendsPart (W.contents writer.old) (W.contents writer.new)
        (listing (denormalised least modulus union.now.cells))) }
    ensures fault { IfErr result (λ fault. fault ≡ RunFault.Output) }
    ensures none_failed { OnOk result (NoneFailed ⊥ (W.calls writer.old) (W.calls writer.new)) }
    ensures failed { OnErr result (LastFailed ⊥ (W.calls writer.old) (W.calls writer.new)) }
{
    let mut block = [0u8; BLOCK];
    let mut waiting = 0;
    for cell in union.denormalized(least.number(), modulus.number()) {
        waiting = put_line(writer, &mut block, waiting, cell)?;
    }
    put_end(writer, &mut block, waiting)
}

/// Adds the line of a cell to those that wait at the front of a block, and hands them on if there is no room for
/// another one. Answers how many bytes wait then.
fn put_line<W: Sink>(
    writer: &mut W,
    block: &mut [u8],
    waiting: usize,
    cell: CellId,
) -> Result<usize, RunFault>
    requires { waiting + LINE ≤ length block.old }
    ensures same { length block.new ≡ length block.old }
    ensures room { IfOk result (λ n. n + LINE ≤ length block.new) }
    ensures ok { IfOk result (λ n. (start : Option (List ℕ)) (text : List ℕ)
        → IsUnderway start (W.contents writer.old) (take waiting block.old) text
        → IsUnderway start (W.contents writer.new) (take n block.new) (text ++ token_line cell)) }
    ensures err { OnErr result ((start : Option (List ℕ)) (text : List ℕ)
        → IsUnderway start (W.contents writer.old) (take waiting block.old) text
        → AppendsPart start (W.contents writer.new) (text ++ token_line cell)) }
    ensures fault { IfErr result (λ fault. fault ≡ RunFault.Output) }
    ensures none_failed { OnOk result (NoneFailed ⊥ (W.calls writer.old) (W.calls writer.new)) }
    ensures failed { OnErr result (LastFailed ⊥ (W.calls writer.old) (W.calls writer.new)) }
{
    let end = append_line(block, waiting, cell);
    if end + LINE <= block.len() {
        return Ok(end);
    }
    emit(writer, &block[..end])?;
    Ok(0)
}

/// Adds the line of a cell after the first bytes of a block, and answers how many they are then. All digits of the
/// identifier are written, and the end of the line over the zeros at their end: this is faster than a copy of some.
fn append_line(block: &mut [u8], len: usize, cell: CellId) -> usize
    requires { len + LINE ≤ length block.old }
    ensures same { length block.new ≡ length block.old }
    ensures few { result ≤ len + LINE }
    ensures text { take result block.new ≡ take len block.old ++ token_line cell }
{
    cell.write_digits(&mut block[len..len + 16]);
    let end = len + cell.token_len();
    block[end] = b'\n';
    end + 1
}

/// Adds `end` to the lines that wait at the front of a block, and hands them on.
fn put_end<W: Sink>(writer: &mut W, block: &mut [u8], waiting: usize) -> Result<(), RunFault>
    requires { waiting + LINE ≤ length block.old }
    ensures ok { OnOk result ((start : Option (List ℕ)) (cells : List ℕ)
        → IsUnderway start (W.contents writer.old) (take waiting block.old) (flat_map token_line cells)
        → Appends start (W.contents writer.new) (listing cells)) }
    ensures err { OnErr result ((start : Option (List ℕ)) (cells : List ℕ)
        → IsUnderway start (W.contents writer.old) (take waiting block.old) (flat_map token_line cells)
        → AppendsPart start (W.contents writer.new) (listing cells)) }
    ensures fault { IfErr result (λ fault. fault ≡ RunFault.Output) }
    ensures none_failed { OnOk result (NoneFailed ⊥ (W.calls writer.old) (W.calls writer.new)) }
    ensures failed { OnErr result (LastFailed ⊥ (W.calls writer.old) (W.calls writer.new)) }
{
    block[waiting..waiting + 4].copy_from_slice(b"end\n");
    emit(writer, &block[..waiting + 4])
}
