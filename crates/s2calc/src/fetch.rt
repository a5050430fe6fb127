//! What the shelf has under a name: the bytes of a file, and the union in it.
ghost use Rattle.std.specs.Prelude.{Some, MatchResult, Ok, Err};
ghost use Rattle.s2list.specs.Union.{has_leaf, IsNormalForm};
ghost use Rattle.s2shelf.specs.Shelf.{FindsBeginning};
ghost use Rattle.s2calc.specs.Fetch.{Fetches, FetchesUnion, Reads};

use crate::refusal::Refusal;
use s2file::{FileFault, MOST_SIZE, decode};
use s2shelf::{Shelf, ShelfFault};
use s2union::CellUnion;
use std::alloc::Global;

/// The first `most` bytes of the file under a name, the whole file if it has no more, or why there is none. Asks the
/// shelf once.
#[tactic(auto, using(s2shelf::proofs::Begun::begun_none))]
pub(crate) fn fetch<S: Shelf>(shelf: &mut S, name: &str, most: usize) -> Result<Vec<u8>, Refusal>
    ensures { MatchResult result
        (λ bytes. FindsBeginning (S.files shelf.old) name.now most (Some bytes.items) (S.files shelf.new))
        (λ refusal. Fetches name.now (S.files shelf.old) (Err refusal) (S.files shelf.new)) }
{
    match shelf.get_beginning(name, most) {
        Ok(Some(bytes)) => Ok(bytes),
        Ok(None) => Err(Refusal::Missing),
        Err(ShelfFault::Device) => Err(Refusal::File),
        Err(ShelfFault::Memory) => Err(Refusal::Memory),
    }
}

/// How many bytes of a union file are asked for: one more than the longest has. So a longer file is refused for what is
/// wrong with it, and no more of it is read.
const BYTES_OF_A_UNION: usize = MOST_SIZE + 1;

/// The union in the file under a name, or why there is none. Asks the shelf first, then reads the bytes.
pub(crate) fn fetch_union<S: Shelf>(
    alloc: Global,
    shelf: &mut S,
    name: &str,
) -> Result<CellUnion, Refusal>
    ensures { MatchResult result
        (λ union. FetchesUnion name.now (S.files shelf.old) (Ok (has_leaf union.cells)) (S.files shelf.new)
        × IsNormalForm (has_leaf union.cells) union.cells)
        (λ refusal. FetchesUnion name.now (S.files shelf.old) (Err refusal) (S.files shelf.new)) }
{
    let bytes = fetch(shelf, name, BYTES_OF_A_UNION)?;
    read(alloc, bytes.as_slice())
}

/// The union that the bytes of a file stand for, or why there is none.
fn read(alloc: Global, bytes: &[u8]) -> Result<CellUnion, Refusal>
    ensures { MatchResult result
        (λ union. Reads bytes.now (Ok (has_leaf union.cells)) × IsNormalForm (has_leaf union.cells) union.cells)
        (λ refusal. Reads bytes.now (Err refusal)) }
{
    match decode(alloc, bytes) {
        Ok(union) => Ok(union),
        Err(FileFault::Memory) => Err(Refusal::Memory),
        Err(_) => Err(Refusal::Format),
    }
}
