//! Lists of calls, which a contract sees as long as there is memory for them.
ghost use Rattle.std.specs.Prelude.{[], ◌∷◌};
ghost use Rattle.s2calc.specs.Calls.{Gains};
ghost use Rattle.test_script.specs.Working.Known.{entries};

use std::alloc::AllocError;

/// A call of a writer: a write that took some bytes, a flush, or one that failed.
#[derive(Clone, Copy, PartialEq, Eq, Debug)]
pub enum Made {
    Write,
    Flush,
    Failure,
}

/// How many entries a list has. Fails if there was no memory for one of them.
pub fn count_of<T>(list: Option<&[T]>) -> Result<u64, AllocError> {
    match list {
        Some(entries) => Ok(entries.len() as u64),
        None => Err(AllocError),
    }
}

/// Adds an entry to a list that is known. If there is no memory for it, the list isn't known any more.
pub fn add<T: Drop>(list: &mut Option<Vec<T>>, entry: T)
    ensures { Gains (entries list.old) (entries list.new) (entry ∷ []) }
{
    if let Some(known) = list {
        if known.push(entry).is_ok() {
            return;
        }
    }
    *list = None;
}
