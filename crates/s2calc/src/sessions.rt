//! The registers and both sides of their history as a file.
ghost use Rattle.std.specs.Prelude.{◌≡◌, List, ℕ, Some, Err, IfOk, OnErr, MatchResult};
ghost use Rattle.s2shelf.specs.Shelf.{Finds, Opens};
ghost use Rattle.s2edit.specs.Content.{content_of, IsContent};
ghost use Rattle.s2session.specs.Session.{Spells, Text, Stored};
ghost use Rattle.s2edit.specs.History.{History};
ghost use Rattle.s2edit.specs.Session.{Restored};
ghost use Rattle.s2calc.specs.Working.Answer.{reply_of};
ghost use Rattle.s2calc.specs.Working.Sessions.{ReadAs};
ghost use Rattle.s2calc.specs.Fetch.{Fetches};
ghost use Rattle.s2calc.specs.Sessions.{refusal_of, RefusesBytes, FetchesNoState};
ghost use Rattle.s2calc.specs.Step.{Dumps, Restores};
ghost use Rattle.s2calc.specs.World.{world};

use crate::answer::Answer;
use crate::files::store;
use crate::refusal::Refusal;
use s2edit::{Editor, RestoreFault, Session};
use s2script::Name;
use s2session::{ReadFault, encode_parts, read_session};
use s2shelf::{OpenedFile, Shelf, ShelfFault};
use std::alloc::{AllocError, Global};

/// The session file of an editor's registers and of both sides of its history: what `encode_session` makes of
/// `Editor::session`.
///
/// Takes one list of as many bytes as the file has. Nothing else is copied.
pub fn session_file(alloc: Global, editor: &Editor) -> Result<Vec<u8>, AllocError>
    ensures { IfOk result (λ bytes. Text editor.now bytes.items) }
{
    let sides = editor.sides();
    encode_parts(alloc, sides.registers, &sides.past, &sides.future)
}

/// Writes the registers and both sides of their history to a file.
pub(crate) fn dump<S: Shelf>(
    alloc: Global,
    editor: &Editor,
    name: &Name<'_>,
    shelf: &mut S,
) -> Answer
    ensures { Dumps name.now (world editor.now (S.files shelf.old)) (reply_of result editor.now)
        (world editor.now (S.files shelf.new)) }
{
    let Ok(bytes) = session_file(alloc, editor) else {
        return Answer::Refused(Refusal::Memory);
    };
    store(shelf, name, bytes.as_slice())
}

/// Takes over the registers and the history of a file. Fetches and reads the file first, then checks depth and limit.
pub(crate) fn restore<S: Shelf>(
    alloc: Global,
    editor: &mut Editor,
    name: &Name<'_>,
    shelf: &mut S,
) -> Answer
    ensures { Restores name.now (world editor.old (S.files shelf.old)) (reply_of result editor.new)
        (world editor.new (S.files shelf.new)) }
{
    match take_over_file(alloc, editor, name.as_str(), shelf) {
        Ok(()) => Answer::Done,
        Err(refusal) => Answer::Refused(refusal),
    }
}

/// Takes over the session in the file under a name, or says why it can't. The file is closed before that.
fn take_over_file<S: Shelf>(
    alloc: Global,
    editor: &mut Editor,
    name: &str,
    shelf: &mut S,
) -> Result<(), Refusal>
    ensures answer { MatchResult result
        (λ _. (bytes : List ℕ) × Finds (S.files shelf.old) name.now (Some bytes) (S.files shelf.new)
        × Restored (Stored bytes) editor.old editor.new)
        (λ refusal. FetchesNoState name.now (S.files shelf.old) editor.old refusal (S.files shelf.new)) }
    ensures err { OnErr result (editor.new ≡ editor.old) }
{
    let session = fetch_session(alloc, shelf, name)?;
    take_over(editor, session)
}

/// The session in the file under a name, or why there is none. Asks the shelf once, and holds nothing of the file but
/// what is read of it at a time.
fn fetch_session<S: Shelf>(alloc: Global, shelf: &mut S, name: &str) -> Result<Session, Refusal>
    ensures content { IfOk result (λ session. IsContent (content_of session)) }
    ensures answer { MatchResult result
        (λ session. (bytes : List ℕ) × Finds (S.files shelf.old) name.now (Some bytes) (S.files shelf.new)
        × Spells bytes (content_of session))
        (λ refusal. (state : History (List ℕ)) →
        FetchesNoState name.now (S.files shelf.old) state refusal (S.files shelf.new)) }
{
    let mut file = open_file(shelf, name)?;
    let read = read_session(alloc, &mut file);
    match shelf.close(file) {
        Ok(()) => session_of(read),
        Err(_) => Err(Refusal::File),
    }
}

/// The session that was read, or why there is none. `Device` doesn't come here: it says that a read of the file failed,
/// and then the closing of the file has failed too, which is answered before.
fn session_of(read: Result<Session, ReadFault>) -> Result<Session, Refusal>
    ensures { ReadAs read result }
{
    match read {
        Ok(session) => Ok(session),
        Err(ReadFault::Form) => Err(Refusal::Session),
        Err(ReadFault::Memory) => Err(Refusal::Memory),
        Err(ReadFault::Device) => Err(Refusal::Memory),
    }
}

/// The file under a name, opened for reading, or why there is none. Asks the shelf once.
fn open_file<S: Shelf>(shelf: &mut S, name: &str) -> Result<OpenedFile<S::File>, Refusal>
    ensures { MatchResult result
        (λ file. Opens S.File.remaining (S.files shelf.old) name.now (Some file) (S.files shelf.new))
        (λ refusal. Fetches name.now (S.files shelf.old) (Err refusal) (S.files shelf.new)) }
{
    match shelf.open(name) {
        Ok(Some(file)) => Ok(file),
        Ok(None) => Err(Refusal::Missing),
        Err(ShelfFault::Device) => Err(Refusal::File),
        Err(ShelfFault::Memory) => Err(Refusal::Memory),
    }
}

/// Takes over the session that the bytes encode, or says why it can't.
#[tactic(auto, using(s2session::proofs::Spelling::restores_bytes))]
fn take_over(editor: &mut Editor, session: Session) -> Result<(), Refusal>
    requires { IsContent (content_of session) }
    ensures answer { (bytes : List ℕ) → Spells bytes (content_of session) → MatchResult result
        (λ _. Restored (Stored bytes) editor.old editor.new)
        (λ refusal. RefusesBytes bytes editor.old refusal) }
    ensures err { OnErr result (editor.new ≡ editor.old) }
{
    match editor.restore(session) {
        Ok(()) => Ok(()),
        Err(fault) => Err(refusal_of(fault)),
    }
}

/// What is answered if the editor doesn't restore a session.
fn refusal_of(fault: RestoreFault) -> Refusal
    ensures { result ≡ refusal_of fault }
{
    match fault {
        RestoreFault::Fit => Refusal::Session,
        RestoreFault::TooDeep => Refusal::TooDeep,
        RestoreFault::TooMany => Refusal::TooMany,
        RestoreFault::Memory => Refusal::Memory,
    }
}
