//! What standard error gets.
ghost use Rattle.std.specs.Prelude.{◌≡◌, ◌⊎◌, ℕ, List, Ok, IfSome, string_bytes, map};
ghost use Rattle.std.specs.Fmt.{WritesInCalls};
ghost use Rattle.s2process.specs.Working.Errors.{TellsMore};
ghost use Rattle.s2process.specs.Errors.{IsSaidAfter, fault_line, fault_line_of, usage_text};
ghost use Rattle.s2process.specs.Errors.{misnamed_line, misnamed_lines};

use crate::writer::ListedWriter;
use s2calc::{RunFault, Sink, emit};
use s2script::{TextSink, misnamed_in, put_part};
use std::alloc::Global;

/// Tells a text. If a call fails, the rest of it is left out.
fn tell<E: Sink>(errors: &mut ListedWriter<E>, text: &[u8])
    ensures { TellsMore text.now errors.old errors.new }
{
    let _ = emit(errors, text);
}

/// Tells that the words of the command line make no sense, and what is wrong with them.
pub(crate) fn tell_usage<E: Sink>(errors: &mut ListedWriter<E>, wrong: &[u8])
    ensures { TellsMore (usage_text wrong.now) errors.old errors.new }
{
    match emit(errors, b"s2calc: usage\n") {
        Ok(()) => tell(errors, wrong),
        Err(_) => {}
    }
}

/// Tells what failed, if anything did.
pub(crate) fn tell_failure<T, E: Sink>(outcome: &Result<T, RunFault>, errors: &mut ListedWriter<E>)
    ensures { TellsMore (fault_line_of outcome.now) errors.old errors.new }
{
    match outcome {
        Ok(_) => {}
        Err(fault) => tell_fault(errors, *fault),
    }
}

/// Tells what failed, or if an answer is a refusal what is wrong with the words that are no names of files.
pub(crate) fn tell_of_answer<E: Sink>(
    alloc: Global,
    outcome: &Result<bool, RunFault>,
    words: &[String],
    errors: &mut ListedWriter<E>,
)
    ensures { (text : List ℕ) × IsSaidAfter (misnamed_lines (map string_bytes words.now)) outcome.now text
        × TellsMore text errors.old errors.new }
{
    match outcome {
        Ok(passed) => tell_of_refusal(alloc, *passed, words, errors),
        Err(fault) => tell_fault(errors, *fault),
    }
}

/// Tells, unless an answer has passed, what is wrong with the words that are no names of files.
fn tell_of_refusal<E: Sink>(
    alloc: Global,
    passed: bool,
    words: &[String],
    errors: &mut ListedWriter<E>,
)
    ensures { (text : List ℕ) × IsSaidAfter (misnamed_lines (map string_bytes words.now)) (Ok passed) text
        × TellsMore text errors.old errors.new }
{
    if passed {
        return;
    }
    tell_misnamed(alloc, errors, words);
}

/// Tells what failed.
fn tell_fault<E: Sink>(errors: &mut ListedWriter<E>, fault: RunFault)
    ensures { TellsMore (fault_line fault) errors.old errors.new }
{
    match fault {
        RunFault::Input => tell(errors, b"s2calc: input\n"),
        RunFault::Output => tell(errors, b"s2calc: output\n"),
        RunFault::Memory => tell(errors, b"s2calc: memory\n"),
    }
}

/// Tells of each word that is no file's name why, and what to write in place of a path. Nothing is said if there is no
/// memory for that.
fn tell_misnamed<E: Sink>(alloc: Global, errors: &mut ListedWriter<E>, words: &[String])
    ensures { TellsMore (misnamed_lines (map string_bytes words.now)) errors.old errors.new
        ⊎ (errors.new ≡ errors.old) }
{
    match misnamed_lines(alloc, words) {
        Some(lines) => tell(errors, lines.as_slice()),
        None => {}
    }
}

/// A text that is made in memory. If there is none for a part, that is lost.
#[derive(Drop)]
struct TextInMemory {
    bytes: Vec<u8>,
    lost: bool,
}

impl TextSink for TextInMemory {
    ghost use Rattle.s2process.specs.Working.Errors.{Puts};

    ghost puts = { Puts };

    fn put(&mut self, part: &[u8]) {
        match self.bytes.extend_from_slice(part) {
            Ok(()) => {}
            Err(_) => self.lost = true,
        }
    }
}

/// Of each word that is no file's name the line that says why, if there is memory for all of them.
fn misnamed_lines(alloc: Global, words: &[String]) -> Option<Vec<u8>>
    ensures { IfSome result (λ lines. lines.items ≡ misnamed_lines (map string_bytes words.now)) }
{
    let mut lines = TextInMemory {
        bytes: Vec::new(alloc),
        lost: false,
    };
    put_misnamed_lines(words, &mut lines);
    if lines.lost { None } else { Some(lines.bytes) }
}

/// Puts of each word that is no file's name the line that says why.
#[tactic(auto, using(s2script::proofs::TextLemmas::parts))]
fn put_misnamed_lines<T: TextSink>(words: &[String], text: &mut T)
    ensures { WritesInCalls T.puts text.old (misnamed_lines (map string_bytes words.now)) text.new }
{
    for word in words {
        put_misnamed_line(word.as_str(), text);
    }
}

/// Puts the line on a word, if it is no file's name.
#[tactic(auto, using(s2script::proofs::TextLemmas::parts))]
fn put_misnamed_line<T: TextSink>(word: &str, text: &mut T)
    ensures { WritesInCalls T.puts text.old (misnamed_line word.now) text.new }
{
    match misnamed_in(word.as_bytes()) {
        Some(misnamed) => {
            put_part(b"s2calc: ", text);
            misnamed.put_text(text);
            put_part(b"\n", text);
        }
        None => {}
    }
}
