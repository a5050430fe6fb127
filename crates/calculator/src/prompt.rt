//! A prompt for who types a script.
ghost use Rattle.std.specs.Prelude.{◌≡◌};

use s2calc::Source;
use std::io;
use std::io::Write;

/// What is shown before each read.
const PROMPT: &[u8] = b"s2calc> ";

/// A reader that shows a prompt before each read, and ends the prompt's line at the end and if a read fails, if that is
/// wanted. A prompt that can't be written is left out. The reads give what the reader below gives.
#[derive(Drop)]
pub(crate) struct PromptingReader<R, W> {
    reader: R,
    terminal: W,
    prompts: bool,
}

impl<R: Drop, W: Drop> PromptingReader<R, W> {
    /// A reader that shows its prompts there, if they are wanted.
    pub(crate) fn new(reader: R, terminal: W, prompts: bool) -> PromptingReader<R, W>
        ensures { result.reader ≡ reader }
    {
        PromptingReader {
            reader,
            terminal,
            prompts,
        }
    }
}

impl<R: Source, W: Write> Source for PromptingReader<R, W> {
    ghost remaining = { λ p. R.remaining p.reader };

    ghost given = { λ p. R.given p.reader };

    ghost reads = { λ p. R.reads p.reader };

    fn read(&mut self, buf: &mut [u8]) -> io::Result<usize> {
        if self.prompts {
            let _ = self.terminal.write_all(PROMPT);
        }
        let result = self.reader.read(buf);
        if self.prompts && matches!(result, Ok(0) | Err(_)) {
            let _ = self.terminal.write_all(b"\n");
        }
        result
    }
}
