//! Texts that are put somewhere part by part.
ghost use Rattle.std.specs.Prelude.{decimal, encode_utf8};
ghost use Rattle.std.specs.Fmt.{WritesInCalls};

use itoa::Buffer;

/// Where a text is put, part by part. No call fails: what can fail below remembers that it did, as a writer of notes
/// does.
pub trait TextSink {
    ghost use Rattle.std.specs.Prelude.{List, ℕ};

    // relates this before a part was put, the bytes of the part, and this after it
    ghost puts: { Self → List ℕ → Self → Type 0 };

    /// Puts a part.
    fn put(&mut self, part: &[u8])
        ensures { puts self.old part.now self.new };
}

/// Puts a text that is one part.
pub fn put_part<T: TextSink>(part: &[u8], text: &mut T)
    ensures { WritesInCalls T.puts text.old part.now text.new }
{
    text.put(part);
}

/// Puts a number, in decimal digits.
pub fn put_number<T: TextSink>(number: u64, text: &mut T)
    ensures { WritesInCalls T.puts text.old (decimal number) text.new }
{
    let mut buffer = Buffer::new();
    put_part(buffer.format(number).as_bytes(), text);
}

/// Puts a character.
pub(crate) fn put_char<T: TextSink>(char: char, text: &mut T)
    ensures { WritesInCalls T.puts text.old (encode_utf8 char) text.new }
{
    let mut bytes = [0u8; 4];
    put_part(char.encode_utf8(&mut bytes).as_bytes(), text);
}
