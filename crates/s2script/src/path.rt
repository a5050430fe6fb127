//! A word that is no file's name, and may be the path of a file.
ghost use Rattle.std.specs.Prelude.{◌≡◌, ◌≤◌, length, take, drop};
ghost use Rattle.std.specs.Fmt.{WritesInCalls};
ghost use Rattle.s2script.specs.Paths.{folder_length, misnamed_word, is_path, instead, advice, reason_text};
ghost use Rattle.s2script.specs.Paths.{misnamed_text};

use crate::misfit::Wanted;
use crate::misfit_text::{put_bytes, put_unfit};
use crate::name::name_in;
use crate::text::{TextSink, put_part};
use std::marker::Model;

/// A word that is not a file's name. It is shown with the reason, as in the note on a line; and if it is a path whose
/// last part is a name, with the words that name the folder and the file.
#[derive(Drop)]
pub struct Misnamed<'a> {
    word: &'a [u8],
}

impl<'a> Model for Misnamed<'a> {
    ghost use Rattle.std.specs.Prelude.{List, ℕ};

    ghost Value = { List ℕ };

    ghost view = { λ m. m.word.now };
}

/// The word, if it is not a file's name.
pub fn misnamed_in(word: &[u8]) -> Option<Misnamed<'_>>
    ensures { result ≡ misnamed_word word.now }
{
    match name_in(word) {
        Some(_) => None,
        None => Some(Misnamed { word }),
    }
}

/// How many bytes of a path name the folder: those up to the last slash, and the slash.
fn folder_len(word: &[u8]) -> usize
    ensures len { result ≡ folder_length word.now }
    ensures within { result ≤ length word.now }
{
    let mut len = 0;
    let mut index = 0;
    for byte in word {
        index += 1;
        if *byte == b'/' {
            len = index;
        }
    }
    len
}

/// Whether a word is a path that ends with a file's name: it has this folder, and this last part.
fn is_path(folder: &[u8], name: &[u8]) -> bool
    ensures { result ≡ is_path folder.now name.now }
{
    !folder.is_empty() && name_in(name).is_some()
}

/// Puts the words that name a folder and a file in it.
#[tactic(auto, using(crate::proofs::TextLemmas::parts))]
fn put_instead<T: TextSink>(folder: &[u8], name: &[u8], text: &mut T)
    ensures { WritesInCalls T.puts text.old (instead folder.now name.now) text.new }
{
    put_part(b"; write --dir '", text);
    put_bytes(folder, text);
    put_part(b"' ", text);
    put_bytes(name, text);
}

/// Puts what to write in place of a path, if the word is one.
fn put_advice<T: TextSink>(folder: &[u8], name: &[u8], text: &mut T)
    ensures { WritesInCalls T.puts text.old (advice folder.now name.now) text.new }
{
    if is_path(folder, name) {
        put_instead(folder, name, text);
    }
}

/// Puts what to write in place of a word whose folder has this length, if the word is a path.
fn put_advice_at<T: TextSink>(word: &[u8], len: usize, text: &mut T)
    requires { len ≤ length word.now }
    ensures { WritesInCalls T.puts text.old (advice (take len word.now) (drop len word.now)) text.new }
{
    put_advice(&word[..len], &word[len..], text);
}

/// Puts why a word is not a name.
#[tactic(auto, unfolding(crate::specs::Paths::reason_text))]
fn put_reason<T: TextSink>(word: &[u8], text: &mut T)
    ensures { WritesInCalls T.puts text.old (reason_text word.now) text.new }
{
    put_unfit(word, Wanted::FileName, text);
}

impl<'a> Misnamed<'a> {
    /// Puts all that is said of the word.
    #[tactic(auto, using(crate::proofs::TextLemmas::parts), unfolding(crate::specs::Paths::misnamed_text))]
    pub fn put_text<T: TextSink>(&self, text: &mut T)
        ensures { WritesInCalls T.puts text.old (misnamed_text self.now) text.new }
    {
        put_reason(self.word, text);
        put_advice_at(self.word, folder_len(self.word), text);
    }
}
