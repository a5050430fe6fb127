//! The commands whose names are like a word that names none.
ghost use Rattle.std.specs.Prelude.{◌≡◌, ◌≤◌, [], ◌∷◌, length, drop, filter, MatchOption};
ghost use Rattle.s2script.specs.Similar.{shared, are_exchanged, is_edited, is_like, names};

use crate::words::Words;

/// The names of the commands, in the order of the help.
#[tactic(auto, unfolding(crate::specs::Similar::names))]
pub(crate) fn names() -> Words<'static>
    ensures { result ≡ names }
{
    Words::of(
        b"add remove keep union subtract intersect copy clear range outer inner outerof innerof show count denorm has \
          touches covers meets cell at square load save undo redo history dump restore",
    )
}

/// How many bytes both begin with.
#[tactic(auto, using(crate::proofs::SimilarLemmas::shared_more, crate::proofs::SimilarLemmas::shared_end))]
fn shared(xs: &[u8], ys: &[u8]) -> usize
    ensures count { result ≡ shared xs.now ys.now }
    ensures within { (result ≤ length xs.now) × (result ≤ length ys.now) }
{
    let mut count = 0;
    while count < xs.len() && count < ys.len() && xs[count] == ys[count] {
        count += 1;
    }
    count
}

/// What comes after the first byte.
fn after_first(bytes: &[u8]) -> &[u8]
    ensures { result.now ≡ drop 1 bytes.now }
{
    if bytes.is_empty() { bytes } else { &bytes[1..] }
}

/// Whether the first two bytes of one are those of the other, exchanged, and the others are equal.
fn are_exchanged(xs: &[u8], ys: &[u8]) -> bool
    ensures { result ≡ are_exchanged xs.now ys.now }
{
    if xs.len() < 2 || ys.len() < 2 {
        return false;
    }
    let (xs_rest, ys_rest) = (&xs[2..], &ys[2..]);
    xs[0] == ys[1] && xs[1] == ys[0] && xs_rest == ys_rest
}

/// Whether one edit of the first bytes leads from one to the other.
fn is_edited(xs: &[u8], ys: &[u8]) -> bool
    ensures { result ≡ is_edited xs.now ys.now }
{
    let (xs_rest, ys_rest) = (after_first(xs), after_first(ys));
    xs_rest == ys || xs == ys_rest || xs_rest == ys_rest || are_exchanged(xs, ys)
}

/// Whether a word is like a name: one begins with the other, or one edit leads from one to the other.
fn is_like(word: &[u8], name: &[u8]) -> bool
    ensures { result ≡ is_like word.now name.now }
{
    let count = shared(word, name);
    count == word.len() || count == name.len() || is_edited(&word[count..], &name[count..])
}

/// The next of these names that a word is like, if one is left.
pub(crate) fn next_like<'a>(word: &[u8], names: &mut Words<'a>) -> Option<&'a [u8]>
    ensures { MatchOption result (filter (is_like word.now) names.old ≡ [])
        (λ name. filter (is_like word.now) names.old ≡ name.now ∷ filter (is_like word.now) names.new) }
{
    while let Some(name) = names.next() {
        if is_like(word, name) {
            return Some(name);
        }
    }
    None
}
