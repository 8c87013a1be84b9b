//! Bytes in pieces.

ghost use Rattle.std.specs.Prelude.{◌≡◌, ◌↔◌, ◌==◌, ◌++◌, ◌∷◌, MatchOption, IfOk, IsTrue, map};
ghost use Rattle.std.specs.List.{slice_split};
ghost use Rattle.line_text.specs.Lines.{IsFree};

use std::alloc::{AllocError, Global};

/// Whether the word is this one.
pub fn is(word: &[u8], text: &[u8]) -> bool
    ensures { IsTrue result ↔ (word.now ≡ text.now) }
{
    word == text
}

/// The bytes before and after the first separator, or None where there is none.
pub fn cut(text: &[u8], by: u8) -> Option<(&[u8], &[u8])>
    ensures { MatchOption result (IsFree by text.now) (λ r. IsFree by r.0.now × (text.now ≡ r.0.now ++ by ∷ r.1.now)) }
{
    for i in 0..text.len() {
        if text[i] == by {
            return Some((&text[..i], &text[i + 1..]));
        }
    }
    None
}

/// The pieces between separators, of which there is one more than there are separators.
pub fn words(alloc: Global, text: &[u8], by: u8) -> Result<Vec<&[u8]>, AllocError>
    ensures { IfOk result (λ v. map (λ w. w.now) v.items ≡ slice_split (λ b. b == by) text.now) }
{
    let mut words = Vec::new(alloc);
    let mut rest = text;
    while let Some((word, after)) = cut(rest, by) {
        words.push(word)?;
        rest = after;
    }
    words.push(rest)?;
    Ok(words)
}
