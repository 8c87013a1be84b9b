//! The names of what may be dead.

ghost use Rattle.std.specs.Prelude.{◌≡◌, ◌≢◌, ◌<◌, ◌≤◌, ◌^◌, ◌∷◌, ℕ, List, length, map, IfOk, MatchOption};
ghost use Rattle.rule_form.specs.Words.{chosen, dead_word};
ghost use Rattle.rule_form.specs.Names.{Differ};

use line_text::{is, words};
use std::alloc::{AllocError, Global};

/// p1 to p6, lr, ctr, cr0 to cr7, ca, so, ov, xc.
pub const NAMES: [&[u8]; 20] = [
    b"p1", b"p2", b"p3", b"p4", b"p5", b"p6", b"lr", b"ctr", b"cr0", b"cr1", b"cr2", b"cr3",
    b"cr4", b"cr5", b"cr6", b"cr7", b"ca", b"so", b"ov", b"xc",
];

// The pieces behind the first, if that is this name.
fn behind<'a, 'b>(pieces: &'a [&'b [u8]], name: &[u8]) -> Option<&'a [&'b [u8]]>
    ensures { MatchOption result
        ((rest : List (List ℕ)) → map (λ p. p.now) pieces.now ≢ name.now ∷ rest)
        (λ rest. map (λ p. p.now) pieces.now ≡ name.now ∷ map (λ p. p.now) rest.now) }
{
    let [piece, rest @ ..] = pieces else {
        return None;
    };
    if is(piece, name) { Some(rest) } else { None }
}

// The bits of the names that the pieces are, in their order.
fn bits_of(names: &[&[u8]], pieces: &[&[u8]]) -> Option<u32>
    requires few { length names.now ≤ 20 }
    requires differ { Differ (map (λ n. n.now) names.now) }
    ensures { MatchOption result
        ((b : ℕ) → b < 2 ^ length names.now → map (λ p. p.now) pieces.now ≢ chosen (map (λ n. n.now) names.now) b)
        (λ b. (b < 2 ^ length names.now) × (map (λ p. p.now) pieces.now ≡ chosen (map (λ n. n.now) names.now) b)) }
{
    let [name, more @ ..] = names else {
        return if pieces.is_empty() { Some(0) } else { None };
    };
    if let Some(rest) = behind(pieces, name) {
        let Some(bits) = bits_of(more, rest) else {
            return None;
        };
        return Some(2 * bits + 1);
    }
    let Some(bits) = bits_of(more, pieces) else {
        return None;
    };
    Some(2 * bits)
}

/// The set of the dead names that a word lists, or the empty one for a dash.
pub fn dead_of(alloc: Global, word: &[u8]) -> Result<Option<u32>, AllocError>
    ensures { IfOk result (λ o. MatchOption o
        ((b : ℕ) → b < 2 ^ 20 → word.now ≢ dead_word b)
        (λ b. (b < 2 ^ 20) × (word.now ≡ dead_word b))) }
{
    if is(word, b"-") {
        return Ok(Some(0));
    }
    let pieces = words(alloc, word, b',')?;
    Ok(bits_of(&NAMES, &pieces))
}
