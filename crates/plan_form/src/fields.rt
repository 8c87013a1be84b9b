//! Words of a plan text.

ghost use Rattle.std.specs.Prelude.{◌≡◌, ◌≢◌, ◌↔◌, ◌<◌, ℕ, MatchOption, IsTrue, Option};
ghost use Rattle.machines.specs.Prelude.{IsHeld, IsMap};
ghost use Rattle.ppc_isa.specs.Map.{AreApart};
ghost use Rattle.ppc_isa.specs.declared.map.Map.{Map as TheMap};
ghost use Rattle.plan_form.specs.Texts.{slot_word, content_word, map_word};

use line_text::{cut, is};
use outside::decimal;
use ppc_isa::Map;

/// The slot of this name.
pub fn slot_of(word: &[u8]) -> Option<u8>
    ensures { MatchOption result ((s : ℕ) → s < 3 → word.now ≢ slot_word s) (λ s. (s < 3) × (word.now ≡ slot_word s)) }
{
    if is(word, b"ebx") {
        return Some(0);
    }
    if is(word, b"esi") {
        return Some(1);
    }
    if is(word, b"edi") {
        return Some(2);
    }
    None
}

// What a slot holds.
fn content_of(word: &[u8]) -> Option<Option<u8>>
    ensures { MatchOption result ((e : Option ℕ) → IsHeld e → word.now ≢ content_word e) (λ e. IsHeld e × (word.now ≡ content_word e)) }
{
    if is(word, b"-") {
        return Some(None);
    }
    let Some((first, digits)) = word.split_first() else {
        return None;
    };
    if *first != b'r' {
        return None;
    }
    let Some(gpr) = decimal(digits, 31) else {
        return None;
    };
    Some(Some(gpr as u8))
}

// Whether two slots don't hold one GPR.
fn are_apart(one: Option<u8>, other: Option<u8>) -> bool
    ensures { IsTrue result ↔ AreApart one other }
{
    match (one, other) {
        (Some(one), Some(other)) => one != other,
        _ => true,
    }
}

// Whether no two slots hold one GPR.
fn are_all_apart(ebx: Option<u8>, esi: Option<u8>, edi: Option<u8>) -> bool
    ensures { IsTrue result ↔ (AreApart ebx esi × AreApart ebx edi × AreApart esi edi) }
{
    are_apart(ebx, esi) && are_apart(ebx, edi) && are_apart(esi, edi)
}

/// The map that a word writes.
pub fn map_of(word: &[u8]) -> Option<Map>
    ensures { MatchOption result ((m : TheMap) → IsMap m → word.now ≢ map_word m) (λ m. IsMap m × (word.now ≡ map_word m)) }
{
    let Some((first, rest)) = cut(word, b',') else {
        return None;
    };
    let Some((second, third)) = cut(rest, b',') else {
        return None;
    };
    let Some(ebx) = content_of(first) else {
        return None;
    };
    let Some(esi) = content_of(second) else {
        return None;
    };
    let Some(edi) = content_of(third) else {
        return None;
    };
    if are_all_apart(ebx, esi, edi) {
        Some(Map { ebx, esi, edi })
    } else {
        None
    }
}
