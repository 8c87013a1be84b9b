//! Words of a line.

ghost use Rattle.std.specs.Prelude.{◌≡◌, ◌≢◌, ◌<◌, ◌≤◌, ◌^◌, ◌∷◌, [], ℕ, List, Bool, Option, length, take, map, MatchOption, codes, if◌then◌else◌};
ghost use Rattle.hex.specs.Hex.{encode_lower};
ghost use Rattle.ia_codec.specs.Prelude.{spelling, IsInProfile};
ghost use Rattle.ia_codec.specs.declared.op.Op.{Op as TheOp};
ghost use Rattle.rule_body.specs.declared.line.Hole.{Hole as TheHole};
ghost use Rattle.rule_form.specs.Words.{letter, slots_word, hole_letter, hole_word, digit, take_word};
ghost use Rattle.rule_form.specs.Machine.{IsHoleWord, IsTakeWord};
ghost use Rattle.rule_form.specs.Slots.{AreSlots};

use ia_codec::{Op, decode, encode};
use line_text::{is, is_hexadecimal};
use outside::decimal;
use rule_body::Hole;

/// The places of at most six parameters, true for a slot. What is past `count` is false.
#[derive(Clone, Copy)]
pub struct Slots {
    pub slots: [bool; 6],
    pub count: u8,
}

/// Whether a word is free: `any` or `lit`.
pub fn freedom_of(word: &[u8]) -> Option<bool>
    ensures { MatchOption result ((f : Bool) → word.now ≢ (if f then codes "any" else codes "lit")) (λ f. word.now ≡ (if f then codes "any" else codes "lit")) }
{
    if is(word, b"any") {
        return Some(true);
    }
    if is(word, b"lit") {
        return Some(false);
    }
    None
}

fn letter_of(byte: u8) -> Option<bool>
    ensures { MatchOption result ((s : Bool) → byte ≢ letter s) (λ s. byte ≡ letter s) }
{
    match byte {
        b's' => Some(true),
        b'h' => Some(false),
        _ => None,
    }
}

/// The places that the letters say, or none for a dash.
pub fn slots_of(word: &[u8]) -> Option<Slots>
    ensures { MatchOption result
        ((s : List Bool) → length s ≤ 6 → word.now ≢ slots_word s)
        (λ s. AreSlots s × (word.now ≡ slots_word (take s.count s.slots))) }
{
    let mut slots = [false; 6];
    if is(word, b"-") {
        return Some(Slots { slots, count: 0 });
    }
    if word.is_empty() || word.len() > 6 {
        return None;
    }
    for i in 0..word.len() {
        let Some(slot) = letter_of(word[i]) else {
            return None;
        };
        slots[i] = slot;
    }
    Some(Slots {
        slots,
        count: word.len() as u8,
    })
}

fn hole_with(byte: u8) -> Option<Hole>
    ensures { MatchOption result ((h : TheHole) → byte ≢ hole_letter h) (λ h. byte ≡ hole_letter h) }
{
    match byte {
        b's' => Some(Hole::S),
        b'z' => Some(Hole::Z),
        b'h' => Some(Hole::H),
        b'n' => Some(Hole::N),
        _ => None,
    }
}

/// The hole that a word says: a letter and a number, or none for a dash.
pub fn hole_of(word: &[u8]) -> Option<Option<(Hole, u8)>>
    ensures { MatchOption result
        ((o : Option (TheHole × ℕ)) → IsHoleWord o → word.now ≢ hole_word o)
        (λ o. IsHoleWord o × (word.now ≡ hole_word o)) }
{
    if is(word, b"-") {
        return Some(None);
    }
    let Some((first, digits)) = word.split_first() else {
        return None;
    };
    let Some(hole) = hole_with(*first) else {
        return None;
    };
    let Some(number) = decimal(digits, 255) else {
        return None;
    };
    Some(Some((hole, number as u8)))
}

fn digit_of(byte: u8) -> Option<u8>
    ensures { MatchOption result ((d : ℕ) → d < 16 → byte ≢ digit d) (λ d. (d < 16) × (byte ≡ digit d)) }
{
    match byte {
        b'0'..=b'9' => Some(byte - b'0'),
        b'a'..=b'f' => Some(byte - 87),
        _ => None,
    }
}

/// The condition that a digit says, or none for a dash.
pub fn take_of(word: &[u8]) -> Option<Option<u8>>
    ensures { MatchOption result
        ((o : Option ℕ) → IsTakeWord o → word.now ≢ take_word o)
        (λ o. IsTakeWord o × (word.now ≡ take_word o)) }
{
    if is(word, b"-") {
        return Some(None);
    }
    let [byte] = word else {
        return None;
    };
    let Some(condition) = digit_of(*byte) else {
        return None;
    };
    Some(Some(condition))
}

// The op whose spelling is all of the bytes, if the text is theirs.
fn op_in(text: &[u8], bytes: &[u8]) -> Option<Op>
    ensures { MatchOption result
        ((op : TheOp) → IsInProfile op → bytes.now ≡ spelling op → text.now ≢ encode_lower (spelling op))
        (λ op. IsInProfile op × (text.now ≡ encode_lower (spelling op))) }
{
    let Some((op, _)) = decode(bytes) else {
        return None;
    };
    let spelled = encode(&op);
    if is_hexadecimal(text, &spelled.bytes[..spelled.len as usize]) {
        Some(op)
    } else {
        None
    }
}

/// The op whose spelling a word has in hexadecimal.
pub fn op_of(word: &[u8]) -> Option<Op>
    ensures { MatchOption result
        ((op : TheOp) → IsInProfile op → word.now ≢ encode_lower (spelling op))
        (λ op. IsInProfile op × (word.now ≡ encode_lower (spelling op))) }
{
    let mut bytes = [0; 12];
    let len = word.len() / 2;
    if len > 12 {
        return None;
    }
    if hex::decode_to_slice(word, &mut bytes[..len]).is_err() {
        return None;
    }
    op_in(word, &bytes[..len])
}
