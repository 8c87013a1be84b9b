//! The words of lines, at the end of a text.

ghost use Rattle.std.specs.Prelude.{◌≡◌, ◌<◌, ◌++◌, ◌∷◌, ℕ, List, Option, OnOk, map};
ghost use Rattle.std.specs.List.{flat_map};
ghost use Rattle.rule_form.specs.Words.{letter as letter_of, slots_word, chosen, listed, dead_word, hole_letter as letter_of_hole, hole_word, digit as digit_of, take_word, literal_word};
ghost use Rattle.rule_form.specs.Machine.{IsTakeWord};

use crate::names::NAMES;
use line_text::put_decimal;
use rule_body::Hole;
use std::alloc::AllocError;

fn letter(slot: bool) -> u8
    ensures { result ≡ letter_of slot }
{
    if slot { b's' } else { b'h' }
}

/// Appends a letter for each parameter, or a dash.
pub fn put_slots(out: &mut Vec<u8>, slots: &[bool]) -> Result<(), AllocError>
    ensures { OnOk result (out.new.items ≡ out.old.items ++ slots_word slots.now) }
{
    if slots.is_empty() {
        out.push(b'-')?;
        return Ok(());
    }
    for slot in slots {
        out.push(letter(*slot))?;
    }
    Ok(())
}

// Appends the chosen names, with a comma before each.
fn put_more_names(out: &mut Vec<u8>, names: &[&[u8]], bits: u32) -> Result<(), AllocError>
    ensures { OnOk result (out.new.items ≡ out.old.items ++ flat_map (λ w. 44 ∷ w) (chosen (map (λ n. n.now) names.now) bits)) }
{
    let [name, more @ ..] = names else {
        return Ok(());
    };
    if bits % 2 == 1 {
        out.push(b',')?;
        out.extend_from_slice(name)?;
        return put_more_names(out, more, bits / 2);
    }
    put_more_names(out, more, bits / 2)
}

// Appends the chosen names with commas between them, or a dash.
fn put_names(out: &mut Vec<u8>, names: &[&[u8]], bits: u32) -> Result<(), AllocError>
    ensures { OnOk result (out.new.items ≡ out.old.items ++ listed (chosen (map (λ n. n.now) names.now) bits)) }
{
    let [name, more @ ..] = names else {
        out.push(b'-')?;
        return Ok(());
    };
    if bits % 2 == 1 {
        out.extend_from_slice(name)?;
        return put_more_names(out, more, bits / 2);
    }
    put_names(out, more, bits / 2)
}

/// Appends the dead names, or a dash.
pub fn put_dead(out: &mut Vec<u8>, bits: u32) -> Result<(), AllocError>
    ensures { OnOk result (out.new.items ≡ out.old.items ++ dead_word bits) }
{
    put_names(out, &NAMES, bits)
}

fn hole_letter(hole: Hole) -> u8
    ensures { result ≡ letter_of_hole hole }
{
    match hole {
        Hole::S => b's',
        Hole::Z => b'z',
        Hole::H => b'h',
        Hole::N => b'n',
    }
}

/// Appends a hole and its word's number, or a dash.
pub fn put_hole(out: &mut Vec<u8>, hole: Option<(Hole, u8)>) -> Result<(), AllocError>
    ensures { OnOk result (out.new.items ≡ out.old.items ++ hole_word hole) }
{
    match hole {
        None => out.push(b'-')?,
        Some((hole, word)) => {
            out.push(hole_letter(hole))?;
            put_decimal(out, word as u64)?;
        }
    }
    Ok(())
}

fn digit(number: u8) -> u8
    requires { number < 16 }
    ensures { result ≡ digit_of number }
{
    if number < 10 {
        b'0' + number
    } else {
        87 + number
    }
}

/// Appends a condition's digit, or a dash.
pub fn put_take(out: &mut Vec<u8>, take: Option<u8>) -> Result<(), AllocError>
    requires { IsTakeWord take }
    ensures { OnOk result (out.new.items ≡ out.old.items ++ take_word take) }
{
    match take {
        None => out.push(b'-')?,
        Some(condition) => out.push(digit(condition))?,
    }
    Ok(())
}

/// Appends a literal.
pub fn put_literal(out: &mut Vec<u8>, literal: i32) -> Result<(), AllocError>
    ensures { OnOk result (out.new.items ≡ out.old.items ++ literal_word literal) }
{
    if literal < 0 {
        out.push(b'-')?;
    }
    put_decimal(out, literal.unsigned_abs() as u64)
}
