//! Words whose literals are taken from others, without any gate.

ghost use Rattle.std.specs.Prelude.{false, ◌≡◌, ◌<◌, ◌≤◌, ◌^◌};
ghost use Rattle.word_kit.specs.Prelude.{bit_of};
ghost use Rattle.circuit.specs.Literals.{word_reach_below};
ghost use Rattle.circuit.specs.WordsMade.{word_of, lit_bits, not_bits, byte_bits, join_bits, moved_by, moved, at};

use crate::literals::Lit;

/// How the bits of a word move: to the left, to the right with zeros, to the right with copies of the sign, or around to
/// the left.
#[derive(Clone, Copy)]
pub enum Turn {
    Left,
    Right,
    Arith,
    Rotate,
}

/// Any word.
pub fn blank() -> [Lit; 32] {
    [Lit::Const(false); 32]
}

/// The bit of a number.
fn bit_of_number(value: u32, place: usize) -> bool
    requires { place < 32 }
    ensures { result ≡ bit_of value place }
{
    value >> place & 1 == 1
}

/// The word that is this number.
pub fn literal_word(value: u32) -> [Lit; 32]
    ensures { result ≡ word_of (lit_bits value) 32 }
{
    let mut out = blank();
    for i in 0..32 {
        out[i] = Lit::Const(bit_of_number(value, i));
    }
    out
}

/// All bits turned over.
pub fn complement_of(x: [Lit; 32]) -> [Lit; 32]
    requires { word_reach_below 32 x < 2 ^ 31 }
    ensures made { result ≡ word_of (not_bits x) 32 }
    ensures owned { word_reach_below 32 result ≤ word_reach_below 32 x }
{
    let mut out = x;
    for i in 0..32 {
        out[i] = x[i].flip();
    }
    out
}

/// The literal of a place of the byte `k`.
fn byte_source(x: [Lit; 32], k: u8, i: usize) -> Lit
    requires { k < 4 }
    ensures { result ≡ byte_bits x k i }
{
    if i < 8 {
        x[8 * k as usize + i]
    } else {
        Lit::Const(false)
    }
}

/// The byte `k` as a word.
pub fn byte_word(x: [Lit; 32], k: u8) -> [Lit; 32]
    requires { k < 4 }
    ensures { result ≡ word_of (byte_bits x k) 32 }
{
    let mut out = x;
    for i in 0..32 {
        out[i] = byte_source(x, k, i);
    }
    out
}

/// The literal of a place of the word of four low bytes.
fn join_source(b3: [Lit; 32], b2: [Lit; 32], b1: [Lit; 32], b0: [Lit; 32], i: usize) -> Lit
    requires { i < 32 }
    ensures { result ≡ join_bits b3 b2 b1 b0 i }
{
    if i < 8 {
        b0[i]
    } else if i < 16 {
        b1[i - 8]
    } else if i < 24 {
        b2[i - 16]
    } else {
        b3[i - 24]
    }
}

/// The word of four low bytes, the highest first.
pub fn joined(b3: [Lit; 32], b2: [Lit; 32], b1: [Lit; 32], b0: [Lit; 32]) -> [Lit; 32]
    ensures { result ≡ word_of (join_bits b3 b2 b1 b0) 32 }
{
    let mut out = b0;
    for i in 0..32 {
        out[i] = join_source(b3, b2, b1, b0, i);
    }
    out
}

/// The literal that moves to the place `i`.
fn source(turn: Turn, x: [Lit; 32], n: usize, i: usize) -> Lit
    requires n_within { n ≤ 32 }
    requires i_within { i < 32 }
    ensures { result ≡ moved_by (Lit.Const false) turn n (at x) i }
{
    match turn {
        Turn::Left => { if i < n { Lit::Const(false) } else { x[i - n] } }
        Turn::Right => {
            if i + n < 32 {
                x[i + n]
            } else {
                Lit::Const(false)
            }
        }
        Turn::Arith => { if i + n < 32 { x[i + n] } else { x[31] } }
        Turn::Rotate => { if i < n { x[i + 32 - n] } else { x[i - n] } }
    }
}

/// The word whose bits have moved by `n`.
pub fn moved_word(turn: Turn, x: [Lit; 32], n: usize) -> [Lit; 32]
    requires { n ≤ 32 }
    ensures made { result ≡ moved turn x n }
    ensures owned { word_reach_below 32 result ≤ word_reach_below 32 x }
{
    let mut out = x;
    for i in 0..32 {
        out[i] = source(turn, x, n, i);
    }
    out
}
