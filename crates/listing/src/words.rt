//! The listing of PowerPC code.

ghost use Rattle.std.specs.Prelude.{◌≡◌, ◌+◌, ◌^◌, ◌≤◌, ℕ, Option, length};
ghost use Rattle.std.specs.Int.{w32, to_be_bytes};
ghost use Rattle.outside.specs.Causes.{HasCause};
ghost use Rattle.outside.specs.Streams.{PutsAll};
ghost use Rattle.ppc_isa.specs.declared.instr.Instr.{Instr};
ghost use Rattle.ppc_isa.specs.Legal.{ReadsWords};
ghost use Rattle.listing.specs.Lines.{line};
ghost use Rattle.listing.specs.Words.{word_name, word_lines};

use crate::line::put_line;
use byteorder::{BigEndian, ByteOrder};
use outside::{Failed, Sink};
use ppc_isa::{decode, mnemonic};
use space::Segment;

// The name of a word's instruction.
fn name(word: u32) -> &'static str
    ensures name { (read : ℕ → Option Instr) → ReadsWords read → result.now ≡ word_name (read word) }
    ensures short { length result.now ≤ 8 }
{
    match decode(word) {
        Some(instr) => mnemonic(&instr),
        None => "illegal",
    }
}

fn put_word<S: Sink>(output: &mut S, address: u32, word: u32) -> Result<(), Failed>
    ensures bytes { (read : ℕ → Option Instr) → ReadsWords read
        → PutsAll (S.shown output.old) (S.shown output.new) result (line address (to_be_bytes w32 word) (word_name (read word))) }
    ensures cause { HasCause (S.faults output.old) (S.faults output.new) result }
{
    put_line(output, address, &word.to_be_bytes(), name(word))
}

/// Puts a line for each aligned word that lies whole in the code.
pub fn list_words<S: Sink>(code: &Segment, output: &mut S) -> Result<(), Failed>
    requires { code.now.at + length code.now.bytes ≤ 2 ^ 32 }
    ensures bytes { (read : ℕ → Option Instr) → ReadsWords read
        → PutsAll (S.shown output.old) (S.shown output.new) result (word_lines read code.now code.now.at (length code.now.bytes)) }
    ensures cause { HasCause (S.faults output.old) (S.faults output.new) result }
{
    let bytes = code.bytes.as_slice();
    let mut place = (code.at.wrapping_neg() % 4) as usize;
    while place + 4 <= bytes.len() {
        let word = BigEndian::read_u32(&bytes[place..]);
        put_word(output, code.at + place as u32, word)?;
        place += 4;
    }
    Ok(())
}
