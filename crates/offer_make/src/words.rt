//! The words of a block, and the GPRs that they use.

ghost use Rattle.std.specs.Prelude.{◌<◌, ◌≤◌, ◌↔◌, ◌⊎◌, IsTrue, IfOk, IsBitSet, Contains, length};
ghost use Rattle.machines.specs.Prelude.{IsLegal, locations_read, locations_written};
ghost use Rattle.offer_make.specs.Candidates.{Uses, IsCount};
ghost use Rattle.offer_make.specs.Problem.{AreReadAs};

use ppc_isa::{Instr, Locs, decode, reads, writes};
use std::alloc::Global;
use word_kit::NoMemory;

/// The words, each decoded; None is an illegal word.
pub fn decoded_words(alloc: Global, words: &[u32]) -> Result<Vec<Option<Instr>>, NoMemory>
    ensures { IfOk result (λ decoded. AreReadAs words.now decoded.items) }
{
    let mut decoded = Vec::new(alloc);
    for word in words {
        decoded.push(decode(*word))?;
    }
    Ok(decoded)
}

// Whether the location is in the set.
fn is_in(set: &Locs, location: u8) -> bool
    requires { location < 46 }
    ensures { IsTrue result ↔ IsBitSet set.now.bits location }
{
    (set.bits >> location) & 1 == 1
}

// Whether the instruction reads or writes the GPR.
fn is_used(instr: &Instr, gpr: u8) -> bool
    requires legal { IsLegal instr.now }
    requires gpr { gpr < 32 }
    ensures { IsTrue result ↔ Contains (locations_read instr.now) gpr ⊎ Contains (locations_written instr.now) gpr }
{
    is_in(&reads(instr), gpr) || is_in(&writes(instr), gpr)
}

// Whether the word reads or writes the GPR.
fn uses(word: u32, gpr: u8) -> bool
    requires { gpr < 32 }
    ensures { IsTrue result ↔ Uses word gpr }
{
    match decode(word) {
        Some(instr) => is_used(&instr, gpr),
        None => false,
    }
}

/// How many of the words use the GPR.
pub fn use_count(words: &[u32], gpr: u8) -> usize
    requires { gpr < 32 }
    ensures count { IsCount words.now gpr result }
    ensures within { result ≤ length words.now }
{
    let mut count = 0;
    for word in words {
        if uses(*word, gpr) {
            count += 1;
        }
    }
    count
}
