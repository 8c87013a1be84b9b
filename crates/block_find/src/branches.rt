//! Where branches lead.
ghost use Rattle.std.specs.Prelude.{◌≡◌, ◌≢◌, ◌≤◌, ◌<◌, ◌+◌, ◌*◌, ◌^◌, ℕ, Bool, MatchOption, length};
ghost use Rattle.machines.specs.Prelude.{IsLegal, branch_target};
ghost use Rattle.block_find.specs.Branches.{Names, address_of as address, named_address as named_address_of};

use crate::code::Code;
use ppc_isa::{Instr, decode};

/// The address of the code word at a place, where the first one stands at `first`.
pub fn address_of(first: u32, place: usize) -> u32
    requires few { place ≤ 131072 }
    requires low { first + 4 * place < 2 ^ 32 }
    ensures { result ≡ address first place }
{
    first + 4 * place as u32
}

/// The place of the code word at the address `at`, where one of `count` from `first` on stands there.
fn place_at(first: u32, at: u32, count: usize) -> Option<usize>
    requires few { count ≤ 131072 }
    requires low { first + 4 * count < 2 ^ 32 }
    ensures { MatchOption result ((k : ℕ) → k < count → at ≢ address first k) (λ k. (k < count) × (at ≡ address first k)) }
{
    let offset = at.wrapping_sub(first);
    let place = (offset / 4) as usize;
    if offset % 4 == 0 && place < count {
        Some(place)
    } else {
        None
    }
}

/// The target of the unconditional branch at `at`, by its field in words.
fn far_target(field: u32, absolute: bool, at: u32) -> u32
    requires { field < 2 ^ 24 }
    ensures { result ≡ branch_target 24 field absolute at }
{
    let forward = 4 * field;
    let offset = if forward < 0x0200_0000 {
        forward
    } else {
        forward + 0xFC00_0000
    };
    if absolute {
        offset
    } else {
        at.wrapping_add(offset)
    }
}

/// The target of the conditional branch at `at`, by its field in words.
fn near_target(field: u16, absolute: bool, at: u32) -> u32
    requires { field < 2 ^ 14 }
    ensures { result ≡ branch_target 14 field absolute at }
{
    let forward = 4 * field as u32;
    let offset = if forward < 0x8000 {
        forward
    } else {
        forward + 0xFFFF_0000
    };
    if absolute {
        offset
    } else {
        at.wrapping_add(offset)
    }
}

/// The address that a legal instruction at `at` names: the target of a b or bc, with LK or without.
pub fn named_address(instr: &Instr, at: u32) -> Option<u32>
    requires { IsLegal instr.now }
    ensures { result ≡ named_address_of instr.now at }
{
    match *instr {
        Instr::Branch {
            target,
            absolute,
            ..
        } => Some(far_target(target, absolute, at)),
        Instr::BranchConditional {
            target,
            absolute,
            ..
        } => Some(near_target(target, absolute, at)),
        _ => None,
    }
}

/// The place of the code word that the one at this place names, if it names one.
pub fn named_place(code: &Code<'_>, place: usize) -> Option<usize>
    requires { place < length code.now.words.now }
    ensures { MatchOption result
        ((k : ℕ) → k < length code.now.words.now → ¬ (Names code.now.first code.now.words.now place k))
        (λ named. (named < length code.now.words.now) × Names code.now.first code.now.words.now place named
        × ((k : ℕ) → Names code.now.first code.now.words.now place k → k ≡ named)) }
{
    match decode(code.words[place]) {
        Some(instr) => match named_address(&instr, address_of(code.first, place)) {
            Some(address) => place_at(code.first, address, code.words.len()),
            None => None,
        },
        None => None,
    }
}
