//! Code words as what liveness needs of them.
ghost use Rattle.std.specs.Prelude.{◌≡◌, ◌+◌, ◌<◌, ◌^◌, ◌↔◌, ℕ, IfOk, length};
ghost use Rattle.machines.specs.Prelude.{IsLegal};
ghost use Rattle.block_find.specs.Prelude.{Names};
ghost use Rattle.liveness.specs.Live.{CountsAsRead, falls_through as falls_through_of, is_always as is_always_of, is_call as is_call_of, leads_anywhere as leads_anywhere_of};
ghost use Rattle.liveness.specs.Flows.{Has, AreFlowsOf, IsFlowOf};

use crate::flow::Flow;
use crate::growth::unwritten;
use block_find::{Code, named_place};
use ppc_isa::{Instr, decode, reads, writes};
use std::alloc::Global;
use word_kit::NoMemory;

const EVERY_LOCATION: u64 = (1 << 46) - 1;

fn leads_anywhere(instr: &Instr) -> bool
    ensures { result ≡ leads_anywhere_of instr.now }
{
    matches!(*instr, Instr::BranchRegister { .. })
}

fn is_call(instr: &Instr) -> bool
    ensures { result ≡ is_call_of instr.now }
{
    matches!(*instr, Instr::SystemCall)
}

fn is_always(bo: u8) -> bool
    ensures { result ≡ is_always_of bo }
{
    bo / 16 % 2 == 1 && bo / 4 % 2 == 1
}

fn falls_through(instr: &Instr) -> bool
    ensures { result ≡ falls_through_of instr.now }
{
    match *instr {
        Instr::Branch { .. } => false,
        Instr::BranchConditional { bo, .. } | Instr::BranchRegister { bo, .. } => !is_always(bo),
        _ => true,
    }
}

/// The locations that count as read at a legal instruction.
fn read_set(instr: &Instr) -> u64
    requires { IsLegal instr.now }
    ensures each { (l : ℕ) → Has result l ↔ CountsAsRead instr.now l }
    ensures few { result < 2 ^ 46 }
{
    let read = reads(instr).bits;
    if leads_anywhere(instr) {
        read | EVERY_LOCATION
    } else if is_call(instr) {
        read | unwritten(EVERY_LOCATION, writes(instr).bits)
    } else {
        read
    }
}

/// The place of the code word that the one at this place names, or a number past the words.
fn target(code: &Code<'_>, place: usize) -> u32
    requires { place < length code.now.words.now }
    ensures { (s : ℕ) → s < length code.now.words.now → result ≡ s ↔ Names code.now.first code.now.words.now place s }
{
    match named_place(code, place) {
        Some(named) => named as u32,
        None => u32::MAX,
    }
}

/// What liveness needs of the code word at a place.
fn flow_of(code: &Code<'_>, place: usize) -> Flow
    requires { place < length code.now.words.now }
    ensures { IsFlowOf code.now.first code.now.words.now place result }
{
    let target = target(code, place);
    match decode(code.words[place]) {
        Some(instr) => Flow {
            reads: read_set(&instr),
            writes: writes(&instr).bits,
            falls: falls_through(&instr),
            target,
        },
        None => Flow {
            reads: 0,
            writes: 0,
            falls: false,
            target,
        },
    }
}

/// What liveness needs of all code words.
pub fn flows(alloc: Global, code: &Code<'_>) -> Result<Vec<Flow>, NoMemory>
    ensures { IfOk result (λ flows. AreFlowsOf code.now.first code.now.words.now flows.items) }
{
    let mut flows = Vec::with_capacity(alloc, code.words.len())?;
    for place in 0..code.words.len() {
        flows.push(flow_of(code, place))?;
    }
    Ok(flows)
}
