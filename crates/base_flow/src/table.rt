//! The table of tiles.

ghost use Rattle.std.specs.Prelude.{◌≡◌, ◌↔◌, true, IfOk, IsTrue};
ghost use Rattle.machines.specs.Prelude.{IsLegal};
ghost use Rattle.row_laws.specs.FlowWords.{is_flow as is_flow_word};
ghost use Rattle.base_flow.specs.Tile.{IsBuilt, items_of};

use crate::branches::{branch, branch_conditional, branch_register};
use crate::branching::{next_address, short_target, target};
use crate::items::Items;
use crate::system_call::system_call;
use crate::traps::{trap, trap_immediate};
use ppc_isa::Instr;
use std::alloc::Global;

/// Whether the instruction is a flow word: a branch, a trap or sc.
pub fn is_flow(instr: &Instr) -> bool
    ensures { result ≡ is_flow_word instr.now }
{
    matches!(
        *instr,
        Instr::Branch { .. }
            | Instr::BranchConditional { .. }
            | Instr::BranchRegister { .. }
            | Instr::Trap { .. }
            | Instr::TrapImmediate { .. }
            | Instr::SystemCall
    )
}

/// Whether the instruction has a tile here.
pub fn is_built(instr: &Instr) -> bool
    ensures { IsTrue result ↔ IsBuilt instr.now }
{
    is_flow(instr)
}

/// The tile of the flow word at the guest address.
///
/// # Errors
/// Where there is no memory for it.
pub fn items(alloc: Global, instr: &Instr, at: u32) -> Items
    requires legal { IsLegal instr.now }
    requires flow { is_flow_word instr.now ≡ true }
    ensures { IfOk result (λ items. items.items ≡ items_of instr.now at) }
{
    let next = next_address(at);
    match *instr {
        Instr::Branch {
            target: field,
            absolute,
            link,
        } => branch(alloc, target(field, absolute, at), link, next),
        Instr::BranchConditional {
            bo,
            bi,
            target: field,
            absolute,
            link,
        } => branch_conditional(alloc, bo, bi, short_target(field, absolute, at), link, next),
        Instr::BranchRegister { op, bo, bi, link } => branch_register(
            alloc, op, bo, bi, link, next,
        ),
        Instr::Trap { to, a, b } => trap(alloc, to, a, b, next),
        Instr::TrapImmediate { to, a, imm } => trap_immediate(alloc, to, a, imm, next),
        Instr::SystemCall => system_call(alloc, next),
        _ => unreachable!(),
    }
}
