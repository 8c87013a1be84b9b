//! The tiles of tw and twi.

ghost use Rattle.std.specs.Prelude.{◌≡◌, ◌<◌, IfOk};
ghost use Rattle.base_flow.specs.Traps.{trap_items, tw_ops, twi_ops};

use crate::items::{Items, doing, when_jump};
use ia_codec::{AluOp, Condition};
use reg_map::{EAX, signed_immediate};
use std::alloc::Global;
use symbolic_tiles::SymbolicOp::{self, Alu, AluImmediate, Mov};
use symbolic_tiles::SymbolicOperand::Location;
use symbolic_tiles::TileItem::{BranchTo, Label, Trap};

// On the tests that TO chooses the run ends.
fn tests(alloc: Global, to: u8, compared: &[SymbolicOp], next: u32) -> Items
    requires { to < 32 }
    ensures { IfOk result (λ items. items.items ≡ trap_items to compared.now next) }
{
    if to == 0 {
        return Ok(vec![in alloc; BranchTo(next)]?);
    }
    let ends = vec![in alloc; BranchTo(next), Label(0), Trap]?;
    let above = when_jump(alloc, to % 2 == 1, Condition::Above, ends.as_slice())?;
    let below = when_jump(alloc, to / 2 % 2 == 1, Condition::Below, above.as_slice())?;
    let equal = when_jump(alloc, to / 4 % 2 == 1, Condition::Equal, below.as_slice())?;
    let greater = when_jump(alloc, to / 8 % 2 == 1, Condition::Greater, equal.as_slice())?;
    let less = when_jump(alloc, to / 16 % 2 == 1, Condition::Less, greater.as_slice())?;
    doing(alloc, compared, less.as_slice())
}

/// The tile of tw.
///
/// # Errors
/// Where there is no memory for it.
pub fn trap(alloc: Global, to: u8, a: u8, b: u8, next: u32) -> Items
    requires { to < 32 }
    ensures { IfOk result (λ items. items.items ≡ trap_items to (tw_ops a b) next) }
{
    tests(
        alloc,
        to,
        &[Mov(EAX, Location(a)), Alu(AluOp::Cmp, EAX, Location(b))],
        next,
    )
}

/// The tile of twi.
///
/// # Errors
/// Where there is no memory for it.
pub fn trap_immediate(alloc: Global, to: u8, a: u8, imm: u16, next: u32) -> Items
    requires { to < 32 }
    ensures { IfOk result (λ items. items.items ≡ trap_items to (twi_ops a imm) next) }
{
    tests(
        alloc,
        to,
        &[
            Mov(EAX, Location(a)),
            AluImmediate(AluOp::Cmp, EAX, signed_immediate(imm)),
        ],
        next,
    )
}
