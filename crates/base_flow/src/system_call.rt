//! The tile of sc: the guest's call by int 0x80.

ghost use Rattle.std.specs.Prelude.{◌≡◌, IfOk};
ghost use Rattle.base_flow.specs.SystemCall.{selection_items};

use crate::items::Items;
use ia_codec::{AluOp, Condition};
use reg_map::{EAX, ECX, EDX};
use std::alloc::Global;
use symbolic_tiles::SymbolicOp::{
    AluImmediate, FetchByte, Mov, MovImmediate, Negate, Put, PutByte,
};
use symbolic_tiles::SymbolicOperand::{Location, Temporary};
use symbolic_tiles::TileItem::{BranchTo, Do, Interrupt, JumpIf, Label, LoadEbx};

// The label of the guest's exit_group, which has another number on the host.
const EXIT_GROUP: u8 = 0;
// The label of the call.
const REQUEST: u8 = 1;
// The label where eax has an error's number, negated.
const FAILED: u8 = 2;
// The label where ecx has an error's number.
const ERROR: u8 = 3;
// The label behind both answers.
const DONE: u8 = 4;
// The location of the first field of CR.
const CR0: u8 = 34;

/// The tile of sc, with the next instruction's address.
///
/// # Errors
/// Where there is no memory for it.
#[tactic(auto, unfolding(crate::specs::SystemCall::selection_items, crate::specs::SystemCall::request_items, crate::specs::SystemCall::answer_items, crate::specs::SystemCall::success_items, crate::specs::SystemCall::failure_items, crate::specs::SystemCall::error_items, crate::specs::SystemCall::done_items))]
pub fn system_call(alloc: Global, next: u32) -> Items
    ensures { IfOk result (λ items. items.items ≡ selection_items next) }
{
    Ok(vec![in alloc;
        Do(Mov(EAX, Location(0))),
        Do(AluImmediate(AluOp::Cmp, EAX, 234)),
        JumpIf(Some(Condition::Equal), EXIT_GROUP),
        Do(AluImmediate(AluOp::Cmp, EAX, 1)),
        JumpIf(Some(Condition::Equal), REQUEST),
        Do(AluImmediate(AluOp::Cmp, EAX, 3)),
        JumpIf(Some(Condition::Equal), REQUEST),
        Do(AluImmediate(AluOp::Cmp, EAX, 4)),
        JumpIf(Some(Condition::Equal), REQUEST),
        Do(AluImmediate(AluOp::Cmp, EAX, 6)),
        JumpIf(Some(Condition::Equal), REQUEST),
        Do(MovImmediate(ECX, 38)),
        JumpIf(None, ERROR),
        Label(EXIT_GROUP),
        Do(MovImmediate(EAX, 252)),
        Label(REQUEST),
        LoadEbx(3),
        Do(Mov(ECX, Location(4))),
        Do(Mov(EDX, Location(5))),
        Interrupt,
        Do(AluImmediate(AluOp::Cmp, EAX, 0xFFFF_F001)),
        JumpIf(Some(Condition::NotBelow), FAILED),
        Do(Put(3, EAX)),
        Do(FetchByte(ECX, CR0)),
        Do(AluImmediate(AluOp::And, ECX, 14)),
        Do(PutByte(CR0, ECX)),
        JumpIf(None, DONE),
        Label(FAILED),
        Do(Negate(EAX)),
        Do(Mov(ECX, Temporary(EAX))),
        Label(ERROR),
        Do(Put(3, ECX)),
        Do(FetchByte(ECX, CR0)),
        Do(AluImmediate(AluOp::Or, ECX, 1)),
        Do(PutByte(CR0, ECX)),
        Label(DONE),
        BranchTo(next),
    ]?)
}
