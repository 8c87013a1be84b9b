//! Compares.

ghost use Rattle.std.specs.Prelude.{◌≡◌, ◌<◌, ◌++◌, IfOk};
ghost use Rattle.symbolic_tiles.specs.Prelude.{field_ops};
ghost use Rattle.base_alu.specs.Compares.{compare_immediate_ops, compare_ops};

use crate::recording::{Ops, comparing};
use ia_codec::{AluOp, Condition};
use ppc_isa::{CompareImmediateOp, CompareOp};
use reg_map::{EAX, signed_immediate};
use std::alloc::Global;
use symbolic_tiles::SymbolicOp::{Alu, AluImmediate, Mov};
use symbolic_tiles::SymbolicOperand::Location;

/// cmpi and cmpli
///
/// # Errors
/// Where there is no memory.
pub fn compare_immediate(alloc: Global, op: CompareImmediateOp, field: u8, a: u8, imm: u16) -> Ops
    requires { field < 8 }
    ensures { IfOk result (λ ops. ops.items ≡ compare_immediate_ops op field a imm) }
{
    let (number, less) = match op {
        CompareImmediateOp::Cmpi => (signed_immediate(imm), Condition::Less),
        CompareImmediateOp::Cmpli => (imm as u32, Condition::Below),
    };
    comparing(
        alloc,
        &[Mov(EAX, Location(a)), AluImmediate(AluOp::Cmp, EAX, number)],
        field,
        less,
    )
}

/// cmp and cmpl
///
/// # Errors
/// Where there is no memory.
pub fn compare(alloc: Global, op: CompareOp, field: u8, a: u8, b: u8) -> Ops
    requires { field < 8 }
    ensures { IfOk result (λ ops. ops.items ≡ compare_ops op field a b) }
{
    let less = match op {
        CompareOp::Cmp => Condition::Less,
        CompareOp::Cmpl => Condition::Below,
    };
    comparing(
        alloc,
        &[Mov(EAX, Location(a)), Alu(AluOp::Cmp, EAX, Location(b))],
        field,
        less,
    )
}
