//! What ops cost.

ghost use Rattle.std.specs.Prelude.{◌≡◌};
ghost use Rattle.ia_codec.specs.Cost.{in_memory, memory_operands, work, cost_of};

use crate::op::{Op, Operand, UnaryOp};

/// The price of an op: 1, 2 more for a memory operand (not of lea), 2 more for a multiplication and 19 more for a
/// division.
pub fn cost(op: &Op) -> u32
    ensures { result ≡ cost_of op.now }
{
    1 + 2 * accesses(op) + extra(op)
}

fn accesses(op: &Op) -> u32
    ensures { result ≡ memory_operands op.now }
{
    match *op {
        Op::AluTo { to: operand, .. }
        | Op::AluFrom { from: operand, .. }
        | Op::AluImm { to: operand, .. }
        | Op::TestReg { a: operand, .. }
        | Op::TestImm { a: operand, .. }
        | Op::Unary { on: operand, .. }
        | Op::Imul { from: operand, .. }
        | Op::MovTo { to: operand, .. }
        | Op::MovFrom { from: operand, .. }
        | Op::MovToImm { to: operand, .. }
        | Op::MovHalfTo { to: operand, .. }
        | Op::MovByteTo { to: operand, .. }
        | Op::MovByteFrom { from: operand, .. }
        | Op::Shift { to: operand, .. }
        | Op::ShiftByCl { to: operand, .. }
        | Op::Extend { from: operand, .. }
        | Op::Set { to: operand, .. }
        | Op::Cmov { from: operand, .. }
        | Op::Bsr { from: operand, .. }
        | Op::JmpTo { to: operand } => in_memory(operand),
        Op::Lea { .. } | Op::MovImm { .. } | Op::Bswap { .. } | Op::Cdq => 0,
        Op::Jcc { .. } | Op::Jmp { .. } | Op::Int80 | Op::Int3 | Op::Ud2 => 0,
    }
}

fn in_memory(operand: Operand) -> u32
    ensures { result ≡ in_memory operand }
{
    match operand {
        Operand::Reg(_) => 0,
        Operand::Abs(_) | Operand::Base(..) | Operand::Pair(..) => 1,
    }
}

fn extra(op: &Op) -> u32
    ensures { result ≡ work op.now }
{
    match *op {
        Op::Unary {
            op: UnaryOp::Mul | UnaryOp::Imul1,
            ..
        }
        | Op::Imul { .. } => 2,
        Op::Unary {
            op: UnaryOp::Div | UnaryOp::Idiv,
            ..
        } => 19,
        _ => 0,
    }
}
