//! The names of ops.

ghost use Rattle.std.specs.Prelude.{◌≡◌};
ghost use Rattle.ia_codec.specs.Names.{alu_name, shift_name, unary_name, extend_name, name_of};

use crate::op::{AluOp, ExtendOp, Op, ShiftOp, UnaryOp};

/// The name of an op: every mov is `mov`, and a condition is written `cc`.
pub fn mnemonic(op: &Op) -> &'static str
    ensures { result.now ≡ name_of op.now }
{
    match *op {
        Op::AluTo { op, .. } | Op::AluFrom { op, .. } | Op::AluImm { op, .. } => alu_name(op),
        Op::TestReg { .. } | Op::TestImm { .. } => "test",
        Op::Unary { op, .. } => unary_name(op),
        Op::Imul { .. } => "imul",
        Op::MovTo { .. } | Op::MovFrom { .. } | Op::MovImm { .. } | Op::MovToImm { .. } => "mov",
        Op::MovHalfTo { .. } | Op::MovByteTo { .. } | Op::MovByteFrom { .. } => "mov",
        Op::Shift { op, .. } | Op::ShiftByCl { op, .. } => shift_name(op),
        Op::Lea { .. } => "lea",
        Op::Extend { op, .. } => extend_name(op),
        Op::Bswap { .. } => "bswap",
        Op::Set { .. } => "setcc",
        Op::Cmov { .. } => "cmovcc",
        Op::Bsr { .. } => "bsr",
        Op::Cdq => "cdq",
        Op::Jcc { .. } => "jcc",
        Op::Jmp { .. } => "jmp",
        Op::JmpTo { .. } => "jmpi",
        Op::Int80 => "int80",
        Op::Int3 => "int3",
        Op::Ud2 => "ud2",
    }
}

fn alu_name(op: AluOp) -> &'static str
    ensures { result.now ≡ alu_name op }
{
    match op {
        AluOp::Add => "add",
        AluOp::Or => "or",
        AluOp::Adc => "adc",
        AluOp::Sbb => "sbb",
        AluOp::And => "and",
        AluOp::Sub => "sub",
        AluOp::Xor => "xor",
        AluOp::Cmp => "cmp",
    }
}

fn shift_name(op: ShiftOp) -> &'static str
    ensures { result.now ≡ shift_name op }
{
    match op {
        ShiftOp::Rol => "rol",
        ShiftOp::Ror => "ror",
        ShiftOp::Shl => "shl",
        ShiftOp::Shr => "shr",
        ShiftOp::Sar => "sar",
    }
}

fn unary_name(op: UnaryOp) -> &'static str
    ensures { result.now ≡ unary_name op }
{
    match op {
        UnaryOp::Not => "not",
        UnaryOp::Neg => "neg",
        UnaryOp::Mul => "mul",
        UnaryOp::Imul1 => "imul1",
        UnaryOp::Div => "div",
        UnaryOp::Idiv => "idiv",
    }
}

fn extend_name(op: ExtendOp) -> &'static str
    ensures { result.now ≡ extend_name op }
{
    match op {
        ExtendOp::MovzxByte => "movzx",
        ExtendOp::MovzxHalf => "movzx",
        ExtendOp::MovsxByte => "movsx",
        ExtendOp::MovsxHalf => "movsx",
    }
}
