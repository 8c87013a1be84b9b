//! Which ops are in the profile.

ghost use Rattle.std.specs.Prelude.{◌↔◌, IsTrue};
ghost use Rattle.ia_codec.specs.Spelling.{IsInProfile, IsReg, IsOperand, IsMemory, IsSum, IsByte};

use crate::op::{ExtendOp, Op, Operand};

fn is_reg(r: u8) -> bool
    ensures { IsTrue result ↔ IsReg r }
{
    r < 8 && r != 4 && r != 5
}

fn is_operand(operand: Operand) -> bool
    ensures { IsTrue result ↔ IsOperand operand }
{
    match operand {
        Operand::Reg(m) => is_reg(m),
        Operand::Abs(_) => true,
        Operand::Base(b, _) => is_reg(b),
        Operand::Pair(b, x, s, _) => is_reg(b) && is_reg(x) && s < 4,
    }
}

fn is_memory(operand: Operand) -> bool
    ensures { IsTrue result ↔ IsMemory operand }
{
    !matches!(operand, Operand::Reg(_)) && is_operand(operand)
}

fn is_sum(operand: Operand) -> bool
    ensures { IsTrue result ↔ IsSum operand }
{
    matches!(operand, Operand::Base(..) | Operand::Pair(..)) && is_operand(operand)
}

fn is_byte(operand: Operand) -> bool
    ensures { IsTrue result ↔ IsByte operand }
{
    match operand {
        Operand::Reg(m) => m < 3,
        _ => is_operand(operand),
    }
}

fn is_in_profile(op: Op) -> bool
    ensures { IsTrue result ↔ IsInProfile op }
{
    match op {
        Op::AluTo { to, from, .. } | Op::MovTo { to, from } => is_operand(to) && is_reg(from),
        Op::AluFrom { to, from, .. } | Op::MovFrom { to, from } => is_reg(to) && is_memory(from),
        Op::AluImm { to, .. } => is_operand(to),
        Op::TestReg { a, b } => is_operand(a) && is_reg(b),
        Op::TestImm { a, .. } => is_operand(a),
        Op::Unary { on, .. } => is_operand(on),
        Op::Imul { to, from } | Op::Bsr { to, from } | Op::Cmov { to, from, .. } => is_reg(to)
            && is_operand(from),
        Op::MovImm { to, .. } => is_reg(to),
        Op::MovToImm { to, .. } => is_memory(to),
        Op::MovHalfTo { to, from } => is_memory(to) && is_reg(from),
        Op::MovByteTo { to, from } => is_memory(to) && from < 3,
        Op::MovByteFrom { to, from } => to < 3 && is_memory(from),
        Op::Shift { to, by, .. } => is_operand(to) && by < 32,
        Op::ShiftByCl { to, .. } | Op::JmpTo { to } => is_operand(to),
        Op::Lea { to, from } => is_reg(to) && is_sum(from),
        Op::Extend {
            op: ExtendOp::MovzxByte | ExtendOp::MovsxByte,
            to,
            from,
        } => { is_reg(to) && is_byte(from) }
        Op::Extend { to, from, .. } => is_reg(to) && is_operand(from),
        Op::Bswap { reg } => is_reg(reg),
        Op::Set { to, .. } => is_byte(to),
        Op::Cdq | Op::Jcc { .. } | Op::Jmp { .. } | Op::Int80 | Op::Int3 | Op::Ud2 => true,
    }
}

/// Whether an op is in the profile: its registers are eax, ecx, edx, ebx, esi or edi (al, cl or dl where it takes a byte),
/// its operands of the kinds that its encoding takes, and a count at most 31.
pub fn in_profile(op: &Op) -> bool
    ensures { IsTrue result ↔ IsInProfile op.now }
{
    is_in_profile(*op)
}
