//! Bytes from the left.

ghost use Rattle.std.specs.Prelude.{◌≡◌};
ghost use Rattle.ia_codec.specs.Reading.{Gives, byte_at, dword_at, modrm_at, alu_to_at, alu_from_at, alu_of_number, shift_of_number, alu_imm_at, shift_at, shift_by_cl_at, unary_of_number, after_f7_at, extend_at, after_66_at, conditional_at, after_0f_at, plain_op, plain_at, mov_to_imm_at, read};

use crate::op::{AluOp, Condition, ExtendOp, Op, Operand, ShiftOp, UnaryOp};

#[tactic(auto, unfolding(crate::specs::Reading::byte_at))]
pub(crate) fn byte_of(bytes: &[u8]) -> Option<(u8, &[u8])>
    ensures { Gives (λ x. (x.0, x.1.now)) result (byte_at bytes.now) }
{
    match bytes {
        [first, rest @ ..] => Some((*first, rest)),
        [] => None,
    }
}

#[tactic(auto, unfolding(crate::specs::Reading::dword_at))]
pub(crate) fn dword_of(bytes: &[u8]) -> Option<(u32, &[u8])>
    ensures { Gives (λ x. (x.0, x.1.now)) result (dword_at bytes.now) }
{
    if bytes.len() < 4 {
        return None;
    }
    let (front, rest) = bytes.split_at(4);
    let number = u32::from_le_bytes([front[0], front[1], front[2], front[3]]);
    Some((number, rest))
}

#[tactic(auto, unfolding(crate::specs::Reading::modrm_at))]
pub(crate) fn modrm_of(bytes: &[u8]) -> Option<(u8, Operand, &[u8])>
    ensures { Gives (λ x. (x.0, x.1, x.2.now)) result (modrm_at bytes.now) }
{
    let (m, rest) = byte_of(bytes)?;
    let number = m >> 3 & 7;
    match (m >> 6, m & 7) {
        (3, reg) => Some((number, Operand::Reg(reg), rest)),
        (0, 5) => {
            let (d, rest) = dword_of(rest)?;
            Some((number, Operand::Abs(d), rest))
        }
        (2, 4) => {
            let (s, rest) = byte_of(rest)?;
            let (d, rest) = dword_of(rest)?;
            Some((number, Operand::Pair(s & 7, s >> 3 & 7, s >> 6, d), rest))
        }
        (2, base) => {
            let (d, rest) = dword_of(rest)?;
            Some((number, Operand::Base(base, d), rest))
        }
        _ => None,
    }
}

#[tactic(auto, unfolding(crate::specs::Reading::alu_to_at))]
fn alu_to(op: AluOp, bytes: &[u8]) -> Option<(Op, &[u8])>
    ensures { Gives (λ x. (x.0, x.1.now)) result (alu_to_at op bytes.now) }
{
    let (from, to, rest) = modrm_of(bytes)?;
    Some((Op::AluTo { op, to, from }, rest))
}

#[tactic(auto, unfolding(crate::specs::Reading::alu_from_at))]
fn alu_from(op: AluOp, bytes: &[u8]) -> Option<(Op, &[u8])>
    ensures { Gives (λ x. (x.0, x.1.now)) result (alu_from_at op bytes.now) }
{
    let (to, from, rest) = modrm_of(bytes)?;
    Some((Op::AluFrom { op, to, from }, rest))
}

#[tactic(auto, unfolding(crate::specs::Reading::alu_of_number))]
fn alu_of(number: u8) -> AluOp
    ensures { result ≡ alu_of_number number }
{
    match number {
        0 => AluOp::Add,
        1 => AluOp::Or,
        2 => AluOp::Adc,
        3 => AluOp::Sbb,
        4 => AluOp::And,
        5 => AluOp::Sub,
        6 => AluOp::Xor,
        _ => AluOp::Cmp,
    }
}

#[tactic(auto, unfolding(crate::specs::Reading::shift_of_number))]
fn shift_of(number: u8) -> Option<ShiftOp>
    ensures { result ≡ shift_of_number number }
{
    match number {
        0 => Some(ShiftOp::Rol),
        1 => Some(ShiftOp::Ror),
        4 => Some(ShiftOp::Shl),
        5 => Some(ShiftOp::Shr),
        7 => Some(ShiftOp::Sar),
        _ => None,
    }
}

#[tactic(auto, unfolding(crate::specs::Reading::alu_imm_at))]
fn alu_imm(bytes: &[u8]) -> Option<(Op, &[u8])>
    ensures { Gives (λ x. (x.0, x.1.now)) result (alu_imm_at bytes.now) }
{
    let (number, to, rest) = modrm_of(bytes)?;
    let (imm, rest) = dword_of(rest)?;
    Some((
        Op::AluImm {
            op: alu_of(number),
            to,
            imm,
        },
        rest,
    ))
}

#[tactic(auto, unfolding(crate::specs::Reading::shift_at))]
fn shift(bytes: &[u8]) -> Option<(Op, &[u8])>
    ensures { Gives (λ x. (x.0, x.1.now)) result (shift_at bytes.now) }
{
    let (number, to, rest) = modrm_of(bytes)?;
    let op = shift_of(number)?;
    let (by, rest) = byte_of(rest)?;
    Some((Op::Shift { op, to, by }, rest))
}

#[tactic(auto, unfolding(crate::specs::Reading::shift_by_cl_at))]
fn shift_by_cl(bytes: &[u8]) -> Option<(Op, &[u8])>
    ensures { Gives (λ x. (x.0, x.1.now)) result (shift_by_cl_at bytes.now) }
{
    let (number, to, rest) = modrm_of(bytes)?;
    let op = shift_of(number)?;
    Some((Op::ShiftByCl { op, to }, rest))
}

#[tactic(auto, unfolding(crate::specs::Reading::unary_of_number))]
fn unary_of(number: u8) -> Option<UnaryOp>
    ensures { result ≡ unary_of_number number }
{
    match number {
        2 => Some(UnaryOp::Not),
        3 => Some(UnaryOp::Neg),
        4 => Some(UnaryOp::Mul),
        5 => Some(UnaryOp::Imul1),
        6 => Some(UnaryOp::Div),
        7 => Some(UnaryOp::Idiv),
        _ => None,
    }
}

#[tactic(auto, unfolding(crate::specs::Reading::after_f7_at))]
fn after_f7(bytes: &[u8]) -> Option<(Op, &[u8])>
    ensures { Gives (λ x. (x.0, x.1.now)) result (after_f7_at bytes.now) }
{
    let (number, operand, rest) = modrm_of(bytes)?;
    if number == 0 {
        let (imm, rest) = dword_of(rest)?;
        return Some((Op::TestImm { a: operand, imm }, rest));
    }
    let op = unary_of(number)?;
    Some((Op::Unary { op, on: operand }, rest))
}

#[tactic(auto, unfolding(crate::specs::Reading::after_66_at))]
fn after_66(bytes: &[u8]) -> Option<(Op, &[u8])>
    ensures { Gives (λ x. (x.0, x.1.now)) result (after_66_at bytes.now) }
{
    let (opcode, rest) = byte_of(bytes)?;
    match opcode {
        0x89 => {
            let (from, to, rest) = modrm_of(rest)?;
            Some((Op::MovHalfTo { to, from }, rest))
        }
        _ => None,
    }
}

#[tactic(auto, unfolding(crate::specs::Reading::extend_at))]
fn extend(op: ExtendOp, bytes: &[u8]) -> Option<(Op, &[u8])>
    ensures { Gives (λ x. (x.0, x.1.now)) result (extend_at op bytes.now) }
{
    let (to, from, rest) = modrm_of(bytes)?;
    Some((Op::Extend { op, to, from }, rest))
}

// After 0F, an opcode with a condition in its low four bits.
#[tactic(auto, unfolding(crate::specs::Reading::conditional_at))]
fn conditional(opcode: u8, bytes: &[u8]) -> Option<(Op, &[u8])>
    ensures { Gives (λ x. (x.0, x.1.now)) result (conditional_at opcode bytes.now) }
{
    let condition = Condition::from_code(opcode & 15)?;
    if opcode >> 4 == 8 {
        let (rel, rest) = dword_of(bytes)?;
        return Some((Op::Jcc { condition, rel }, rest));
    }
    let (to, operand, rest) = modrm_of(bytes)?;
    if opcode >> 4 == 4 {
        return Some((
            Op::Cmov {
                condition,
                to,
                from: operand,
            },
            rest,
        ));
    }
    Some((
        Op::Set {
            condition,
            to: operand,
        },
        rest,
    ))
}

#[tactic(auto, unfolding(crate::specs::Reading::after_0f_at))]
fn after_0f(bytes: &[u8]) -> Option<(Op, &[u8])>
    ensures { Gives (λ x. (x.0, x.1.now)) result (after_0f_at bytes.now) }
{
    let (opcode, rest) = byte_of(bytes)?;
    if opcode >> 4 == 4 || opcode >> 4 == 8 || opcode >> 4 == 9 {
        return conditional(opcode, rest);
    }
    if opcode >> 3 == 25 {
        return Some((Op::Bswap { reg: opcode & 7 }, rest));
    }
    match opcode {
        0x0b => Some((Op::Ud2, rest)),
        0xaf => {
            let (to, from, rest) = modrm_of(rest)?;
            Some((Op::Imul { to, from }, rest))
        }
        0xb6 => extend(ExtendOp::MovzxByte, rest),
        0xb7 => extend(ExtendOp::MovzxHalf, rest),
        0xbd => {
            let (to, from, rest) = modrm_of(rest)?;
            Some((Op::Bsr { to, from }, rest))
        }
        0xbe => extend(ExtendOp::MovsxByte, rest),
        0xbf => extend(ExtendOp::MovsxHalf, rest),
        _ => None,
    }
}

// An opcode of one byte with ModRM and nothing after its operand.
#[tactic(auto, unfolding(crate::specs::Reading::plain_op))]
fn plain_op(opcode: u8, reg: u8, operand: Operand) -> Option<Op>
    ensures { result ≡ plain_op opcode reg operand }
{
    match opcode {
        0x85 => Some(Op::TestReg { a: operand, b: reg }),
        0x88 => Some(Op::MovByteTo {
            to: operand,
            from: reg,
        }),
        0x89 => Some(Op::MovTo {
            to: operand,
            from: reg,
        }),
        0x8a => Some(Op::MovByteFrom {
            to: reg,
            from: operand,
        }),
        0x8b => Some(Op::MovFrom {
            to: reg,
            from: operand,
        }),
        0x8d => Some(Op::Lea {
            to: reg,
            from: operand,
        }),
        0xff => Some(Op::JmpTo { to: operand }),
        _ => None,
    }
}

#[tactic(auto, unfolding(crate::specs::Reading::plain_at))]
fn plain(opcode: u8, bytes: &[u8]) -> Option<(Op, &[u8])>
    ensures { Gives (λ x. (x.0, x.1.now)) result (plain_at opcode bytes.now) }
{
    let (reg, operand, rest) = modrm_of(bytes)?;
    let op = plain_op(opcode, reg, operand)?;
    Some((op, rest))
}

#[tactic(auto, unfolding(crate::specs::Reading::mov_to_imm_at))]
fn mov_to_imm(bytes: &[u8]) -> Option<(Op, &[u8])>
    ensures { Gives (λ x. (x.0, x.1.now)) result (mov_to_imm_at bytes.now) }
{
    let (_, to, rest) = modrm_of(bytes)?;
    let (imm, rest) = dword_of(rest)?;
    Some((Op::MovToImm { to, imm }, rest))
}

// The op that the bytes can begin with at most, and the bytes after it.
#[tactic(auto, unfolding(crate::specs::Reading::read))]
pub(crate) fn candidate(bytes: &[u8]) -> Option<(Op, &[u8])>
    ensures { Gives (λ x. (x.0, x.1.now)) result (read bytes.now) }
{
    let (opcode, rest) = byte_of(bytes)?;
    if opcode >> 6 == 0 && opcode & 7 == 1 {
        return alu_to(alu_of(opcode >> 3), rest);
    }
    if opcode >> 6 == 0 && opcode & 7 == 3 {
        return alu_from(alu_of(opcode >> 3), rest);
    }
    if opcode >> 3 == 23 {
        let (imm, rest) = dword_of(rest)?;
        return Some((
            Op::MovImm {
                to: opcode & 7,
                imm,
            },
            rest,
        ));
    }
    match opcode {
        0x0f => after_0f(rest),
        0x66 => after_66(rest),
        0x81 => alu_imm(rest),
        0x99 => Some((Op::Cdq, rest)),
        0xc1 => shift(rest),
        0xc7 => mov_to_imm(rest),
        0xcc => Some((Op::Int3, rest)),
        0xcd => {
            let (_, rest) = byte_of(rest)?;
            Some((Op::Int80, rest))
        }
        0xd3 => shift_by_cl(rest),
        0xe9 => {
            let (rel, rest) = dword_of(rest)?;
            Some((Op::Jmp { rel }, rest))
        }
        0xf7 => after_f7(rest),
        _ => plain(opcode, rest),
    }
}
