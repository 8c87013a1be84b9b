//! Ops with their holes filled.

ghost use Rattle.std.specs.Prelude.{◌≡◌, ◌<◌, ◌^◌};
ghost use Rattle.rule_soundness.specs.Prelude.{hole_value as value_of, displaced as displace, filled_op as fill};
ghost use Rattle.rule_match.specs.Bindings.{constant_of as constant};

use ia_codec::{Op, Operand};
use ppc_isa::Instr;
use rule_body::Hole;

/// The immediate of 16 bits of an instruction; 0 where it has none.
pub fn constant_of(instr: &Instr) -> u16
    ensures { result ≡ constant instr.now }
{
    match *instr {
        Instr::Immediate { imm, .. }
        | Instr::LogicImmediate { imm, .. }
        | Instr::Load { imm, .. }
        | Instr::Store { imm, .. }
        | Instr::LoadUpdate { imm, .. }
        | Instr::StoreUpdate { imm, .. }
        | Instr::CompareImmediate { imm, .. } => imm,
        _ => 0,
    }
}

/// The number with which a constant fills a hole.
pub fn hole_value(hole: Hole, constant: u16) -> u32
    ensures { result ≡ value_of hole constant }
{
    let signed = if constant < 0x8000 {
        constant as u32
    } else {
        0xffff_0000 + constant as u32
    };
    match hole {
        Hole::S => signed,
        Hole::Z => constant as u32,
        Hole::H => 65536 * constant as u32,
        Hole::N => signed.wrapping_neg(),
    }
}

fn displaced(operand: Operand, number: u32) -> Operand
    ensures { result ≡ displace number operand }
{
    match operand {
        Operand::Base(base, _) => Operand::Base(base, number),
        Operand::Pair(base, index, scale, _) => Operand::Pair(base, index, scale, number),
        operand => operand,
    }
}

/// An op with a number in the place of its immediate, or else of its displacement.
pub fn filled_op(op: &Op, number: u32) -> Op
    ensures { result ≡ fill number op.now }
{
    match *op {
        Op::AluImm { op, to, .. } => Op::AluImm {
            op,
            to,
            imm: number,
        },
        Op::TestImm { a, .. } => Op::TestImm { a, imm: number },
        Op::MovTo { to, from } => Op::MovTo {
            to: displaced(to, number),
            from,
        },
        Op::MovFrom { to, from } => Op::MovFrom {
            to,
            from: displaced(from, number),
        },
        Op::MovImm { to, .. } => Op::MovImm { to, imm: number },
        Op::MovToImm { to, .. } => Op::MovToImm { to, imm: number },
        Op::MovHalfTo { to, from } => Op::MovHalfTo {
            to: displaced(to, number),
            from,
        },
        Op::MovByteTo { to, from } => Op::MovByteTo {
            to: displaced(to, number),
            from,
        },
        Op::MovByteFrom { to, from } => Op::MovByteFrom {
            to,
            from: displaced(from, number),
        },
        Op::Lea { to, from } => Op::Lea {
            to,
            from: displaced(from, number),
        },
        Op::Extend { op, to, from } => Op::Extend {
            op,
            to,
            from: displaced(from, number),
        },
        op => op,
    }
}
