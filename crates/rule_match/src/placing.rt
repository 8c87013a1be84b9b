//! Ops with the registers and homes of a binding.

ghost use Rattle.std.specs.Prelude.{◌≡◌, [], ◌-◌};
ghost use Rattle.rule_soundness.specs.Prelude.{slot_register as register_for, register_of as register, offset_of as offset_for, placed_operand as operand_for, placed as op_for};
ghost use Rattle.rule_match.specs.Bindings.{match_of, gpr_of as gpr};

use crate::binding::Binding;
use ia_codec::{Op, Operand};

// The register of a slot.
fn slot_register(slot: u8) -> u8
    ensures { result ≡ register_for slot }
{
    match slot {
        0 => 3,
        1 => 6,
        _ => 7,
    }
}

fn register_of(binding: &Binding, r: u8) -> u8
    ensures { result ≡ register (match_of [] binding.now) r }
{
    match r {
        3 => slot_register(binding.slot[0]),
        6 => slot_register(binding.slot[1]),
        7 => slot_register(binding.slot[2]),
        r => r,
    }
}

/// The GPR of a parameter by its number; 0 where there is none.
pub fn gpr_of(binding: &Binding, p: u32) -> u8
    ensures { result ≡ gpr binding.now p }
{
    match binding.gpr.get(p.saturating_sub(1) as usize) {
        Some(gpr) => *gpr,
        None => 0,
    }
}

fn offset_of(binding: &Binding, offset: u32) -> u32
    ensures { result ≡ offset_for (match_of [] binding.now) offset }
{
    if offset < 128 {
        4 * gpr_of(binding, offset / 4) as u32 + offset % 4
    } else {
        offset
    }
}

fn placed_operand(binding: &Binding, operand: Operand) -> Operand
    ensures { result ≡ operand_for (match_of [] binding.now) operand }
{
    match operand {
        Operand::Reg(r) => Operand::Reg(register_of(binding, r)),
        Operand::Abs(offset) => Operand::Abs(offset_of(binding, offset)),
        Operand::Base(base, displacement) => {
            Operand::Base(register_of(binding, base), displacement)
        }
        Operand::Pair(base, index, scale, displacement) => Operand::Pair(
            register_of(binding, base),
            register_of(binding, index),
            scale,
            displacement,
        ),
    }
}

/// An op of a body with the registers and homes of a binding.
pub fn placed(binding: &Binding, op: &Op) -> Op
    ensures { result ≡ op_for (match_of [] binding.now) op.now }
{
    match *op {
        Op::AluTo { op, to, from } => Op::AluTo {
            op,
            to: placed_operand(binding, to),
            from: register_of(binding, from),
        },
        Op::AluFrom { op, to, from } => Op::AluFrom {
            op,
            to: register_of(binding, to),
            from: placed_operand(binding, from),
        },
        Op::AluImm { op, to, imm } => Op::AluImm {
            op,
            to: placed_operand(binding, to),
            imm,
        },
        Op::TestReg { a, b } => Op::TestReg {
            a: placed_operand(binding, a),
            b: register_of(binding, b),
        },
        Op::TestImm { a, imm } => Op::TestImm {
            a: placed_operand(binding, a),
            imm,
        },
        Op::Unary { op, on } => Op::Unary {
            op,
            on: placed_operand(binding, on),
        },
        Op::Imul { to, from } => Op::Imul {
            to: register_of(binding, to),
            from: placed_operand(binding, from),
        },
        Op::MovTo { to, from } => Op::MovTo {
            to: placed_operand(binding, to),
            from: register_of(binding, from),
        },
        Op::MovFrom { to, from } => Op::MovFrom {
            to: register_of(binding, to),
            from: placed_operand(binding, from),
        },
        Op::MovImm { to, imm } => Op::MovImm {
            to: register_of(binding, to),
            imm,
        },
        Op::MovToImm { to, imm } => Op::MovToImm {
            to: placed_operand(binding, to),
            imm,
        },
        Op::MovHalfTo { to, from } => Op::MovHalfTo {
            to: placed_operand(binding, to),
            from: register_of(binding, from),
        },
        Op::MovByteTo { to, from } => Op::MovByteTo {
            to: placed_operand(binding, to),
            from: register_of(binding, from),
        },
        Op::MovByteFrom { to, from } => Op::MovByteFrom {
            to: register_of(binding, to),
            from: placed_operand(binding, from),
        },
        Op::Shift { op, to, by } => Op::Shift {
            op,
            to: placed_operand(binding, to),
            by,
        },
        Op::ShiftByCl { op, to } => Op::ShiftByCl {
            op,
            to: placed_operand(binding, to),
        },
        Op::Lea { to, from } => Op::Lea {
            to: register_of(binding, to),
            from: placed_operand(binding, from),
        },
        Op::Extend { op, to, from } => Op::Extend {
            op,
            to: register_of(binding, to),
            from: placed_operand(binding, from),
        },
        Op::Bswap { reg } => Op::Bswap {
            reg: register_of(binding, reg),
        },
        Op::Set { condition, to } => Op::Set {
            condition,
            to: placed_operand(binding, to),
        },
        Op::Cmov {
            condition,
            to,
            from,
        } => Op::Cmov {
            condition,
            to: register_of(binding, to),
            from: placed_operand(binding, from),
        },
        Op::Bsr { to, from } => Op::Bsr {
            to: register_of(binding, to),
            from: placed_operand(binding, from),
        },
        op => op,
    }
}
