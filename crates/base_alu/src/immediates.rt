//! Arithmetic and logic with an immediate.

ghost use Rattle.std.specs.Prelude.{◌≡◌, ◌==◌, IfOk};
ghost use Rattle.machines.specs.Prelude.{logic_word};
ghost use Rattle.base_alu.specs.Immediates.{base_ops, immediate_ops, logic_alu, logic_immediate_ops};

use crate::recording::{CA, Ops};
use ia_codec::{AluOp, Condition};
use ppc_isa::{ImmediateOp, LogicImmediateOp};
use reg_map::{EAX, ECX, signed_immediate};
use std::alloc::Global;
use symbolic_tiles::SymbolicOp::{Alu, AluImmediate, Mov, MovImmediate, Multiply, Put, SetByte};
use symbolic_tiles::SymbolicOperand::{Location, Temporary};

// rD is (rA|0) and the number.
fn base(alloc: Global, d: u8, a: u8, number: u32) -> Ops
    ensures { IfOk result (λ ops. ops.items ≡ base_ops (a == 0) d a number) }
{
    if a == 0 {
        return Ok(vec![in alloc; MovImmediate(EAX, number), Put(d, EAX)]?);
    }
    Ok(vec![in alloc;
        Mov(EAX, Location(a)),
        AluImmediate(AluOp::Add, EAX, number),
        Put(d, EAX),
    ]?)
}

/// addi, addis, addic, addic., subfic and mulli
///
/// # Errors
/// Where there is no memory.
pub fn immediate(alloc: Global, op: ImmediateOp, d: u8, a: u8, imm: u16) -> Ops
    ensures { IfOk result (λ ops. ops.items ≡ immediate_ops op d a imm) }
{
    let number = signed_immediate(imm);
    match op {
        ImmediateOp::Addi => base(alloc, d, a, number),
        ImmediateOp::Addis => base(alloc, d, a, 65536 * imm as u32),
        ImmediateOp::Addic | ImmediateOp::AddicRecord => Ok(vec![in alloc;
            Mov(EAX, Location(a)),
            AluImmediate(AluOp::Add, EAX, number),
            Put(d, EAX),
            SetByte(Condition::Below, CA),
        ]?),
        ImmediateOp::Subfic => Ok(vec![in alloc;
            MovImmediate(EAX, number),
            Alu(AluOp::Sub, EAX, Location(a)),
            Put(d, EAX),
            SetByte(Condition::NotBelow, CA),
        ]?),
        ImmediateOp::Mulli => Ok(vec![in alloc;
            Mov(EAX, Location(a)),
            MovImmediate(ECX, number),
            Multiply(EAX, Temporary(ECX)),
            Put(d, EAX),
        ]?),
    }
}

fn logic_op(op: LogicImmediateOp) -> AluOp
    ensures { result ≡ logic_alu op }
{
    match op {
        LogicImmediateOp::Ori | LogicImmediateOp::Oris => AluOp::Or,
        LogicImmediateOp::Xori | LogicImmediateOp::Xoris => AluOp::Xor,
        LogicImmediateOp::Andi | LogicImmediateOp::Andis => AluOp::And,
    }
}

fn logic_number(op: LogicImmediateOp, imm: u16) -> u32
    ensures { result ≡ logic_word op imm }
{
    match op {
        LogicImmediateOp::Ori | LogicImmediateOp::Xori | LogicImmediateOp::Andi => imm as u32,
        LogicImmediateOp::Oris | LogicImmediateOp::Xoris | LogicImmediateOp::Andis => 65536
            * imm as u32,
    }
}

/// ori, oris, xori, xoris, andi. and andis.
///
/// # Errors
/// Where there is no memory.
pub fn logic_immediate(alloc: Global, op: LogicImmediateOp, s: u8, a: u8, imm: u16) -> Ops
    ensures { IfOk result (λ ops. ops.items ≡ logic_immediate_ops op s a imm) }
{
    Ok(vec![in alloc;
        Mov(EAX, Location(s)),
        AluImmediate(logic_op(op), EAX, logic_number(op, imm)),
        Put(a, EAX),
    ]?)
}
