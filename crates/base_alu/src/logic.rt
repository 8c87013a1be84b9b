//! Logic of registers, counts of zeros, and extensions of signs.

ghost use Rattle.std.specs.Prelude.{◌≡◌, IfOk};
ghost use Rattle.base_alu.specs.Logic.{plain_ops, inverted_ops, complement_ops, logic_ops, logic_unary_ops};

use crate::recording::Ops;
use crate::shifts::{shift, sraw};
use ia_codec::{AluOp, Condition, ExtendOp, ShiftOp};
use ppc_isa::{LogicOp, LogicUnaryOp};
use reg_map::{EAX, EDX};
use std::alloc::Global;
use symbolic_tiles::SymbolicOp::{
    Alu, AluImmediate, Invert, Mov, MovImmediate, MoveIf, Put, Scan, Widen,
};
use symbolic_tiles::SymbolicOperand::Location;

// rA is rS op rB.
fn plain(alloc: Global, alu: AluOp, s: u8, a: u8, b: u8) -> Ops
    ensures { IfOk result (λ ops. ops.items ≡ plain_ops alu s a b) }
{
    Ok(vec![in alloc;
        Mov(EAX, Location(s)),
        Alu(alu, EAX, Location(b)),
        Put(a, EAX),
    ]?)
}

// rA is the complement of rS op rB.
fn inverted(alloc: Global, alu: AluOp, s: u8, a: u8, b: u8) -> Ops
    ensures { IfOk result (λ ops. ops.items ≡ inverted_ops alu s a b) }
{
    Ok(vec![in alloc;
        Mov(EAX, Location(s)),
        Alu(alu, EAX, Location(b)),
        Invert(EAX),
        Put(a, EAX),
    ]?)
}

// rA is rS op the complement of rB.
fn with_complement(alloc: Global, alu: AluOp, s: u8, a: u8, b: u8) -> Ops
    ensures { IfOk result (λ ops. ops.items ≡ complement_ops alu s a b) }
{
    Ok(vec![in alloc;
        Mov(EAX, Location(b)),
        Invert(EAX),
        Alu(alu, EAX, Location(s)),
        Put(a, EAX),
    ]?)
}

/// Logic and shifts of two registers.
///
/// # Errors
/// Where there is no memory.
pub fn logic(alloc: Global, op: LogicOp, s: u8, a: u8, b: u8) -> Ops
    ensures { IfOk result (λ ops. ops.items ≡ logic_ops op s a b) }
{
    match op {
        LogicOp::And => plain(alloc, AluOp::And, s, a, b),
        LogicOp::Or => plain(alloc, AluOp::Or, s, a, b),
        LogicOp::Xor => plain(alloc, AluOp::Xor, s, a, b),
        LogicOp::Nand => inverted(alloc, AluOp::And, s, a, b),
        LogicOp::Nor => inverted(alloc, AluOp::Or, s, a, b),
        LogicOp::Eqv => inverted(alloc, AluOp::Xor, s, a, b),
        LogicOp::Andc => with_complement(alloc, AluOp::And, s, a, b),
        LogicOp::Orc => with_complement(alloc, AluOp::Or, s, a, b),
        LogicOp::Slw => shift(alloc, ShiftOp::Shl, s, a, b),
        LogicOp::Srw => shift(alloc, ShiftOp::Shr, s, a, b),
        LogicOp::Sraw => sraw(alloc, s, a, b),
    }
}

/// cntlzw, extsb and extsh
///
/// # Errors
/// Where there is no memory.
pub fn logic_unary(alloc: Global, op: LogicUnaryOp, s: u8, a: u8) -> Ops
    ensures { IfOk result (λ ops. ops.items ≡ logic_unary_ops op s a) }
{
    match op {
        LogicUnaryOp::Cntlzw => Ok(vec![in alloc;
            Scan(EAX, Location(s)),
            MovImmediate(EDX, 63),
            MoveIf(Condition::Equal, EAX, EDX),
            AluImmediate(AluOp::Xor, EAX, 31),
            Put(a, EAX),
        ]?),
        LogicUnaryOp::Extsb => Ok(vec![in alloc;
            Mov(EAX, Location(s)),
            Widen(ExtendOp::MovsxByte, EAX, EAX),
            Put(a, EAX),
        ]?),
        LogicUnaryOp::Extsh => Ok(vec![in alloc;
            Mov(EAX, Location(s)),
            Widen(ExtendOp::MovsxHalf, EAX, EAX),
            Put(a, EAX),
        ]?),
    }
}
