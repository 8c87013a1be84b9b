//! Shifts and rotates. A host's count by cl has five bits: its sixth is tested beside.

ghost use Rattle.std.specs.Prelude.{◌≡◌, ◌<◌, IfOk};
ghost use Rattle.machines.specs.Prelude.{mask as mask_of};
ghost use Rattle.base_alu.specs.Shifts.{shifted_ops, sraw_ops, srawi_ops, rotate_ops};

use crate::recording::{CA, Ops};
use ia_codec::{AluOp, Condition, ShiftOp};
use ppc_isa::RotateOp;
use reg_map::{EAX, ECX, EDX};
use std::alloc::Global;
use symbolic_tiles::SymbolicOp::{
    Alu, AluImmediate, Mov, MovImmediate, MoveIf, Put, SetByte, ShiftBy, ShiftCl, TestImmediate,
};
use symbolic_tiles::SymbolicOperand::{Location, Temporary};
use word_kit::mask;

/// slw and srw
///
/// # Errors
/// Where there is no memory.
pub fn shift(alloc: Global, op: ShiftOp, s: u8, a: u8, b: u8) -> Ops
    ensures { IfOk result (λ ops. ops.items ≡ shifted_ops op s a b) }
{
    Ok(vec![in alloc;
        Mov(ECX, Location(b)),
        Mov(EAX, Location(s)),
        ShiftCl(op, EAX),
        MovImmediate(EDX, 0),
        TestImmediate(ECX, 32),
        MoveIf(Condition::NotEqual, EAX, EDX),
        Put(a, EAX),
    ]?)
}

/// sraw
///
/// # Errors
/// Where there is no memory.
pub fn sraw(alloc: Global, s: u8, a: u8, b: u8) -> Ops
    ensures { IfOk result (λ ops. ops.items ≡ sraw_ops s a b) }
{
    Ok(vec![in alloc;
        Mov(ECX, Location(b)),
        Mov(EAX, Location(s)),
        ShiftCl(ShiftOp::Sar, EAX),
        ShiftCl(ShiftOp::Shl, EAX),
        MovImmediate(EDX, 0),
        TestImmediate(ECX, 32),
        MoveIf(Condition::NotEqual, EAX, EDX),
        Alu(AluOp::Xor, EAX, Location(s)),
        Mov(EDX, Location(s)),
        ShiftBy(ShiftOp::Sar, EDX, 31),
        Alu(AluOp::And, EAX, Temporary(EDX)),
        SetByte(Condition::NotEqual, CA),
        Mov(EAX, Location(s)),
        ShiftCl(ShiftOp::Sar, EAX),
        TestImmediate(ECX, 32),
        MoveIf(Condition::NotEqual, EAX, EDX),
        Put(a, EAX),
    ]?)
}

/// srawi
///
/// # Errors
/// Where there is no memory.
pub fn srawi(alloc: Global, s: u8, a: u8, by: u8) -> Ops
    requires { by < 32 }
    ensures { IfOk result (λ ops. ops.items ≡ srawi_ops s a by) }
{
    let low = (1u32 << by) - 1;
    Ok(vec![in alloc;
        Mov(EDX, Location(s)),
        ShiftBy(ShiftOp::Sar, EDX, 31),
        AluImmediate(AluOp::And, EDX, low),
        Alu(AluOp::And, EDX, Location(s)),
        SetByte(Condition::NotEqual, CA),
        Mov(EAX, Location(s)),
        ShiftBy(ShiftOp::Sar, EAX, by),
        Put(a, EAX),
    ]?)
}

/// rlwinm, rlwnm and rlwimi
///
/// # Errors
/// Where there is no memory.
pub fn rotate(
    alloc: Global,
    op: RotateOp,
    s: u8,
    a: u8,
    by: u8,
    mask_begin: u8,
    mask_end: u8,
) -> Ops
    requires begin { mask_begin < 32 }
    requires end { mask_end < 32 }
    ensures { IfOk result (λ ops. ops.items ≡ rotate_ops op s a by (mask_of mask_begin mask_end)) }
{
    let ones = mask(mask_begin, mask_end);
    match op {
        RotateOp::Rlwinm => Ok(vec![in alloc;
            Mov(EAX, Location(s)),
            ShiftBy(ShiftOp::Rol, EAX, by),
            AluImmediate(AluOp::And, EAX, ones),
            Put(a, EAX),
        ]?),
        RotateOp::Rlwnm => Ok(vec![in alloc;
            Mov(ECX, Location(by)),
            Mov(EAX, Location(s)),
            ShiftCl(ShiftOp::Rol, EAX),
            AluImmediate(AluOp::And, EAX, ones),
            Put(a, EAX),
        ]?),
        RotateOp::Rlwimi => Ok(vec![in alloc;
            Mov(EAX, Location(s)),
            ShiftBy(ShiftOp::Rol, EAX, by),
            AluImmediate(AluOp::And, EAX, ones),
            Mov(EDX, Location(a)),
            AluImmediate(AluOp::And, EDX, !ones),
            Alu(AluOp::Or, EAX, Temporary(EDX)),
            Put(a, EAX),
        ]?),
    }
}
