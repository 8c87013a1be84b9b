//! Moves from and to XER, LR and CTR.

ghost use Rattle.std.specs.Prelude.{◌≡◌, ◌⊎◌, IfOk};
ghost use Rattle.base_alu.specs.Specials.{mfxer_ops, mfspr_ops, mtxer_ops, mtspr_ops};

use crate::recording::{CA, OV, Ops, SO, XC};
use ia_codec::{AluOp, ShiftOp};
use reg_map::{EAX, ECX};
use std::alloc::Global;
use symbolic_tiles::SymbolicOp::{Alu, AluImmediate, FetchByte, Mov, Put, PutByte, ShiftBy};
use symbolic_tiles::SymbolicOperand::{Location, Temporary};

// LR is special register 8 and location 32, CTR 9 and 33.
const SPECIALS: u8 = 24;

fn from_xer(alloc: Global, d: u8) -> Ops
    ensures { IfOk result (λ ops. ops.items ≡ mfxer_ops d) }
{
    Ok(vec![in alloc;
        FetchByte(EAX, SO),
        ShiftBy(ShiftOp::Shl, EAX, 1),
        FetchByte(ECX, OV),
        Alu(AluOp::Or, EAX, Temporary(ECX)),
        ShiftBy(ShiftOp::Shl, EAX, 1),
        FetchByte(ECX, CA),
        Alu(AluOp::Or, EAX, Temporary(ECX)),
        ShiftBy(ShiftOp::Shl, EAX, 29),
        FetchByte(ECX, XC),
        Alu(AluOp::Or, EAX, Temporary(ECX)),
        Put(d, EAX),
    ]?)
}

/// mfspr
///
/// # Errors
/// Where there is no memory.
pub fn move_from_special(alloc: Global, d: u8, spr: u16) -> Ops
    requires { (spr ≡ 1) ⊎ (spr ≡ 8) ⊎ (spr ≡ 9) }
    ensures { IfOk result (λ ops. ops.items ≡ mfspr_ops d spr) }
{
    if spr == 1 {
        return from_xer(alloc, d);
    }
    Ok(vec![in alloc; Mov(EAX, Location(SPECIALS + spr as u8)), Put(d, EAX)]?)
}

fn to_xer(alloc: Global, s: u8) -> Ops
    ensures { IfOk result (λ ops. ops.items ≡ mtxer_ops s) }
{
    Ok(vec![in alloc;
        Mov(EAX, Location(s)),
        Mov(ECX, Temporary(EAX)),
        ShiftBy(ShiftOp::Shr, ECX, 31),
        PutByte(SO, ECX),
        Mov(ECX, Temporary(EAX)),
        ShiftBy(ShiftOp::Shr, ECX, 30),
        AluImmediate(AluOp::And, ECX, 1),
        PutByte(OV, ECX),
        Mov(ECX, Temporary(EAX)),
        ShiftBy(ShiftOp::Shr, ECX, 29),
        AluImmediate(AluOp::And, ECX, 1),
        PutByte(CA, ECX),
        AluImmediate(AluOp::And, EAX, 127),
        PutByte(XC, EAX),
    ]?)
}

/// mtspr
///
/// # Errors
/// Where there is no memory.
pub fn move_to_special(alloc: Global, s: u8, spr: u16) -> Ops
    requires { (spr ≡ 1) ⊎ (spr ≡ 8) ⊎ (spr ≡ 9) }
    ensures { IfOk result (λ ops. ops.items ≡ mtspr_ops s spr) }
{
    if spr == 1 {
        return to_xer(alloc, s);
    }
    Ok(vec![in alloc; Mov(EAX, Location(s)), Put(SPECIALS + spr as u8, EAX)]?)
}
