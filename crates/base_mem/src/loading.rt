//! Loads from the address in edx into eax.

ghost use Rattle.std.specs.Prelude.{◌≡◌, IfOk};
ghost use Rattle.base_mem.specs.Loads.{lwz_ops, lbz_ops, half_ops, lwbrx_ops, lhbrx_ops, load_ops, load_update_ops, load_indexed_ops, load_indexed_update_ops, put_ops};

use crate::addresses::Ops;
use ia_codec::ShiftOp;
use ppc_isa::{LoadIndexedOp, LoadIndexedUpdateOp, LoadOp, LoadUpdateOp};
use reg_map::{EAX, EDX};
use std::alloc::Global;
use symbolic_tiles::AccessSize::{Byte, Half, Word};
use symbolic_tiles::SymbolicOp::{Load, Put, ShiftBy, SwapBytes};

fn word(alloc: Global) -> Ops
    ensures { IfOk result (λ ops. ops.items ≡ lwz_ops) }
{
    Ok(vec![in alloc; Load(Word, EAX, EDX, 0), SwapBytes(EAX)]?)
}

fn byte(alloc: Global) -> Ops
    ensures { IfOk result (λ ops. ops.items ≡ lbz_ops) }
{
    Ok(vec![in alloc; Load(Byte, EAX, EDX, 0)]?)
}

// The shift brings the half's two bytes from the top, with zeros or copies of the sign.
fn half(alloc: Global, shift: ShiftOp) -> Ops
    ensures { IfOk result (λ ops. ops.items ≡ half_ops shift) }
{
    Ok(vec![in alloc;
        Load(Half, EAX, EDX, 0),
        SwapBytes(EAX),
        ShiftBy(shift, EAX, 16),
    ]?)
}

/// lwz, lbz, lhz and lha
///
/// # Errors
/// Where there is no memory.
pub fn load(alloc: Global, op: LoadOp) -> Ops
    ensures { IfOk result (λ ops. ops.items ≡ load_ops op) }
{
    match op {
        LoadOp::Lwz => word(alloc),
        LoadOp::Lbz => byte(alloc),
        LoadOp::Lhz => half(alloc, ShiftOp::Shr),
        LoadOp::Lha => half(alloc, ShiftOp::Sar),
    }
}

/// lwzu, lbzu, lhzu and lhau
///
/// # Errors
/// Where there is no memory.
pub fn load_update(alloc: Global, op: LoadUpdateOp) -> Ops
    ensures { IfOk result (λ ops. ops.items ≡ load_update_ops op) }
{
    match op {
        LoadUpdateOp::Lwzu => word(alloc),
        LoadUpdateOp::Lbzu => byte(alloc),
        LoadUpdateOp::Lhzu => half(alloc, ShiftOp::Shr),
        LoadUpdateOp::Lhau => half(alloc, ShiftOp::Sar),
    }
}

/// lwzx, lbzx, lhzx, lhax, lwbrx and lhbrx
///
/// # Errors
/// Where there is no memory.
pub fn load_indexed(alloc: Global, op: LoadIndexedOp) -> Ops
    ensures { IfOk result (λ ops. ops.items ≡ load_indexed_ops op) }
{
    match op {
        LoadIndexedOp::Lwzx => word(alloc),
        LoadIndexedOp::Lbzx => byte(alloc),
        LoadIndexedOp::Lhzx => half(alloc, ShiftOp::Shr),
        LoadIndexedOp::Lhax => half(alloc, ShiftOp::Sar),
        LoadIndexedOp::Lwbrx => Ok(vec![in alloc; Load(Word, EAX, EDX, 0)]?),
        LoadIndexedOp::Lhbrx => Ok(vec![in alloc; Load(Half, EAX, EDX, 0)]?),
    }
}

/// lwzux, lbzux, lhzux and lhaux
///
/// # Errors
/// Where there is no memory.
pub fn load_indexed_update(alloc: Global, op: LoadIndexedUpdateOp) -> Ops
    ensures { IfOk result (λ ops. ops.items ≡ load_indexed_update_ops op) }
{
    match op {
        LoadIndexedUpdateOp::Lwzux => word(alloc),
        LoadIndexedUpdateOp::Lbzux => byte(alloc),
        LoadIndexedUpdateOp::Lhzux => half(alloc, ShiftOp::Shr),
        LoadIndexedUpdateOp::Lhaux => half(alloc, ShiftOp::Sar),
    }
}

/// What was loaded goes into rD and, with `update`, the address into rA.
///
/// # Errors
/// Where there is no memory.
pub fn put(alloc: Global, update: bool, d: u8, a: u8) -> Ops
    ensures { IfOk result (λ ops. ops.items ≡ put_ops update d a) }
{
    if update {
        Ok(vec![in alloc; Put(d, EAX), Put(a, EDX)]?)
    } else {
        Ok(vec![in alloc; Put(d, EAX)]?)
    }
}
