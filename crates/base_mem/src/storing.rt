//! Stores of a register at the address in edx.

ghost use Rattle.std.specs.Prelude.{◌≡◌, IfOk};
ghost use Rattle.base_mem.specs.Stores.{stw_ops, stb_ops, sth_ops, stwbrx_ops, sthbrx_ops, store_ops, store_update_ops, store_indexed_ops, store_indexed_update_ops, update_ops};

use crate::addresses::Ops;
use ia_codec::ShiftOp;
use ppc_isa::{StoreIndexedOp, StoreIndexedUpdateOp, StoreOp, StoreUpdateOp};
use reg_map::{EAX, EDX};
use std::alloc::Global;
use symbolic_tiles::AccessSize::{Byte, Half, Word};
use symbolic_tiles::SymbolicOp::{Mov, Put, ShiftBy, Store, SwapBytes};
use symbolic_tiles::SymbolicOperand::Location;

fn word(alloc: Global, s: u8) -> Ops
    ensures { IfOk result (λ ops. ops.items ≡ stw_ops s) }
{
    Ok(vec![in alloc;
        Mov(EAX, Location(s)),
        SwapBytes(EAX),
        Store(Word, EDX, 0, EAX),
    ]?)
}

fn byte(alloc: Global, s: u8) -> Ops
    ensures { IfOk result (λ ops. ops.items ≡ stb_ops s) }
{
    Ok(vec![in alloc; Mov(EAX, Location(s)), Store(Byte, EDX, 0, EAX)]?)
}

fn half(alloc: Global, s: u8) -> Ops
    ensures { IfOk result (λ ops. ops.items ≡ sth_ops s) }
{
    Ok(vec![in alloc;
        Mov(EAX, Location(s)),
        SwapBytes(EAX),
        ShiftBy(ShiftOp::Shr, EAX, 16),
        Store(Half, EDX, 0, EAX),
    ]?)
}

/// stw, stb and sth
///
/// # Errors
/// Where there is no memory.
pub fn store(alloc: Global, op: StoreOp, s: u8) -> Ops
    ensures { IfOk result (λ ops. ops.items ≡ store_ops op s) }
{
    match op {
        StoreOp::Stw => word(alloc, s),
        StoreOp::Stb => byte(alloc, s),
        StoreOp::Sth => half(alloc, s),
    }
}

/// stwu, stbu and sthu
///
/// # Errors
/// Where there is no memory.
pub fn store_update(alloc: Global, op: StoreUpdateOp, s: u8) -> Ops
    ensures { IfOk result (λ ops. ops.items ≡ store_update_ops op s) }
{
    match op {
        StoreUpdateOp::Stwu => word(alloc, s),
        StoreUpdateOp::Stbu => byte(alloc, s),
        StoreUpdateOp::Sthu => half(alloc, s),
    }
}

/// stwx, stbx, sthx, stwbrx and sthbrx
///
/// # Errors
/// Where there is no memory.
pub fn store_indexed(alloc: Global, op: StoreIndexedOp, s: u8) -> Ops
    ensures { IfOk result (λ ops. ops.items ≡ store_indexed_ops op s) }
{
    match op {
        StoreIndexedOp::Stwx => word(alloc, s),
        StoreIndexedOp::Stbx => byte(alloc, s),
        StoreIndexedOp::Sthx => half(alloc, s),
        StoreIndexedOp::Stwbrx => Ok(vec![in alloc;
            Mov(EAX, Location(s)),
            Store(Word, EDX, 0, EAX),
        ]?),
        StoreIndexedOp::Sthbrx => Ok(vec![in alloc;
            Mov(EAX, Location(s)),
            Store(Half, EDX, 0, EAX),
        ]?),
    }
}

/// stwux, stbux and sthux
///
/// # Errors
/// Where there is no memory.
pub fn store_indexed_update(alloc: Global, op: StoreIndexedUpdateOp, s: u8) -> Ops
    ensures { IfOk result (λ ops. ops.items ≡ store_indexed_update_ops op s) }
{
    match op {
        StoreIndexedUpdateOp::Stwux => word(alloc, s),
        StoreIndexedUpdateOp::Stbux => byte(alloc, s),
        StoreIndexedUpdateOp::Sthux => half(alloc, s),
    }
}

/// With `update` the address goes into rA.
///
/// # Errors
/// Where there is no memory.
pub fn update(alloc: Global, update: bool, a: u8) -> Ops
    ensures { IfOk result (λ ops. ops.items ≡ update_ops update a) }
{
    if update {
        Ok(vec![in alloc; Put(a, EDX)]?)
    } else {
        Ok(Vec::new(alloc))
    }
}
