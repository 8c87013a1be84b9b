//! lmw and stmw, register by register.

ghost use Rattle.std.specs.Prelude.{◌≡◌, ◌<◌, ◌≤◌, ◌-◌, IfOk};
ghost use Rattle.base_mem.specs.Multiple.{one_load as load_ops, lmw_ops, one_store as store_ops, stmw_ops};

use crate::addresses::Ops;
use reg_map::{EAX, EDX};
use std::alloc::Global;
use symbolic_tiles::AccessSize::Word;
use symbolic_tiles::SymbolicOp::{self, Load, Mov, Put, Store, SwapBytes};
use symbolic_tiles::SymbolicOperand::Location;

// Register r of those from d on.
fn one_load(r: u8, d: u8) -> [SymbolicOp; 3]
    requires order { d ≤ r }
    requires register { r < 32 }
    ensures { result ≡ load_ops r d }
{
    let offset = 4 * (r - d) as u32;
    [Load(Word, EAX, EDX, offset), SwapBytes(EAX), Put(r, EAX)]
}

/// lmw of the registers from d on.
///
/// # Errors
/// Where there is no memory.
pub fn load_multiple(alloc: Global, d: u8) -> Ops
    requires { d < 32 }
    ensures { IfOk result (λ ops. ops.items ≡ lmw_ops (32 - d) d) }
{
    let mut made = Vec::new(alloc);
    for r in d..32 {
        made.extend_from_slice(&one_load(r, d))?;
    }
    Ok(made)
}

// Register r of those from s on.
fn one_store(r: u8, s: u8) -> [SymbolicOp; 3]
    requires order { s ≤ r }
    requires register { r < 32 }
    ensures { result ≡ store_ops r s }
{
    let offset = 4 * (r - s) as u32;
    [
        Mov(EAX, Location(r)),
        SwapBytes(EAX),
        Store(Word, EDX, offset, EAX),
    ]
}

/// stmw of the registers from s on.
///
/// # Errors
/// Where there is no memory.
pub fn store_multiple(alloc: Global, s: u8) -> Ops
    requires { s < 32 }
    ensures { IfOk result (λ ops. ops.items ≡ stmw_ops (32 - s) s) }
{
    let mut made = Vec::new(alloc);
    for r in s..32 {
        made.extend_from_slice(&one_store(r, s))?;
    }
    Ok(made)
}
