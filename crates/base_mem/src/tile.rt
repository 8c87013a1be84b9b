//! The tile of each instruction.

ghost use Rattle.std.specs.Prelude.{◌≡◌, ◌<◌, ◌≤◌, ◌++◌, IsTrue, ◌↔◌, IfOk, All, length};
ghost use Rattle.machines.specs.Prelude.{IsLegal};
ghost use Rattle.reg_map.specs.Prelude.{IsMap, IsPlaceable};
ghost use Rattle.symbolic_tiles.specs.Prelude.{DoesRowAt};
ghost use Rattle.base_mem.specs.Tile.{IsBuilt, symbolic_tile as symbolic_tile_of, tile};

use crate::addresses::{Ops, immediate_address, indexed_address};
use crate::loading::{load, load_indexed, load_indexed_update, load_update, put};
use crate::multiple::{load_multiple, store_multiple};
use crate::storing::{store, store_indexed, store_indexed_update, store_update, update};
use ia_codec::Op;
use ppc_isa::{Instr, Map, MultipleOp};
use std::alloc::{AllocError, Global};
use symbolic_tiles::{SymbolicOp, ops_of};
use word_kit::NoMemory;

/// The tile of the instruction under the map: at most 128 ops, whose absolute operands are offsets in
/// the home page. The instruction has an access to memory. Wherever the home page is, the ops do what
/// the instruction's row does.
///
/// # Errors
/// `NoMemory` where there is no memory for the ops.
pub fn emit(alloc: Global, instr: &Instr, map: &Map) -> Result<Vec<Op>, NoMemory>
    requires map { IsMap map.now }
    requires legal { IsLegal instr.now }
    requires built { IsBuilt instr.now }
    ensures tile { IfOk result (λ ops. ops.items ≡ tile instr.now map.now) }
    ensures few { IfOk result (λ ops. length ops.items ≤ 128) }
    ensures does { IfOk result (λ ops. DoesRowAt instr.now map.now ops.items) }
    ensures placeable { IfOk result (λ ops. All IsPlaceable ops.items) }
{
    let Ok(ops) = ops(alloc, instr, map) else {
        return Err(NoMemory);
    };
    Ok(ops)
}

fn ops(alloc: Global, instr: &Instr, map: &Map) -> Result<Vec<Op>, AllocError>
    requires map { IsMap map.now }
    requires legal { IsLegal instr.now }
    requires built { IsBuilt instr.now }
    ensures { IfOk result (λ ops. ops.items ≡ tile instr.now map.now) }
{
    let symbolic = symbolic_tile(alloc, instr)?;
    ops_of(alloc, symbolic.as_slice(), map)
}

/// Whether the instruction has a tile here: it has an access.
pub fn is_built(instr: &Instr) -> bool
    ensures { IsTrue result ↔ IsBuilt instr.now }
{
    matches!(
        *instr,
        Instr::Load { .. }
            | Instr::LoadUpdate { .. }
            | Instr::LoadIndexed { .. }
            | Instr::LoadIndexedUpdate { .. }
            | Instr::Store { .. }
            | Instr::StoreUpdate { .. }
            | Instr::StoreIndexed { .. }
            | Instr::StoreIndexedUpdate { .. }
            | Instr::Multiple { .. }
    )
}

/// The tile of the instruction, told without a map. It has an access to memory.
///
/// # Errors
/// Where there is no memory for the ops.
pub fn symbolic_tile(alloc: Global, instr: &Instr) -> Result<Vec<SymbolicOp>, AllocError>
    requires legal { IsLegal instr.now }
    requires built { IsBuilt instr.now }
    ensures { IfOk result (λ ops. ops.items ≡ symbolic_tile_of instr.now) }
{
    match *instr {
        Instr::Load { op, d, a, imm } => joined(
            immediate_address(alloc, a == 0, a, imm)?,
            load(alloc, op)?,
            put(alloc, false, d, a)?,
        ),
        Instr::LoadUpdate { op, d, a, imm } => joined(
            immediate_address(alloc, false, a, imm)?,
            load_update(alloc, op)?,
            put(alloc, true, d, a)?,
        ),
        Instr::LoadIndexed { op, d, a, b } => joined(
            indexed_address(alloc, a == 0, a, b)?,
            load_indexed(alloc, op)?,
            put(alloc, false, d, a)?,
        ),
        Instr::LoadIndexedUpdate { op, d, a, b } => joined(
            indexed_address(alloc, false, a, b)?,
            load_indexed_update(alloc, op)?,
            put(alloc, true, d, a)?,
        ),
        Instr::Store { op, s, a, imm } => joined(
            immediate_address(alloc, a == 0, a, imm)?,
            store(alloc, op, s)?,
            update(alloc, false, a)?,
        ),
        Instr::StoreUpdate { op, s, a, imm } => joined(
            immediate_address(alloc, false, a, imm)?,
            store_update(alloc, op, s)?,
            update(alloc, true, a)?,
        ),
        Instr::StoreIndexed { op, s, a, b } => joined(
            indexed_address(alloc, a == 0, a, b)?,
            store_indexed(alloc, op, s)?,
            update(alloc, false, a)?,
        ),
        Instr::StoreIndexedUpdate { op, s, a, b } => joined(
            indexed_address(alloc, false, a, b)?,
            store_indexed_update(alloc, op, s)?,
            update(alloc, true, a)?,
        ),
        Instr::Multiple { op, d, a, imm } => multiple(alloc, op, d, a, imm),
        _ => unreachable!(),
    }
}

// The address, the access and what goes into registers, one behind another.
fn joined(address: Vec<SymbolicOp>, access: Vec<SymbolicOp>, puts: Vec<SymbolicOp>) -> Ops
    ensures { IfOk result (λ ops. ops.items ≡ address.items ++ (access.items ++ puts.items)) }
{
    let mut made = address;
    made.extend_from_slice(access.as_slice())?;
    made.extend_from_slice(puts.as_slice())?;
    Ok(made)
}

fn multiple(alloc: Global, op: MultipleOp, d: u8, a: u8, imm: u16) -> Ops
    requires { d < 32 }
    ensures { IfOk result (λ ops. ops.items ≡ symbolic_tile_of (Instr.Multiple op d a imm)) }
{
    let mut made = immediate_address(alloc, a == 0, a, imm)?;
    let access = match op {
        MultipleOp::Lmw => load_multiple(alloc, d)?,
        MultipleOp::Stmw => store_multiple(alloc, d)?,
    };
    made.extend_from_slice(access.as_slice())?;
    Ok(made)
}
