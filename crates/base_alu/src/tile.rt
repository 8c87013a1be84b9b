//! The tile of each instruction.

ghost use Rattle.std.specs.Prelude.{◌≡◌, ◌≤◌, true, IsTrue, ◌↔◌, IfOk, All, length};
ghost use Rattle.machines.specs.Prelude.{IsLegal};
ghost use Rattle.reg_map.specs.Prelude.{IsMap, IsPlaceable};
ghost use Rattle.symbolic_tiles.specs.Prelude.{DoesRowAt};
ghost use Rattle.base_alu.specs.Tile.{IsBuilt, IsWithoutRecord, symbolic_tile as symbolic_tile_of, tile};

use crate::arithmetic::{arithmetic, arithmetic_unary};
use crate::compares::{compare, compare_immediate};
use crate::conditions::{cr_logic, move_field, move_from_cr, move_to_cr};
use crate::immediates::{immediate, logic_immediate};
use crate::logic::{logic, logic_unary};
use crate::recording::{Ops, recording};
use crate::shifts::{rotate, srawi};
use crate::specials::{move_from_special, move_to_special};
use ia_codec::Op;
use ppc_isa::{Instr, Map, immediate_records, logic_immediate_records};
use std::alloc::{AllocError, Global};
use symbolic_tiles::{SymbolicOp, ops_of};
use word_kit::NoMemory;

/// The tile of the instruction under the map: at most 128 ops, whose absolute operands are offsets in
/// the home page. The instruction is no flow word and has no access to memory. The ops do what its row
/// does, over every home page.
///
/// # Errors
/// `NoMemory` where there is no memory for the ops.
pub fn emit(alloc: Global, instr: &Instr, map: &Map) -> Result<Vec<Op>, NoMemory>
    requires map { IsMap map.now }
    requires legal { IsLegal instr.now }
    requires built { IsBuilt instr.now }
    ensures tile { IfOk result (λ ops. ops.items ≡ tile instr.now map.now) }
    ensures few { IfOk result (λ ops. length ops.items ≤ 128) }
    ensures does { IfOk result (λ ops. DoesRowAt instr.now map.now ops.items) }
    ensures placeable { IfOk result (λ ops. All IsPlaceable ops.items) }
{
    let Ok(ops) = ops(alloc, instr, map) else {
        return Err(NoMemory);
    };
    Ok(ops)
}

fn ops(alloc: Global, instr: &Instr, map: &Map) -> Result<Vec<Op>, AllocError>
    requires map { IsMap map.now }
    requires legal { IsLegal instr.now }
    requires built { IsBuilt instr.now }
    ensures { IfOk result (λ ops. ops.items ≡ tile instr.now map.now) }
{
    let symbolic = symbolic_tile(alloc, instr)?;
    ops_of(alloc, symbolic.as_slice(), map)
}

/// Whether the instruction has a tile here: it is no flow word and has no access.
pub fn is_built(instr: &Instr) -> bool
    ensures { IsTrue result ↔ IsBuilt instr.now }
{
    matches!(
        *instr,
        Instr::Immediate { .. }
            | Instr::LogicImmediate { .. }
            | Instr::Arithmetic { .. }
            | Instr::ArithmeticUnary { .. }
            | Instr::Logic { .. }
            | Instr::LogicUnary { .. }
            | Instr::ShiftImmediate { .. }
            | Instr::Rotate { .. }
            | Instr::CompareImmediate { .. }
            | Instr::Compare { .. }
            | Instr::CrLogic { .. }
            | Instr::MoveCrField { .. }
            | Instr::MoveFromCr { .. }
            | Instr::MoveToCr { .. }
            | Instr::MoveFromSpr { .. }
            | Instr::MoveToSpr { .. }
            | Instr::Sync
            | Instr::Isync
    )
}

/// The tile of the instruction, told without a map. It is no flow word and has no access.
///
/// # Errors
/// Where there is no memory for the ops.
pub fn symbolic_tile(alloc: Global, instr: &Instr) -> Result<Vec<SymbolicOp>, AllocError>
    requires legal { IsLegal instr.now }
    requires built { IsBuilt instr.now }
    ensures { IfOk result (λ ops. ops.items ≡ symbolic_tile_of instr.now) }
{
    match *instr {
        Instr::Immediate { op, d, a, imm } => recording(
            immediate(alloc, op, d, a, imm)?,
            immediate_records(op),
        ),
        Instr::LogicImmediate { op, s, a, imm } => recording(
            logic_immediate(alloc, op, s, a, imm)?,
            logic_immediate_records(op),
        ),
        Instr::Arithmetic {
            op,
            d,
            a,
            b,
            records,
        } => recording(arithmetic(alloc, op, d, a, b)?, records),
        Instr::ArithmeticUnary { op, d, a, records } => recording(
            arithmetic_unary(alloc, op, d, a)?,
            records,
        ),
        Instr::Logic {
            op,
            s,
            a,
            b,
            records,
        } => recording(logic(alloc, op, s, a, b)?, records),
        Instr::LogicUnary { op, s, a, records } => recording(
            logic_unary(alloc, op, s, a)?,
            records,
        ),
        Instr::ShiftImmediate { s, a, by, records } => recording(srawi(alloc, s, a, by)?, records),
        Instr::Rotate {
            op,
            s,
            a,
            by,
            mask_begin,
            mask_end,
            records,
        } => recording(rotate(alloc, op, s, a, by, mask_begin, mask_end)?, records),
        _ => without_record(alloc, instr),
    }
}

// The instructions that have no Rc.
fn without_record(alloc: Global, instr: &Instr) -> Ops
    requires legal { IsLegal instr.now }
    requires built { IsBuilt instr.now }
    requires plain { IsWithoutRecord instr.now }
    ensures { IfOk result (λ ops. ops.items ≡ symbolic_tile_of instr.now) }
{
    match *instr {
        Instr::CompareImmediate { op, field, a, imm } => compare_immediate(
            alloc, op, field, a, imm,
        ),
        Instr::Compare { op, field, a, b } => compare(alloc, op, field, a, b),
        Instr::CrLogic { op, d, a, b } => cr_logic(alloc, op, d, a, b),
        Instr::MoveCrField { to, from } => move_field(alloc, to, from),
        Instr::MoveFromCr { d } => move_from_cr(alloc, d),
        Instr::MoveToCr { s, mask } => move_to_cr(alloc, s, mask),
        Instr::MoveFromSpr { d, spr } => move_from_special(alloc, d, spr),
        Instr::MoveToSpr { s, spr } => move_to_special(alloc, s, spr),
        _ => Ok(Vec::new(alloc)),
    }
}
