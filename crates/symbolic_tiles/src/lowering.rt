//! The op of the host that a symbolic op is under a map, and the item of a tile's code.

ghost use Rattle.std.specs.Prelude.{◌≡◌, IfOk};
ghost use Rattle.reg_map.specs.Prelude.{home as home_of, IsMap, place};
ghost use Rattle.symbolic_tiles.specs.SymbolicOps.{op_of as op_under, operand_of as operand_under, ops_of as ops_under, load_op, store_op};
ghost use Rattle.symbolic_tiles.specs.TileItems.{flow_of as flow_under, flows_of as flows_under, code_of};

use crate::flow_op::FlowOp;
use crate::symbolic_op::{AccessSize, SymbolicOp, SymbolicOperand};
use crate::tile_item::TileItem;
use ia_codec::{Condition, ExtendOp, Op, Operand, UnaryOp};
use ppc_isa::Map;
use reg_map::{EBX, alu_from, loc, mov_from};
use std::alloc::{AllocError, Global};

// The place of a word location.
fn word(map: &Map, x: u8) -> Operand
    requires map { IsMap map.now }
    ensures { result ≡ place map.now x }
{
    if x < 32 {
        loc(map, x)
    } else {
        Operand::Abs(4 * x as u32)
    }
}

fn operand(map: &Map, source: SymbolicOperand) -> Operand
    requires map { IsMap map.now }
    ensures { result ≡ operand_under map.now source }
{
    match source {
        SymbolicOperand::Temporary(r) => Operand::Reg(r),
        SymbolicOperand::Location(x) => word(map, x),
    }
}

// The home of any location.
fn home(x: u8) -> Operand
    ensures { result ≡ Operand.Abs (home_of x) }
{
    if x < 34 {
        Operand::Abs(4 * x as u32)
    } else {
        Operand::Abs(102 + x as u32)
    }
}

fn load(size: AccessSize, to: u8, from: Operand) -> Op
    ensures { result ≡ load_op size to from }
{
    match size {
        AccessSize::Byte => Op::Extend {
            op: ExtendOp::MovzxByte,
            to,
            from,
        },
        AccessSize::Half => Op::Extend {
            op: ExtendOp::MovzxHalf,
            to,
            from,
        },
        AccessSize::Word => Op::MovFrom { to, from },
    }
}

fn store(size: AccessSize, to: Operand, from: u8) -> Op
    ensures { result ≡ store_op size to from }
{
    match size {
        AccessSize::Byte => Op::MovByteTo { to, from },
        AccessSize::Half => Op::MovHalfTo { to, from },
        AccessSize::Word => Op::MovTo { to, from },
    }
}

/// The host's op for the symbolic op under the map; absolute operands are offsets in the home page.
pub fn op_of(map: &Map, op: SymbolicOp) -> Op
    requires map { IsMap map.now }
    ensures { result ≡ op_under map.now op }
{
    match op {
        SymbolicOp::Mov(r, source) => mov_from(r, operand(map, source)),
        SymbolicOp::MovImmediate(r, v) => Op::MovImm { to: r, imm: v },
        SymbolicOp::Put(x, r) => Op::MovTo {
            to: word(map, x),
            from: r,
        },
        SymbolicOp::PutImmediate(x, v) => Op::MovToImm {
            to: word(map, x),
            imm: v,
        },
        SymbolicOp::Alu(op, r, source) => alu_from(op, r, operand(map, source)),
        SymbolicOp::AluImmediate(op, r, v) => Op::AluImm {
            op,
            to: Operand::Reg(r),
            imm: v,
        },
        SymbolicOp::Test(r, q) => Op::TestReg {
            a: Operand::Reg(r),
            b: q,
        },
        SymbolicOp::TestImmediate(r, v) => Op::TestImm {
            a: Operand::Reg(r),
            imm: v,
        },
        SymbolicOp::Invert(r) => Op::Unary {
            op: UnaryOp::Not,
            on: Operand::Reg(r),
        },
        SymbolicOp::Negate(r) => Op::Unary {
            op: UnaryOp::Neg,
            on: Operand::Reg(r),
        },
        SymbolicOp::Multiply(r, source) => Op::Imul {
            to: r,
            from: operand(map, source),
        },
        SymbolicOp::MultiplyWide(signed, source) => Op::Unary {
            op: if signed { UnaryOp::Imul1 } else { UnaryOp::Mul },
            on: operand(map, source),
        },
        SymbolicOp::Divide(signed, r) => Op::Unary {
            op: if signed { UnaryOp::Idiv } else { UnaryOp::Div },
            on: Operand::Reg(r),
        },
        SymbolicOp::ShiftBy(op, r, n) => Op::Shift {
            op,
            to: Operand::Reg(r),
            by: n,
        },
        SymbolicOp::ShiftCl(op, r) => Op::ShiftByCl {
            op,
            to: Operand::Reg(r),
        },
        SymbolicOp::Widen(op, r, q) => Op::Extend {
            op,
            to: r,
            from: Operand::Reg(q),
        },
        SymbolicOp::SwapBytes(r) => Op::Bswap { reg: r },
        SymbolicOp::MoveIf(condition, r, q) => Op::Cmov {
            condition,
            to: r,
            from: Operand::Reg(q),
        },
        SymbolicOp::Scan(r, source) => Op::Bsr {
            to: r,
            from: operand(map, source),
        },
        SymbolicOp::Signs => Op::Cdq,
        SymbolicOp::FetchByte(r, x) => Op::Extend {
            op: ExtendOp::MovzxByte,
            to: r,
            from: home(x),
        },
        SymbolicOp::PutByte(x, r) => Op::MovByteTo {
            to: home(x),
            from: r,
        },
        SymbolicOp::SetByte(condition, x) => Op::Set {
            condition,
            to: home(x),
        },
        SymbolicOp::Load(size, r, b, d) => load(size, r, Operand::Base(b, d)),
        SymbolicOp::Store(size, b, d, r) => store(size, Operand::Base(b, d), r),
    }
}

/// The host's ops, one for each symbolic op, in order.
///
/// # Errors
/// Where there is no memory for them.
pub fn ops_of(alloc: Global, symbolic: &[SymbolicOp], map: &Map) -> Result<Vec<Op>, AllocError>
    requires map { IsMap map.now }
    ensures { IfOk result (λ ops. ops.items ≡ ops_under symbolic.now map.now) }
{
    let mut made = Vec::new(alloc);
    for op in symbolic {
        made.push(op_of(map, *op))?;
    }
    Ok(made)
}

// The number of a condition in opcodes; 16 is always.
fn code(condition: Option<Condition>) -> u8
    ensures { result ≡ code_of condition }
{
    match condition {
        None => 16,
        Some(Condition::Below) => 2,
        Some(Condition::NotBelow) => 3,
        Some(Condition::Equal) => 4,
        Some(Condition::NotEqual) => 5,
        Some(Condition::NotAbove) => 6,
        Some(Condition::Above) => 7,
        Some(Condition::Sign) => 8,
        Some(Condition::NotSign) => 9,
        Some(Condition::Less) => 12,
        Some(Condition::NotLess) => 13,
        Some(Condition::NotGreater) => 14,
        Some(Condition::Greater) => 15,
    }
}

/// The item of the code under the map.
pub fn flow_of(map: &Map, item: TileItem) -> FlowOp
    requires map { IsMap map.now }
    ensures { result ≡ flow_under map.now item }
{
    match item {
        TileItem::Do(op) => FlowOp::Plain(op_of(map, op)),
        TileItem::JumpIf(condition, mark) => FlowOp::Jump(code(condition), mark),
        TileItem::Label(mark) => FlowOp::Mark(mark),
        TileItem::LoadEbx(x) => FlowOp::Plain(mov_from(EBX, word(map, x))),
        TileItem::BranchTo(target) => FlowOp::Edge(target),
        TileItem::BranchIndirect => FlowOp::Leap,
        TileItem::Interrupt => FlowOp::Plain(Op::Int80),
        TileItem::Trap => FlowOp::Plain(Op::Int3),
        TileItem::Undefined => FlowOp::Plain(Op::Ud2),
    }
}

/// The items of the code, one for each of the tile's, in order.
///
/// # Errors
/// Where there is no memory for them.
pub fn flows_of(alloc: Global, items: &[TileItem], map: &Map) -> Result<Vec<FlowOp>, AllocError>
    requires map { IsMap map.now }
    ensures { IfOk result (λ flows. flows.items ≡ flows_under items.now map.now) }
{
    let mut made = Vec::new(alloc);
    for item in items {
        made.push(flow_of(map, *item))?;
    }
    Ok(made)
}
