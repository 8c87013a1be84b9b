//! Items as bytes at their address.

ghost use Rattle.std.specs.Prelude.{◌≡◌, ◌≤◌, ◌<◌, ◌+◌, ◌*◌, ◌^◌, ◌++◌, OnOk, All, length, vec_len};
ghost use Rattle.machines.specs.Prelude.{spelling, IsInProfile, IsOperand};
ghost use Rattle.reg_map.specs.Prelude.{operand_at as operand_over, op_at};
ghost use Rattle.code_layout.specs.Code.{IsLaid, jump as jump_of, item_length as length_of, items_length, before_mark as before_mark_of, spelled, leap_bytes, item_bytes, items_bytes};
ghost use Rattle.code_layout.specs.Leap.{leap_ops as leap_ops_of};
ghost use Rattle.code_layout.specs.Places.{no_moves};
ghost use Rattle.code_layout.specs.PlacesOf.{places_of};

use crate::places::Layout;
use base_flow::FlowOp;
use ia_codec::{AluOp, Condition, Op, Operand, encode};
use reg_map::{EAX, ECX};
use word_kit::NoMemory;

// The indirect sequence has 32 bytes, and its jump to `hold` ends 26 behind its start.
const LEAP_LENGTH: u32 = 32;

const TO_HOLD_END: u32 = 26;

/// The length of the items in bytes.
pub fn length(items: &[FlowOp]) -> u32
    requires laid { All IsLaid items.now }
    requires few { length items.now ≤ 8577 }
    ensures value { result ≡ items_length no_moves items.now }
    ensures bound { result ≤ 32 * length items.now }
{
    let mut bytes = 0;
    for item in items {
        bytes += item_length(item);
    }
    bytes
}

// The length of an item in bytes. Edges have no moves.
fn item_length(item: &FlowOp) -> u32
    requires { IsLaid item.now }
    ensures value { result ≡ length_of no_moves item.now }
    ensures bound { result ≤ 32 }
{
    match item {
        FlowOp::Plain(op) => encode(op).len as u32,
        FlowOp::Jump(condition, _) => encode(&jump(*condition, 0)).len as u32,
        FlowOp::Mark(_) => 0,
        FlowOp::Edge(_) => encode(&Op::Jmp { rel: 0 }).len as u32,
        FlowOp::Leap => LEAP_LENGTH,
    }
}

// How many bytes stand before a mark.
fn before_mark(items: &[FlowOp], mark: u8) -> u32
    requires laid { All IsLaid items.now }
    requires few { length items.now ≤ 8577 }
    ensures { result ≡ before_mark_of no_moves items.now mark }
{
    let mut bytes = 0;
    for item in items {
        if matches!(item, FlowOp::Mark(here) if *here == mark) {
            return bytes;
        }
        bytes += item_length(item);
    }
    bytes
}

/// Puts the items behind the code that stands already.
pub fn put(code: &mut Vec<u8>, items: &[FlowOp], layout: &Layout<'_>) -> Result<(), NoMemory>
    requires laid { All IsLaid items.now }
    requires few { length items.now ≤ 8577 }
    requires room { layout.now.code + vec_len code.old + 32 * length items.now < 2 ^ 32 }
    ensures bytes { OnOk result (code.new.items ≡ code.old.items ++ items_bytes (places_of layout.now) (layout.now.code + vec_len code.old) items.now) }
    ensures length { OnOk result (vec_len code.new ≡ vec_len code.old + items_length no_moves items.now) }
    ensures bound { OnOk result (vec_len code.new ≤ vec_len code.old + 32 * length items.now) }
{
    for (place, item) in items.iter().enumerate() {
        let rest = &items[place + 1..];
        put_item(code, item, rest, layout)?;
    }
    Ok(())
}

// Puts one item, before the rest of its tile.
fn put_item(
    code: &mut Vec<u8>,
    item: &FlowOp,
    rest: &[FlowOp],
    layout: &Layout<'_>,
) -> Result<(), NoMemory>
    requires laid { IsLaid item.now }
    requires rest { All IsLaid rest.now }
    requires few { length rest.now ≤ 8577 }
    requires room { layout.now.code + vec_len code.old + 32 < 2 ^ 32 }
    ensures bytes { OnOk result (code.new.items ≡ code.old.items ++ item_bytes (places_of layout.now) (layout.now.code + vec_len code.old) item.now rest.now) }
    ensures length { OnOk result (vec_len code.new ≡ vec_len code.old + length_of no_moves item.now) }
    ensures bound { OnOk result (vec_len code.new ≤ vec_len code.old + 32) }
{
    match item {
        FlowOp::Plain(op) => put_op(code, &at_home(*op, layout.area)),
        FlowOp::Jump(condition, mark) => put_op(code, &jump(*condition, before_mark(rest, *mark))),
        FlowOp::Mark(_) => Ok(()),
        FlowOp::Edge(address) => {
            let next = layout.code + code.len() as u32 + encode(&Op::Jmp { rel: 0 }).len as u32;
            put_op(
                code,
                &Op::Jmp {
                    rel: layout.target(*address).wrapping_sub(next),
                },
            )
        }
        FlowOp::Leap => put_leap(code, layout),
    }
}

// The ops of the indirect sequence before its jumps.
fn leap_ops(first: u32, count: u32) -> [Op; 4]
    requires { count ≤ 131072 }
    ensures value { result ≡ leap_ops_of first count }
    ensures profile { All IsInProfile result }
{
    [
        Op::AluImm {
            op: AluOp::And,
            to: Operand::Reg(ECX),
            imm: 0xFFFF_FFFC,
        },
        Op::MovTo {
            to: Operand::Reg(EAX),
            from: ECX,
        },
        Op::AluImm {
            op: AluOp::Sub,
            to: Operand::Reg(EAX),
            imm: first,
        },
        Op::AluImm {
            op: AluOp::Cmp,
            to: Operand::Reg(EAX),
            imm: 4 * count,
        },
    ]
}

// Puts the spellings of ops one behind another.
fn put_ops(code: &mut Vec<u8>, ops: &[Op]) -> Result<(), NoMemory>
    requires { All IsInProfile ops.now }
    ensures spelled { OnOk result (code.new.items ≡ code.old.items ++ spelled ops.now) }
    ensures length { OnOk result (vec_len code.new ≡ vec_len code.old + length (spelled ops.now)) }
{
    for op in ops {
        put_op(code, op)?;
    }
    Ok(())
}

// Puts the indirect sequence.
fn put_leap(code: &mut Vec<u8>, layout: &Layout<'_>) -> Result<(), NoMemory>
    requires room { layout.now.code + vec_len code.old + 32 < 2 ^ 32 }
    ensures bytes { OnOk result (code.new.items ≡ code.old.items ++ leap_bytes (places_of layout.now) (layout.now.code + vec_len code.old)) }
    ensures length { OnOk result (vec_len code.new ≡ vec_len code.old + 32) }
{
    let jumps = layout.code + code.len() as u32 + TO_HOLD_END;
    put_ops(code, &leap_ops(layout.first, layout.entries.len() as u32))?;
    put_op(
        code,
        &Op::Jcc {
            condition: Condition::NotBelow,
            rel: layout.code.wrapping_sub(jumps),
        },
    )?;
    put_op(
        code,
        &Op::JmpTo {
            to: Operand::Base(EAX, layout.table),
        },
    )
}

// A jump over so many bytes: on the condition of this number, or always.
fn jump(condition: u8, rel: u32) -> Op
    ensures value { result ≡ jump_of condition rel }
    ensures profile { IsInProfile result }
{
    match Condition::from_code(condition) {
        Some(condition) => Op::Jcc { condition, rel },
        None => Op::Jmp { rel },
    }
}

/// Puts the spelling of an op.
pub fn put_op(code: &mut Vec<u8>, op: &Op) -> Result<(), NoMemory>
    requires { IsInProfile op.now }
    ensures spelled { OnOk result (code.new.items ≡ code.old.items ++ spelling op.now) }
    ensures length { OnOk result (vec_len code.new ≡ vec_len code.old + length (spelling op.now)) }
    ensures bound { OnOk result (vec_len code.new ≤ vec_len code.old + 12) }
{
    let spelled = encode(op);
    code.extend_from_slice(&spelled.bytes[..spelled.len as usize])?;
    Ok(())
}

// The operand over the home page at `area`.
fn operand_at(operand: Operand, area: u32) -> Operand
    requires { IsOperand (operand_over area operand) }
    ensures { result ≡ operand_over area operand }
{
    match operand {
        Operand::Abs(offset) => Operand::Abs(area + offset),
        other => other,
    }
}

// The op over the home page at `area`.
fn at_home(op: Op, area: u32) -> Op
    requires { IsInProfile (op_at area op) }
    ensures { result ≡ op_at area op }
{
    match op {
        Op::AluTo { op, to, from } => Op::AluTo {
            op,
            to: operand_at(to, area),
            from,
        },
        Op::AluFrom { op, to, from } => Op::AluFrom {
            op,
            to,
            from: operand_at(from, area),
        },
        Op::AluImm { op, to, imm } => Op::AluImm {
            op,
            to: operand_at(to, area),
            imm,
        },
        Op::TestReg { a, b } => Op::TestReg {
            a: operand_at(a, area),
            b,
        },
        Op::TestImm { a, imm } => Op::TestImm {
            a: operand_at(a, area),
            imm,
        },
        Op::Unary { op, on } => Op::Unary {
            op,
            on: operand_at(on, area),
        },
        Op::Imul { to, from } => Op::Imul {
            to,
            from: operand_at(from, area),
        },
        Op::MovTo { to, from } => Op::MovTo {
            to: operand_at(to, area),
            from,
        },
        Op::MovFrom { to, from } => Op::MovFrom {
            to,
            from: operand_at(from, area),
        },
        Op::MovToImm { to, imm } => Op::MovToImm {
            to: operand_at(to, area),
            imm,
        },
        Op::MovHalfTo { to, from } => Op::MovHalfTo {
            to: operand_at(to, area),
            from,
        },
        Op::MovByteTo { to, from } => Op::MovByteTo {
            to: operand_at(to, area),
            from,
        },
        Op::MovByteFrom { to, from } => Op::MovByteFrom {
            to,
            from: operand_at(from, area),
        },
        Op::Shift { op, to, by } => Op::Shift {
            op,
            to: operand_at(to, area),
            by,
        },
        Op::ShiftByCl { op, to } => Op::ShiftByCl {
            op,
            to: operand_at(to, area),
        },
        Op::Lea { to, from } => Op::Lea {
            to,
            from: operand_at(from, area),
        },
        Op::Extend { op, to, from } => Op::Extend {
            op,
            to,
            from: operand_at(from, area),
        },
        Op::Set { condition, to } => Op::Set {
            condition,
            to: operand_at(to, area),
        },
        Op::Cmov {
            condition,
            to,
            from,
        } => Op::Cmov {
            condition,
            to,
            from: operand_at(from, area),
        },
        Op::Bsr { to, from } => Op::Bsr {
            to,
            from: operand_at(from, area),
        },
        Op::JmpTo { to } => Op::JmpTo {
            to: operand_at(to, area),
        },
        other => other,
    }
}
