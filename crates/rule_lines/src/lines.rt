//! The lines of a body.

ghost use Rattle.std.specs.Prelude.{◌≡◌, ◌≤◌, IfOk, length};
ghost use Rattle.std.specs.List.{All};
ghost use Rattle.rule_body.specs.Prelude.{IsBody, IsGoal, IsHostLine, template_of};
ghost use Rattle.machines.specs.Prelude.{extend_size as size_of};
ghost use Rattle.rule_soundness.specs.Shapes.{alu_destination, destination, x_source, y_source};
ghost use Rattle.row_circuits.specs.Bodies.{IsBodyLine};
ghost use Rattle.rule_lines.specs.Lines.{IsPlaced, HasPlace, IsPlacedLine, displacement_hole as displaced_by, immediate_hole as filled_by, leaves_of_op, line_for as line_of, lines_for, operand_results as results_of, results_for, second_for, second_operand as second_of, source_for};

use crate::places::{address, home_results, number, own_source, register_place};
use ia_codec::{AluOp, ExtendOp, Op, Operand as HostOperand, UnaryOp};
use place_circuits::{Results, Source};
use row_circuits::{BodyLine, Leaves, Operand};
use rule_body::{Body, Goal, Hole, HostLine};
use rule_soundness::ops_have_shapes;
use std::alloc::Global;
use word_kit::NoMemory;

// The hole of a line, where it fills the immediate.
#[tactic(auto, unfolding(rule_body::specs::Ops::parts))]
fn immediate_hole(line: &HostLine) -> Option<(Hole, u8)>
    ensures { result ≡ filled_by line.now }
{
    match line.op {
        Op::AluImm { .. } | Op::TestImm { .. } | Op::MovImm { .. } | Op::MovToImm { .. } =>
            line.hole,
        _ => None,
    }
}

// The hole of a line, where it fills the displacement of a sum.
#[tactic(auto, unfolding(rule_body::specs::Ops::parts))]
fn displacement_hole(line: &HostLine) -> Option<(Hole, u8)>
    ensures { result ≡ displaced_by line.now }
{
    match line.op {
        Op::MovTo { .. }
        | Op::MovFrom { .. }
        | Op::MovHalfTo { .. }
        | Op::MovByteTo { .. }
        | Op::MovByteFrom { .. }
        | Op::Lea { .. }
        | Op::Extend { .. } => line.hole,
        _ => None,
    }
}

// What an op may leave undefined.
fn leaves_of(op: &Op) -> Leaves
    ensures { result ≡ leaves_of_op op.now }
{
    let scans = matches!(op, Op::Bsr { .. });
    let multiplies = matches!(
        op,
        Op::Imul { .. }
            | Op::Unary {
                op: UnaryOp::Mul | UnaryOp::Imul1 | UnaryOp::Div | UnaryOp::Idiv,
                ..
            }
    );
    let shifts = matches!(op, Op::Shift { .. } | Op::ShiftByCl { .. });
    Leaves {
        value: scans,
        cf: scans,
        zf: multiplies,
        sf: scans || multiplies,
        of: scans || shifts,
    }
}

// The first value of an op.
fn first_source(slots: &[bool], line: &HostLine) -> Source
    requires few { length slots.now ≤ 6 }
    requires placed { IsPlacedLine slots.now line.now }
    ensures { result ≡ source_for slots.now line.now (x_source line.now.op) }
{
    match line.op {
        Op::AluTo { to, .. }
        | Op::AluImm { to, .. }
        | Op::Shift { to, .. }
        | Op::ShiftByCl { to, .. }
        | Op::TestReg { a: to, .. }
        | Op::TestImm { a: to, .. } => own_source(slots, 4, to),
        Op::AluFrom { to, .. } | Op::Imul { to, .. } | Op::Cmov { to, .. } | Op::Bsr { to, .. } => {
            Source::Place(register_place(slots, to))
        }
        Op::Unary {
            op: UnaryOp::Not | UnaryOp::Neg,
            ..
        } => Source::Zero,
        Op::Unary { .. } | Op::Cdq => Source::Place(13),
        _ => Source::Zero,
    }
}

// A second value that is an operand: bytes of a sum of registers are loaded.
fn second_operand(slots: &[bool], line: &HostLine, size: u8, operand: HostOperand) -> Operand
    requires few { length slots.now ≤ 6 }
    requires placed { IsPlaced slots.now size operand }
    requires hole { HasPlace line.now.hole }
    ensures { result ≡ second_of slots.now line.now size operand }
{
    match operand {
        HostOperand::Reg(_) | HostOperand::Abs(_) => {
            Operand::Own(own_source(slots, size, operand))
        }
        HostOperand::Base(..) | HostOperand::Pair(..) => {
            Operand::Loaded(address(slots, displacement_hole(line), operand), size)
        }
    }
}

fn extend_size(op: ExtendOp) -> u8
    ensures { result ≡ size_of op }
{
    match op {
        ExtendOp::MovzxByte | ExtendOp::MovsxByte => 1,
        ExtendOp::MovzxHalf | ExtendOp::MovsxHalf => 2,
    }
}

// The second value of an op.
fn second_source(slots: &[bool], line: &HostLine) -> Operand
    requires few { length slots.now ≤ 6 }
    requires placed { IsPlacedLine slots.now line.now }
    ensures { result ≡ second_for slots.now line.now (y_source line.now.op) }
{
    match line.op {
        Op::AluTo { from, .. }
        | Op::MovTo { from, .. }
        | Op::MovHalfTo { from, .. }
        | Op::MovByteTo { from, .. }
        | Op::TestReg { b: from, .. }
        | Op::Bswap { reg: from } => Operand::Own(Source::Place(register_place(slots, from))),
        Op::AluFrom { from, .. }
        | Op::Unary { on: from, .. }
        | Op::Imul { from, .. }
        | Op::MovFrom { from, .. }
        | Op::Cmov { from, .. }
        | Op::Bsr { from, .. } => second_operand(slots, line, 4, from),
        Op::MovByteFrom { from, .. } => second_operand(slots, line, 1, from),
        Op::Extend { op, from, .. } => second_operand(slots, line, extend_size(op), from),
        Op::AluImm { imm, .. }
        | Op::TestImm { imm, .. }
        | Op::MovImm { imm, .. }
        | Op::MovToImm { imm, .. } => Operand::Own(Source::Own(number(immediate_hole(line), imm))),
        Op::Shift { by, .. } => Operand::Own(Source::Own(number(immediate_hole(line), by as u32))),
        Op::ShiftByCl { .. } => Operand::Own(Source::Lowest(14, 1)),
        Op::Lea { from, .. } => {
            Operand::Own(Source::Sum(address(slots, displacement_hole(line), from)))
        }
        _ => Operand::Own(Source::Zero),
    }
}

// Where a result of so many bytes goes.
fn operand_results(slots: &[bool], line: &HostLine, size: u8, operand: HostOperand) -> Results
    requires few { length slots.now ≤ 6 }
    requires placed { IsPlaced slots.now size operand }
    requires hole { HasPlace line.now.hole }
    ensures { result ≡ results_of slots.now line.now size operand }
{
    match operand {
        HostOperand::Reg(register) => Results::Into(register_place(slots, register)),
        HostOperand::Abs(offset) => home_results(slots, size, offset),
        HostOperand::Base(..) | HostOperand::Pair(..) => {
            Results::Store(address(slots, displacement_hole(line), operand), size)
        }
    }
}

// Where the results of a sum, a difference or a bitwise op go: cmp has none.
fn alu_results(slots: &[bool], line: &HostLine, op: AluOp, operand: HostOperand) -> Results
    requires few { length slots.now ≤ 6 }
    requires placed { IsPlaced slots.now 4 operand }
    requires hole { HasPlace line.now.hole }
    ensures { result ≡ results_for slots.now line.now (alu_destination op operand) }
{
    match op {
        AluOp::Cmp => Results::Nowhere,
        _ => operand_results(slots, line, 4, operand),
    }
}

// Where the results of an op go.
fn results(slots: &[bool], line: &HostLine) -> Results
    requires few { length slots.now ≤ 6 }
    requires placed { IsPlacedLine slots.now line.now }
    ensures { result ≡ results_for slots.now line.now (destination line.now.op) }
{
    match line.op {
        Op::AluTo { op, to, .. } | Op::AluImm { op, to, .. } => alu_results(slots, line, op, to),
        Op::AluFrom { op, to, .. } => alu_results(slots, line, op, HostOperand::Reg(to)),
        Op::Unary {
            op: UnaryOp::Not | UnaryOp::Neg,
            on,
        } => operand_results(slots, line, 4, on),
        Op::Unary { .. } => Results::Both(13, 15),
        Op::MovTo { to, .. }
        | Op::MovToImm { to, .. }
        | Op::Shift { to, .. }
        | Op::ShiftByCl { to, .. } => operand_results(slots, line, 4, to),
        Op::MovHalfTo { to, .. } => operand_results(slots, line, 2, to),
        Op::MovByteTo { to, .. } => operand_results(slots, line, 1, to),
        Op::Imul { to, .. }
        | Op::MovFrom { to, .. }
        | Op::MovImm { to, .. }
        | Op::Lea { to, .. }
        | Op::Extend { to, .. }
        | Op::Bswap { reg: to }
        | Op::Cmov { to, .. }
        | Op::Bsr { to, .. } => Results::Into(register_place(slots, to)),
        Op::MovByteFrom { to, .. }
        | Op::Set {
            to: HostOperand::Reg(to),
            ..
        } => { Results::Lowest(register_place(slots, to), 1) }
        Op::Set { to, .. } => operand_results(slots, line, 1, to),
        Op::Cdq => Results::High(15),
        _ => Results::Nowhere,
    }
}

// A line over places.
fn line_for(slots: &[bool], line: &HostLine) -> BodyLine
    requires few { length slots.now ≤ 6 }
    requires placed { IsPlacedLine slots.now line.now }
    ensures { result ≡ line_of slots.now line.now }
{
    BodyLine {
        op: line.op,
        leaves: leaves_of(&line.op),
        x: first_source(slots, line),
        y: second_source(slots, line),
        results: results(slots, line),
    }
}

/// The lines of a body for a goal.
///
/// # Errors
/// Where there is no memory for them.
pub fn body_lines(alloc: Global, goal: &Goal, body: &Body) -> Result<Vec<BodyLine>, NoMemory>
    requires goal { IsGoal goal.now }
    requires body { IsBody goal.now body.now }
    ensures exact { IfOk result (λ r. r.items ≡ lines_for goal.now body.now) }
    ensures lines { IfOk result (λ r. All IsBodyLine r.items) }
{
    ops_have_shapes();
    let slots = &goal.slots[..goal.parameters as usize];
    let mut lines = Vec::new(alloc);
    for i in 0..body.count as usize {
        lines.push(line_for(slots, &body.lines[i]))?;
    }
    Ok(lines)
}
