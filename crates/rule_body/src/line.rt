//! Lines of a body: an op, and which constant of the window fills it.

ghost use Rattle.std.specs.Prelude.{◌≡◌, ◌↔◌, ◌<◌, ◌≤◌, ◌+◌, ◌-◌, ◌*◌, ◌++◌, ℕ, IsTrue, IsBitSet, false, slice_get};
ghost use Rattle.std.specs.List.{AllByRecursion};
ghost use Rattle.rule_body.specs.declared.goal.Goal.{Goal};
ghost use Rattle.rule_body.specs.Templates.{slot_count as slots_in, IsEndingWord, HasConstant};
ghost use Rattle.rule_body.specs.Goals.{IsGoal, guests_of, template_of};
ghost use Rattle.rule_body.specs.Ops.{operand_registers, register_list};
ghost use Rattle.rule_body.specs.Lines.{is_usable as usable, IsHome, IsKept, IsOperandFor, IsHoleFor, IsHostLine};

use crate::goal::{Goal, Guest, guest_at, is_ending_word};
use crate::operands::{OpParts, filled, is_straight, parts};
use ia_codec::{Op, Operand, in_profile};

/// How a constant fills an op: read as signed, read as unsigned, multiplied by 65536, or read as signed and negated.
#[derive(Clone, Copy, PartialEq, Eq, Debug)]
pub enum Hole {
    S,
    Z,
    H,
    N,
}

/// An op of a body, and its hole with the number of the guest word whose constant fills it, counted from 0. The filled
/// field is 0.
#[derive(Clone, Copy)]
pub struct HostLine {
    pub op: Op,
    pub hole: Option<(Hole, u8)>,
}

/// How many of the parameters stand in slots.
pub fn slot_count(slots: &[bool]) -> usize
    ensures { result ≡ slots_in slots.now }
{
    slots.iter().filter(|slot| **slot).count()
}

fn is_usable(slots: usize, register: u8) -> bool
    ensures { result ≡ usable slots register }
{
    register < 3
        || register == 3 && slots > 0
        || register == 6 && slots > 1
        || register == 7 && slots > 2
}

fn operand_is_usable(slots: usize, operand: Option<Operand>) -> bool
    ensures { IsTrue result ↔ AllByRecursion (λ r. IsTrue (usable slots r)) (operand_registers operand) }
{
    match operand {
        None | Some(Operand::Abs(_)) => true,
        Some(Operand::Reg(register) | Operand::Base(register, _)) => is_usable(slots, register),
        Some(Operand::Pair(base, index, ..)) => is_usable(slots, base) && is_usable(slots, index),
    }
}

fn register_is_usable(slots: usize, register: Option<u8>) -> bool
    ensures { IsTrue result ↔ AllByRecursion (λ r. IsTrue (usable slots r)) (register_list register) }
{
    match register {
        None => true,
        Some(register) => is_usable(slots, register),
    }
}

fn registers_fit(slots: usize, parts: &OpParts) -> bool
    ensures { IsTrue result ↔ AllByRecursion (λ r. IsTrue (usable slots r)) (operand_registers parts.now.operand ++ register_list parts.now.register) }
{
    operand_is_usable(slots, parts.operand) && register_is_usable(slots, parts.register)
}

// Whether the home of a parameter that stands there begins at the offset.
fn is_parameter_home(slots: &[bool], offset: u32) -> bool
    ensures { IsTrue result ↔ ((k : ℕ) × (offset ≡ 4 * (k + 1)) × (slice_get slots.now k ≡ Some false)) }
{
    offset % 4 == 0 && offset >= 4 && slots.get(offset as usize / 4 - 1) == Some(&false)
}

fn is_home(slots: &[bool], offset: u32, width: u32) -> bool
    requires { width ≤ 4 }
    ensures { IsTrue result ↔ IsHome slots.now offset width }
{
    is_parameter_home(slots, offset) || offset >= 128 && offset <= 148 && offset + width <= 148
}

// Whether a byte of the home page is the home of a dead location.
fn is_dead_home(dead: u32, byte: u32) -> bool
    requires { byte < 148 }
    ensures { IsTrue result ↔ ((136 ≤ byte) × IsBitSet dead (byte - 128)) }
{
    byte >= 136 && dead >> (byte - 128) & 1 == 1
}

// Whether no byte from the offset on is the home of a dead location.
fn is_kept(dead: u32, offset: u32, width: u32) -> bool
    requires below { offset + width ≤ 148 }
    ensures { IsTrue result ↔ IsKept dead offset width }
{
    for byte in offset..offset + width {
        if is_dead_home(dead, byte) {
            return false;
        }
    }
    true
}

// Whether an operand may stand in a body of the goal, in an op with these parts.
fn operand_fits(goal: &Goal, parts: &OpParts) -> bool
    requires goal { IsGoal goal.now }
    requires width { parts.now.width ≤ 4 }
    ensures { IsTrue result ↔ IsOperandFor (template_of goal.now) parts.now parts.now.operand }
{
    match parts.operand {
        None | Some(Operand::Reg(_)) => true,
        Some(Operand::Abs(offset)) => {
            let slots = &goal.slots[..goal.parameters as usize];
            is_home(slots, offset, parts.width)
                && (!parts.written || is_kept(goal.dead.bits, offset, parts.width))
        }
        Some(Operand::Base(..) | Operand::Pair(..)) => parts.moves,
    }
}

// Whether guest word j has an immediate that stands for every value.
fn has_constant(goal: &Goal, j: u8) -> bool
    requires { IsGoal goal.now }
    ensures { IsTrue result ↔ HasConstant (guests_of goal.now) j }
{
    match guest_at(goal, j) {
        Some(Guest { word, free: true }) => !is_ending_word(word),
        _ => false,
    }
}

fn hole_fits(goal: &Goal, line: &HostLine) -> bool
    requires { IsGoal goal.now }
    ensures { IsTrue result ↔ IsHoleFor (template_of goal.now) line.now.op line.now.hole }
{
    match line.hole {
        None => true,
        Some((_, j)) => has_constant(goal, j) && filled(&line.op) == Some(0),
    }
}

/// Whether a line may stand in a body for the goal.
pub fn fits(goal: &Goal, line: &HostLine) -> bool
    requires { IsGoal goal.now }
    ensures { IsTrue result ↔ IsHostLine (template_of goal.now) line.now }
{
    let parts = parts(&line.op);
    in_profile(&line.op)
        && is_straight(&line.op)
        && registers_fit(slot_count(&goal.slots[..goal.parameters as usize]), &parts)
        && operand_fits(goal, &parts)
        && hole_fits(goal, line)
}
