//! The register fields of instructions, by their bits.

ghost use Rattle.std.specs.Prelude.{◌≡◌};
ghost use Rattle.rule_soundness.specs.Prelude.{base_field as base_of};
ghost use Rattle.rule_soundness.specs.Fields.{s_field as s_of, a_field as a_of, b_field as b_of};
ghost use Rattle.rule_match.specs.Matching.{register_in as register_for};

use ppc_isa::{ImmediateOp, Instr, RotateOp};

// The register of bits 6 to 10.
fn s_field(instr: &Instr) -> Option<u8>
    ensures { result ≡ s_of instr.now }
{
    match *instr {
        Instr::Immediate { d: s, .. }
        | Instr::LogicImmediate { s, .. }
        | Instr::Load { d: s, .. }
        | Instr::Store { s, .. }
        | Instr::LoadUpdate { d: s, .. }
        | Instr::StoreUpdate { s, .. }
        | Instr::Rotate { s, .. }
        | Instr::Arithmetic { d: s, .. }
        | Instr::ArithmeticUnary { d: s, .. }
        | Instr::Logic { s, .. }
        | Instr::ShiftImmediate { s, .. }
        | Instr::LogicUnary { s, .. }
        | Instr::MoveFromCr { d: s }
        | Instr::MoveToCr { s, .. }
        | Instr::MoveFromSpr { d: s, .. }
        | Instr::MoveToSpr { s, .. }
        | Instr::LoadIndexed { d: s, .. }
        | Instr::StoreIndexed { s, .. }
        | Instr::LoadIndexedUpdate { d: s, .. }
        | Instr::StoreIndexedUpdate { s, .. } => Some(s),
        _ => None,
    }
}

// The register of bits 11 to 15.
fn a_field(instr: &Instr) -> Option<u8>
    ensures { result ≡ a_of instr.now }
{
    match *instr {
        Instr::Immediate { a, .. }
        | Instr::LogicImmediate { a, .. }
        | Instr::Load { a, .. }
        | Instr::Store { a, .. }
        | Instr::LoadUpdate { a, .. }
        | Instr::StoreUpdate { a, .. }
        | Instr::TrapImmediate { a, .. }
        | Instr::CompareImmediate { a, .. }
        | Instr::Rotate { a, .. }
        | Instr::Arithmetic { a, .. }
        | Instr::ArithmeticUnary { a, .. }
        | Instr::Logic { a, .. }
        | Instr::ShiftImmediate { a, .. }
        | Instr::LogicUnary { a, .. }
        | Instr::Compare { a, .. }
        | Instr::Trap { a, .. }
        | Instr::LoadIndexed { a, .. }
        | Instr::StoreIndexed { a, .. }
        | Instr::LoadIndexedUpdate { a, .. }
        | Instr::StoreIndexedUpdate { a, .. } => Some(a),
        _ => None,
    }
}

// The register of bits 16 to 20.
fn b_field(instr: &Instr) -> Option<u8>
    ensures { result ≡ b_of instr.now }
{
    match *instr {
        Instr::Rotate {
            op: RotateOp::Rlwnm,
            by: b,
            ..
        }
        | Instr::Arithmetic { b, .. }
        | Instr::Logic { b, .. }
        | Instr::Compare { b, .. }
        | Instr::Trap { b, .. }
        | Instr::LoadIndexed { b, .. }
        | Instr::StoreIndexed { b, .. }
        | Instr::LoadIndexedUpdate { b, .. }
        | Instr::StoreIndexedUpdate { b, .. } => Some(b),
        _ => None,
    }
}

/// The field of an instruction in which 0 names the number 0.
pub fn base_field(instr: &Instr) -> Option<u8>
    ensures { result ≡ base_of instr.now }
{
    match *instr {
        Instr::Immediate {
            op: ImmediateOp::Addi | ImmediateOp::Addis,
            a,
            ..
        }
        | Instr::Load { a, .. }
        | Instr::Store { a, .. }
        | Instr::LoadIndexed { a, .. }
        | Instr::StoreIndexed { a, .. } => Some(a),
        _ => None,
    }
}

/// What stands in the first field of an instruction, from the left, in which another has the number.
pub fn register_in(instr: &Instr, found: &Instr, number: u8) -> Option<u8>
    ensures { result ≡ register_for instr.now found.now number }
{
    if s_field(instr) == Some(number) {
        s_field(found)
    } else if a_field(instr) == Some(number) {
        a_field(found)
    } else if b_field(instr) == Some(number) {
        b_field(found)
    } else {
        None
    }
}
