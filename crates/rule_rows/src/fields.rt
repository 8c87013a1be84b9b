//! What a word of a window reads and where its results go, by the fields of its instruction.

ghost use Rattle.std.specs.Prelude.{◌≡◌, ◌<◌, ◌≤◌, ◌+◌, Some, if◌then◌else◌};
ghost use Rattle.place_circuits.specs.declared.constants.Number.TheVariants.{Filled, Written};
ghost use Rattle.place_circuits.specs.declared.sources.Source.TheVariants.{Own};
ghost use Rattle.rule_soundness.specs.Fields.{a_field, b_field, s_field, immediate, load_width as width_of, written};
ghost use Rattle.rule_rows.specs.Rows.{register_source as source_for, second_source as second_for, register_target as target_for, row_for as row_of};

use place_circuits::{Number, Source};
use ppc_isa::{
    CompareImmediateOp, ImmediateOp, Instr, LoadIndexedOp, LoadIndexedUpdateOp, LoadOp,
    LoadUpdateOp, LogicImmediateOp, RotateOp,
};
use reg_map::signed_immediate;
use row_circuits::WindowRow;
use rule_body::{Guest, Hole};

// What a register field reads: the place of its parameter, or 0 in the place of a base.
fn register_source(parameter: u8) -> Source
    ensures { result ≡ source_for (Some parameter) }
{
    if parameter == 0 {
        Source::Zero
    } else {
        Source::Place(parameter - 1)
    }
}

// The register of bits 11 to 15.
fn first_source(instr: &Instr) -> Source
    ensures { result ≡ source_for (a_field instr.now) }
{
    match *instr {
        Instr::Immediate { a, .. }
        | Instr::LogicImmediate { a, .. }
        | Instr::Load { a, .. }
        | Instr::Store { a, .. }
        | Instr::LoadUpdate { a, .. }
        | Instr::StoreUpdate { a, .. }
        | Instr::TrapImmediate { a, .. }
        | Instr::CompareImmediate { a, .. }
        | Instr::Rotate { a, .. }
        | Instr::Arithmetic { a, .. }
        | Instr::ArithmeticUnary { a, .. }
        | Instr::Logic { a, .. }
        | Instr::ShiftImmediate { a, .. }
        | Instr::LogicUnary { a, .. }
        | Instr::Compare { a, .. }
        | Instr::Trap { a, .. }
        | Instr::LoadIndexed { a, .. }
        | Instr::StoreIndexed { a, .. }
        | Instr::LoadIndexedUpdate { a, .. }
        | Instr::StoreIndexedUpdate { a, .. } => register_source(a),
        _ => Source::Zero,
    }
}

// An immediate: a number, or where the word is free what the constant at a place fills.
fn own_number(free: bool, hole: Hole, constant: u8, number: u32) -> Source
    ensures { result ≡ Own (if free then Filled hole constant else Written number) }
{
    if free {
        Source::Own(Number::Filled(hole, constant))
    } else {
        Source::Own(Number::Written(number))
    }
}

// The immediate of word `place`, or else the register of bits 16 to 20.
fn second_source(instr: &Instr, free: bool, place: u8) -> Source
    requires { place < 3 }
    ensures { result ≡ second_for place free (immediate instr.now) (b_field instr.now) }
{
    let constant = 20 + place;
    match *instr {
        Instr::Immediate {
            op: ImmediateOp::Addis,
            imm,
            ..
        }
        | Instr::LogicImmediate {
            op: LogicImmediateOp::Oris | LogicImmediateOp::Xoris | LogicImmediateOp::Andis,
            imm,
            ..
        } => own_number(free, Hole::H, constant, 65536 * imm as u32),
        Instr::LogicImmediate { imm, .. }
        | Instr::CompareImmediate {
            op: CompareImmediateOp::Cmpli,
            imm,
            ..
        } => own_number(free, Hole::Z, constant, imm as u32),
        Instr::Immediate { imm, .. }
        | Instr::Load { imm, .. }
        | Instr::Store { imm, .. }
        | Instr::LoadUpdate { imm, .. }
        | Instr::StoreUpdate { imm, .. }
        | Instr::CompareImmediate { imm, .. } => {
            own_number(free, Hole::S, constant, signed_immediate(imm))
        }
        Instr::Rotate {
            op: RotateOp::Rlwnm,
            by: b,
            ..
        }
        | Instr::Arithmetic { b, .. }
        | Instr::Logic { b, .. }
        | Instr::Compare { b, .. }
        | Instr::Trap { b, .. }
        | Instr::LoadIndexed { b, .. }
        | Instr::StoreIndexed { b, .. }
        | Instr::LoadIndexedUpdate { b, .. }
        | Instr::StoreIndexedUpdate { b, .. } => register_source(b),
        _ => Source::Zero,
    }
}

// The register of bits 6 to 10.
fn third_source(instr: &Instr) -> Source
    ensures { result ≡ source_for (s_field instr.now) }
{
    match *instr {
        Instr::Immediate { d: s, .. }
        | Instr::LogicImmediate { s, .. }
        | Instr::Load { d: s, .. }
        | Instr::Store { s, .. }
        | Instr::LoadUpdate { d: s, .. }
        | Instr::StoreUpdate { s, .. }
        | Instr::Rotate { s, .. }
        | Instr::Arithmetic { d: s, .. }
        | Instr::ArithmeticUnary { d: s, .. }
        | Instr::Logic { s, .. }
        | Instr::ShiftImmediate { s, .. }
        | Instr::LogicUnary { s, .. }
        | Instr::MoveFromCr { d: s }
        | Instr::MoveToCr { s, .. }
        | Instr::MoveFromSpr { d: s, .. }
        | Instr::MoveToSpr { s, .. }
        | Instr::LoadIndexed { d: s, .. }
        | Instr::StoreIndexed { s, .. }
        | Instr::LoadIndexedUpdate { d: s, .. }
        | Instr::StoreIndexedUpdate { s, .. } => register_source(s),
        _ => Source::Zero,
    }
}

// Where the result for rD goes.
fn d_target(instr: &Instr) -> Option<u8>
    ensures { result ≡ target_for (written instr.now).d }
{
    match *instr {
        Instr::Immediate { d, .. }
        | Instr::Load { d, .. }
        | Instr::LoadUpdate { d, .. }
        | Instr::Arithmetic { d, .. }
        | Instr::ArithmeticUnary { d, .. }
        | Instr::MoveFromCr { d }
        | Instr::MoveFromSpr { d, .. }
        | Instr::LoadIndexed { d, .. }
        | Instr::LoadIndexedUpdate { d, .. } => Some(d.saturating_sub(1)),
        _ => None,
    }
}

// Where the result for rA goes.
fn a_target(instr: &Instr) -> Option<u8>
    ensures { result ≡ target_for (written instr.now).a }
{
    match *instr {
        Instr::LogicImmediate { a, .. }
        | Instr::LoadUpdate { a, .. }
        | Instr::StoreUpdate { a, .. }
        | Instr::Rotate { a, .. }
        | Instr::Logic { a, .. }
        | Instr::ShiftImmediate { a, .. }
        | Instr::LogicUnary { a, .. }
        | Instr::LoadIndexedUpdate { a, .. }
        | Instr::StoreIndexedUpdate { a, .. } => Some(a.saturating_sub(1)),
        _ => None,
    }
}

/// How many bytes an instruction loads.
pub fn load_width(instr: &Instr) -> u8
    ensures exact { result ≡ width_of instr.now }
    ensures few { result ≤ 4 }
{
    match *instr {
        Instr::Load {
            op: LoadOp::Lwz,
            ..
        }
        | Instr::LoadUpdate {
            op: LoadUpdateOp::Lwzu,
            ..
        }
        | Instr::LoadIndexed {
            op: LoadIndexedOp::Lwzx | LoadIndexedOp::Lwbrx,
            ..
        }
        | Instr::LoadIndexedUpdate {
            op: LoadIndexedUpdateOp::Lwzux,
            ..
        } => 4,
        Instr::Load {
            op: LoadOp::Lbz,
            ..
        }
        | Instr::LoadUpdate {
            op: LoadUpdateOp::Lbzu,
            ..
        }
        | Instr::LoadIndexed {
            op: LoadIndexedOp::Lbzx,
            ..
        }
        | Instr::LoadIndexedUpdate {
            op: LoadIndexedUpdateOp::Lbzux,
            ..
        } => 1,
        Instr::Load { .. }
        | Instr::LoadUpdate { .. }
        | Instr::LoadIndexed { .. }
        | Instr::LoadIndexedUpdate { .. } => 2,
        _ => 0,
    }
}

/// The row of word `place` of a window.
pub fn row_for(place: u8, guest: Guest, instr: &Instr) -> WindowRow
    requires { place < 3 }
    ensures { result ≡ row_of place guest instr.now }
{
    WindowRow {
        instr: *instr,
        width: load_width(instr),
        a: first_source(instr),
        b: second_source(instr, guest.free, place),
        s: third_source(instr),
        d_to: d_target(instr),
        a_to: a_target(instr),
    }
}
