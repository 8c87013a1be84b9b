//! The words of a rule where it is laid.

ghost use Rattle.std.specs.Prelude.{◌≡◌, ◌≢◌, ◌↔◌, ◌<◌, ◌≤◌, ℕ, IsTrue, if◌then◌else◌, length};
ghost use Rattle.machines.specs.Prelude.{Instr as Instruction, layout, Allowed, IsSpr, IsWordOf, Fit};
ghost use Rattle.rule_soundness.specs.Prelude.{base_field as base, register_field as field_for, bound as bind, filled as fill};
ghost use Rattle.rule_body.specs.Prelude.{IsGoal, guests_of, IsGuest};
ghost use Rattle.rule_match.specs.Bindings.{gpr_of as gpr, target_field as target, is_absolute as absolute};
ghost use Rattle.rule_match.specs.Matching.{match_of_word, IsLaidWord, AreLaidWords, AreGprs};

use crate::binding::Binding;
use crate::fields::base_field;
use crate::filling::constant_of;
use crate::placing::gpr_of;
use ppc_isa::{BranchRegisterOp, Instr, MultipleOp, RotateOp, decode, encode, one_instruction};
use rule_body::{Goal, Guest, guest_at};

// The register of a field that has the number of a parameter, or 0.
fn register_field(binding: &Binding, number: u8) -> u8
    ensures { result ≡ field_for (gpr binding.now) number }
{
    if number == 0 {
        0
    } else {
        gpr_of(binding, number as u32)
    }
}

// An instruction with registers in the place of parameters.
fn bound(binding: &Binding, instr: &Instr) -> Instr
    ensures { result ≡ bind (gpr binding.now) instr.now }
{
    match *instr {
        Instr::Immediate { op, d, a, imm } => Instr::Immediate {
            op,
            d: register_field(binding, d),
            a: register_field(binding, a),
            imm,
        },
        Instr::LogicImmediate { op, s, a, imm } => Instr::LogicImmediate {
            op,
            s: register_field(binding, s),
            a: register_field(binding, a),
            imm,
        },
        Instr::Load { op, d, a, imm } => Instr::Load {
            op,
            d: register_field(binding, d),
            a: register_field(binding, a),
            imm,
        },
        Instr::Store { op, s, a, imm } => Instr::Store {
            op,
            s: register_field(binding, s),
            a: register_field(binding, a),
            imm,
        },
        Instr::LoadUpdate { op, d, a, imm } => Instr::LoadUpdate {
            op,
            d: register_field(binding, d),
            a: register_field(binding, a),
            imm,
        },
        Instr::StoreUpdate { op, s, a, imm } => Instr::StoreUpdate {
            op,
            s: register_field(binding, s),
            a: register_field(binding, a),
            imm,
        },
        Instr::CompareImmediate { op, field, a, imm } => Instr::CompareImmediate {
            op,
            field,
            a: register_field(binding, a),
            imm,
        },
        Instr::Rotate {
            op: RotateOp::Rlwnm,
            s,
            a,
            by,
            mask_begin,
            mask_end,
            records,
        } => Instr::Rotate {
            op: RotateOp::Rlwnm,
            s: register_field(binding, s),
            a: register_field(binding, a),
            by: register_field(binding, by),
            mask_begin,
            mask_end,
            records,
        },
        Instr::Rotate {
            op,
            s,
            a,
            by,
            mask_begin,
            mask_end,
            records,
        } => Instr::Rotate {
            op,
            s: register_field(binding, s),
            a: register_field(binding, a),
            by,
            mask_begin,
            mask_end,
            records,
        },
        Instr::Arithmetic {
            op,
            d,
            a,
            b,
            records,
        } => Instr::Arithmetic {
            op,
            d: register_field(binding, d),
            a: register_field(binding, a),
            b: register_field(binding, b),
            records,
        },
        Instr::ArithmeticUnary { op, d, a, records } => Instr::ArithmeticUnary {
            op,
            d: register_field(binding, d),
            a: register_field(binding, a),
            records,
        },
        Instr::Logic {
            op,
            s,
            a,
            b,
            records,
        } => Instr::Logic {
            op,
            s: register_field(binding, s),
            a: register_field(binding, a),
            b: register_field(binding, b),
            records,
        },
        Instr::ShiftImmediate { s, a, by, records } => Instr::ShiftImmediate {
            s: register_field(binding, s),
            a: register_field(binding, a),
            by,
            records,
        },
        Instr::LogicUnary { op, s, a, records } => Instr::LogicUnary {
            op,
            s: register_field(binding, s),
            a: register_field(binding, a),
            records,
        },
        Instr::Compare { op, field, a, b } => Instr::Compare {
            op,
            field,
            a: register_field(binding, a),
            b: register_field(binding, b),
        },
        Instr::MoveFromCr { d } => Instr::MoveFromCr {
            d: register_field(binding, d),
        },
        Instr::MoveToCr { s, mask } => Instr::MoveToCr {
            s: register_field(binding, s),
            mask,
        },
        Instr::MoveFromSpr { d, spr } => Instr::MoveFromSpr {
            d: register_field(binding, d),
            spr,
        },
        Instr::MoveToSpr { s, spr } => Instr::MoveToSpr {
            s: register_field(binding, s),
            spr,
        },
        Instr::LoadIndexed { op, d, a, b } => Instr::LoadIndexed {
            op,
            d: register_field(binding, d),
            a: register_field(binding, a),
            b: register_field(binding, b),
        },
        Instr::StoreIndexed { op, s, a, b } => Instr::StoreIndexed {
            op,
            s: register_field(binding, s),
            a: register_field(binding, a),
            b: register_field(binding, b),
        },
        Instr::LoadIndexedUpdate { op, d, a, b } => Instr::LoadIndexedUpdate {
            op,
            d: register_field(binding, d),
            a: register_field(binding, a),
            b: register_field(binding, b),
        },
        Instr::StoreIndexedUpdate { op, s, a, b } => Instr::StoreIndexedUpdate {
            op,
            s: register_field(binding, s),
            a: register_field(binding, a),
            b: register_field(binding, b),
        },
        instr => instr,
    }
}

// Where a branch leads, by its field, and whether that is an address.
fn target_of(instr: &Instr) -> (u16, bool)
    ensures target { result.0 ≡ target instr.now }
    ensures absolute { result.1 ≡ absolute instr.now }
{
    match *instr {
        Instr::BranchConditional {
            target,
            absolute,
            ..
        } => (target, absolute),
        _ => (0, false),
    }
}

// An instruction with the constant or the target of another.
fn filled(binding: &Binding, instr: &Instr, found: &Instr) -> Instr
    ensures { result ≡ fill (match_of_word found.now binding.now) 0 instr.now }
{
    let imm = constant_of(found);
    match *instr {
        Instr::Immediate { op, d, a, .. } => Instr::Immediate { op, d, a, imm },
        Instr::LogicImmediate { op, s, a, .. } => Instr::LogicImmediate { op, s, a, imm },
        Instr::Load { op, d, a, .. } => Instr::Load { op, d, a, imm },
        Instr::Store { op, s, a, .. } => Instr::Store { op, s, a, imm },
        Instr::LoadUpdate { op, d, a, .. } => Instr::LoadUpdate { op, d, a, imm },
        Instr::StoreUpdate { op, s, a, .. } => Instr::StoreUpdate { op, s, a, imm },
        Instr::CompareImmediate { op, field, a, .. } => Instr::CompareImmediate {
            op,
            field,
            a,
            imm,
        },
        Instr::BranchConditional { bo, bi, link, .. } => {
            let (target, absolute) = target_of(found);
            Instr::BranchConditional {
                bo,
                bi,
                target,
                absolute,
                link,
            }
        }
        instr => instr,
    }
}

// Whether a number is that of a special register.
fn is_spr(number: u16) -> bool
    ensures { IsTrue result ↔ IsSpr number }
{
    number == 1 || number == 8 || number == 9
}

// Whether an instruction is no invalid form.
fn is_allowed(instr: &Instr) -> bool
    ensures { IsTrue result ↔ Allowed instr.now }
{
    match *instr {
        Instr::LoadUpdate { d, a, .. } | Instr::LoadIndexedUpdate { d, a, .. } => a != 0 && a != d,
        Instr::StoreUpdate { a, .. } | Instr::StoreIndexedUpdate { a, .. } => a != 0,
        Instr::Multiple {
            op: MultipleOp::Lmw,
            d,
            a,
            ..
        } => a < d,
        Instr::MoveFromSpr { spr, .. } | Instr::MoveToSpr { spr, .. } => is_spr(spr),
        Instr::BranchRegister {
            op: BranchRegisterOp::Bcctr,
            bo,
            ..
        } => bo / 4 % 2 == 1,
        _ => true,
    }
}

// Whether a word is that of an instruction.
fn is_word_of(instr: &Instr, word: u32) -> bool
    requires { Fit (layout instr.now) }
    ensures { IsTrue result ↔ IsWordOf word instr.now }
{
    is_allowed(instr) && encode(instr) == word
}

// Whether no parameter is GPR 0 in the place of a base.
fn base_fits(binding: &Binding, instr: &Instr) -> bool
    ensures { IsTrue result ↔ ((p : ℕ) → base instr.now ≡ Some p → p ≢ 0 → gpr binding.now p ≢ 0) }
{
    match base_field(instr) {
        Some(number) => number == 0 || gpr_of(binding, number as u32) != 0,
        None => true,
    }
}

// Whether a word of a rule is this word of memory under a binding.
fn word_fits(binding: &Binding, guest: Guest, word: u32) -> bool
    requires gprs { (p : ℕ) → gpr binding.now p < 32 }
    ensures { IsTrue result ↔ IsLaidWord binding.now guest word }
{
    one_instruction();
    let Some(instr) = decode(guest.word) else {
        return false;
    };
    let Some(found) = decode(word) else {
        return false;
    };
    let laid = if guest.free {
        bound(binding, &filled(binding, &instr, &found))
    } else {
        bound(binding, &instr)
    };
    is_word_of(&laid, word) && base_fits(binding, &instr)
}

/// Whether the words of a window are those of a rule under a binding.
pub fn words_fit(binding: &Binding, goal: &Goal, window: &[u32]) -> bool
    requires goal { IsGoal goal.now }
    requires gprs { (p : ℕ) → gpr binding.now p < 32 }
    requires length { length window.now ≡ goal.now.count }
    ensures { IsTrue result ↔ AreLaidWords binding.now (guests_of goal.now) window.now }
{
    for place in 0..goal.count {
        let Some(guest) = guest_at(goal, place) else {
            return false;
        };
        if !word_fits(binding, guest, window[place as usize]) {
            return false;
        }
    }
    true
}
