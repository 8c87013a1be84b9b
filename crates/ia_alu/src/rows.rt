//! The choice of the row.

ghost use Rattle.std.specs.Prelude.{◌≡◌, false, IfOk, OnErr, IsTrue};
ghost use Rattle.word_kit.specs.Algebra.{IsLater, MayUntie};
ghost use Rattle.word_kit.specs.Prelude.{plain_operations};
ghost use Rattle.ia_alu.specs.Values.{IsOwned, is_product, is_product_of_one, meant, GivesEffect};
ghost use Rattle.ia_alu.specs.Terms.{moved_term, unary_term, shift_term, row_term};

use crate::conditions::{cmov, jcc, jump, set};
use crate::logic::{alu, test};
use crate::moves::{copies, extend, low_byte, low_half, moved, swapped};
use crate::products::{divide, imul, imul1, mul};
use crate::scan::scan;
use crate::shifts::shift;
use crate::sums::negative;
use crate::{HostEffect, HostIn};
use ia_codec::{Op, ShiftOp, UnaryOp};
use word_kit::{Alg, NoMemory};

// All bits turned over.
fn complement<A: Alg>(alg: &mut A, from: &HostIn<A>) -> Result<HostEffect<A>, NoMemory>
    requires owned { IsOwned A.word_reach A.flag_reach (A.extent alg.old) from.now }
    ensures later { IsLater A.Alg alg.old alg.new }
    ensures makes { IfOk result (λ r. record { effect = r; held = A.held alg.new } ≡ moved_term A.ops (A.held alg.old) (A.ops.not_of from.now.y) from.now) }
    ensures fails { OnErr result (IsTrue A.takes_memory) }
    ensures gives { IfOk result (λ r. GivesEffect A.Alg alg.new r (λ v. (moved_term plain_operations tt (plain_operations.not_of (A.word from.now.y v)) (meant (λ w. A.word w v) (λ b. A.truth b v) from.now)).effect)) }
{
    let value = alg.not(from.y);
    moved(alg, value, from)
}

// The ops of one operand.
fn unary<A: Alg>(alg: &mut A, op: UnaryOp, from: &HostIn<A>) -> Result<HostEffect<A>, NoMemory>
    requires owned { IsOwned A.word_reach A.flag_reach (A.extent alg.old) from.now }
    ensures later { MayUntie A.Alg alg.old alg.new }
    ensures opaque { is_product_of_one op ≡ false → A.opaque alg.new ≡ A.opaque alg.old }
    ensures makes { IfOk result (λ r. record { effect = r; held = A.held alg.new } ≡ unary_term A.ops op (A.held alg.old) from.now) }
    ensures fails { OnErr result (IsTrue A.takes_memory) }
    ensures gives { IfOk result (λ r. GivesEffect A.Alg alg.new r (λ v. (unary_term plain_operations op tt (meant (λ w. A.word w v) (λ b. A.truth b v) from.now)).effect)) }
{
    match op {
        UnaryOp::Not => complement(alg, from),
        UnaryOp::Neg => negative(alg, from),
        UnaryOp::Mul => mul(alg, from),
        UnaryOp::Imul1 => imul1(alg, from),
        UnaryOp::Div => divide(alg, false, from),
        UnaryOp::Idiv => divide(alg, true, from),
    }
}

// A shift or rotate by a written count.
fn shift_by<A: Alg>(
    alg: &mut A,
    op: ShiftOp,
    by: u8,
    from: &HostIn<A>,
) -> Result<HostEffect<A>, NoMemory>
    requires owned { IsOwned A.word_reach A.flag_reach (A.extent alg.old) from.now }
    ensures later { IsLater A.Alg alg.old alg.new }
    ensures makes { IfOk result (λ r. record { effect = r; held = A.held alg.new } ≡ shift_term A.ops op (A.held alg.old) (A.ops.lit_of by) from.now) }
    ensures fails { OnErr result (IsTrue A.takes_memory) }
    ensures gives { IfOk result (λ r. GivesEffect A.Alg alg.new r (λ v. (shift_term plain_operations op tt (plain_operations.lit_of by) (meant (λ w. A.word w v) (λ b. A.truth b v) from.now)).effect)) }
{
    let count = alg.lit(by as u32);
    shift(alg, op, count, from)
}

/// The row of an op.
pub(crate) fn row<A: Alg>(alg: &mut A, op: Op, from: &HostIn<A>) -> Result<HostEffect<A>, NoMemory>
    requires owned { IsOwned A.word_reach A.flag_reach (A.extent alg.old) from.now }
    ensures later { MayUntie A.Alg alg.old alg.new }
    ensures opaque { is_product op ≡ false → A.opaque alg.new ≡ A.opaque alg.old }
    ensures makes { IfOk result (λ r. record { effect = r; held = A.held alg.new } ≡ row_term A.ops op (A.held alg.old) from.now) }
    ensures fails { OnErr result (IsTrue A.takes_memory) }
    ensures gives { IfOk result (λ r. GivesEffect A.Alg alg.new r (λ v. (row_term plain_operations op tt (meant (λ w. A.word w v) (λ b. A.truth b v) from.now)).effect)) }
{
    match op {
        Op::AluTo { op, .. } | Op::AluFrom { op, .. } | Op::AluImm { op, .. } => alu(alg, op, from),
        Op::TestReg { .. } | Op::TestImm { .. } => test(alg, from),
        Op::Unary { op, .. } => unary(alg, op, from),
        Op::Imul { .. } => imul(alg, from),
        Op::MovTo { .. }
        | Op::MovFrom { .. }
        | Op::MovImm { .. }
        | Op::MovToImm { .. }
        | Op::Lea { .. } => moved(alg, from.y, from),
        Op::MovHalfTo { .. } => low_half(alg, from),
        Op::MovByteTo { .. } | Op::MovByteFrom { .. } => low_byte(alg, from),
        Op::Shift { op, by, .. } => shift_by(alg, op, by, from),
        Op::ShiftByCl { op, .. } => shift(alg, op, from.y, from),
        Op::Extend { op, .. } => extend(alg, op, from),
        Op::Bswap { .. } => swapped(alg, from),
        Op::Set { condition, .. } => set(alg, condition, from),
        Op::Cmov { condition, .. } => cmov(alg, condition, from),
        Op::Bsr { .. } => scan(alg, from),
        Op::Cdq => copies(alg, from),
        Op::Jcc { condition, .. } => jcc(alg, condition, from),
        Op::Jmp { .. } | Op::JmpTo { .. } => jump(alg, from),
        Op::Int80 | Op::Int3 | Op::Ud2 => moved(alg, from.x, from),
    }
}
