//! Logic: and, or, xor, test; and the choice among the ops of their encoding.

ghost use Rattle.std.specs.Prelude.{◌≡◌, ◌≤◌, IfOk, OnErr, IsTrue};
ghost use Rattle.word_kit.specs.Algebra.{IsLater};
ghost use Rattle.word_kit.specs.Prelude.{plain_operations};
ghost use Rattle.ia_alu.specs.Values.{IsOwned, meant, GivesEffect};
ghost use Rattle.ia_alu.specs.Terms.{logic_term, test_term, alu_term};

use crate::moves::kept;
use crate::parts::is_zero;
use crate::sums::{compare, difference, sum};
use crate::{HostEffect, HostIn};
use ia_codec::AluOp;
use word_kit::{Alg, NoMemory};

/// A result of logic, with its flags.
pub(crate) fn logic<A: Alg>(
    alg: &mut A,
    value: A::W,
    from: &HostIn<A>,
) -> Result<HostEffect<A>, NoMemory>
    requires value_owned { A.word_reach value ≤ A.extent alg.old }
    requires owned { IsOwned A.word_reach A.flag_reach (A.extent alg.old) from.now }
    ensures later { IsLater A.Alg alg.old alg.new }
    ensures makes { IfOk result (λ r. record { effect = r; held = A.held alg.new } ≡ logic_term A.ops (record { word = value; held = (A.held alg.old) }) from.now) }
    ensures fails { OnErr result (IsTrue A.takes_memory) }
    ensures gives { IfOk result (λ r. GivesEffect A.Alg alg.new r (λ v. (logic_term plain_operations (record { word = (A.word value v); held = tt }) (meant (λ w. A.word w v) (λ b. A.truth b v) from.now)).effect)) }
{
    let zf = is_zero(alg, value)?;
    let sf = alg.bit(value, 31);
    let no = alg.flag(false);
    let kept = kept(alg, value, from);
    Ok(HostEffect {
        cf: no,
        zf,
        sf,
        of: no,
        ..kept
    })
}

/// and of both operands.
pub(crate) fn and_row<A: Alg>(alg: &mut A, from: &HostIn<A>) -> Result<HostEffect<A>, NoMemory>
    requires owned { IsOwned A.word_reach A.flag_reach (A.extent alg.old) from.now }
    ensures later { IsLater A.Alg alg.old alg.new }
    ensures makes { IfOk result (λ r. record { effect = r; held = A.held alg.new } ≡ logic_term A.ops (A.ops.and_of (A.held alg.old) from.now.x from.now.y) from.now) }
    ensures fails { OnErr result (IsTrue A.takes_memory) }
    ensures gives { IfOk result (λ r. GivesEffect A.Alg alg.new r (λ v. (logic_term plain_operations (plain_operations.and_of tt (A.word from.now.x v) (A.word from.now.y v)) (meant (λ w. A.word w v) (λ b. A.truth b v) from.now)).effect)) }
{
    let value = alg.and(from.x, from.y)?;
    logic(alg, value, from)
}

/// or of both operands.
pub(crate) fn or_row<A: Alg>(alg: &mut A, from: &HostIn<A>) -> Result<HostEffect<A>, NoMemory>
    requires owned { IsOwned A.word_reach A.flag_reach (A.extent alg.old) from.now }
    ensures later { IsLater A.Alg alg.old alg.new }
    ensures makes { IfOk result (λ r. record { effect = r; held = A.held alg.new } ≡ logic_term A.ops (A.ops.or_of (A.held alg.old) from.now.x from.now.y) from.now) }
    ensures fails { OnErr result (IsTrue A.takes_memory) }
    ensures gives { IfOk result (λ r. GivesEffect A.Alg alg.new r (λ v. (logic_term plain_operations (plain_operations.or_of tt (A.word from.now.x v) (A.word from.now.y v)) (meant (λ w. A.word w v) (λ b. A.truth b v) from.now)).effect)) }
{
    let value = alg.or(from.x, from.y)?;
    logic(alg, value, from)
}

/// xor of both operands.
pub(crate) fn xor_row<A: Alg>(alg: &mut A, from: &HostIn<A>) -> Result<HostEffect<A>, NoMemory>
    requires owned { IsOwned A.word_reach A.flag_reach (A.extent alg.old) from.now }
    ensures later { IsLater A.Alg alg.old alg.new }
    ensures makes { IfOk result (λ r. record { effect = r; held = A.held alg.new } ≡ logic_term A.ops (A.ops.xor_of (A.held alg.old) from.now.x from.now.y) from.now) }
    ensures fails { OnErr result (IsTrue A.takes_memory) }
    ensures gives { IfOk result (λ r. GivesEffect A.Alg alg.new r (λ v. (logic_term plain_operations (plain_operations.xor_of tt (A.word from.now.x v) (A.word from.now.y v)) (meant (λ w. A.word w v) (λ b. A.truth b v) from.now)).effect)) }
{
    let value = alg.xor(from.x, from.y)?;
    logic(alg, value, from)
}

/// The flags of and, without its result.
pub(crate) fn test<A: Alg>(alg: &mut A, from: &HostIn<A>) -> Result<HostEffect<A>, NoMemory>
    requires owned { IsOwned A.word_reach A.flag_reach (A.extent alg.old) from.now }
    ensures later { IsLater A.Alg alg.old alg.new }
    ensures makes { IfOk result (λ r. record { effect = r; held = A.held alg.new } ≡ test_term A.ops (A.held alg.old) from.now) }
    ensures fails { OnErr result (IsTrue A.takes_memory) }
    ensures gives { IfOk result (λ r. GivesEffect A.Alg alg.new r (λ v. (test_term plain_operations tt (meant (λ w. A.word w v) (λ b. A.truth b v) from.now)).effect)) }
{
    let logic = and_row(alg, from)?;
    Ok(HostEffect {
        result: from.x,
        ..logic
    })
}

/// The ops of one encoding: sums, differences, logic.
pub(crate) fn alu<A: Alg>(
    alg: &mut A,
    op: AluOp,
    from: &HostIn<A>,
) -> Result<HostEffect<A>, NoMemory>
    requires owned { IsOwned A.word_reach A.flag_reach (A.extent alg.old) from.now }
    ensures later { IsLater A.Alg alg.old alg.new }
    ensures makes { IfOk result (λ r. record { effect = r; held = A.held alg.new } ≡ alu_term A.ops op (A.held alg.old) from.now) }
    ensures fails { OnErr result (IsTrue A.takes_memory) }
    ensures gives { IfOk result (λ r. GivesEffect A.Alg alg.new r (λ v. (alu_term plain_operations op tt (meant (λ w. A.word w v) (λ b. A.truth b v) from.now)).effect)) }
{
    match op {
        AluOp::Add => {
            let carry = alg.flag(false);
            sum(alg, from.x, from.y, carry, from)
        }
        AluOp::Or => or_row(alg, from),
        AluOp::Adc => sum(alg, from.x, from.y, from.cf, from),
        AluOp::Sbb => {
            let carry = alg.flip(from.cf);
            difference(alg, from.x, from.y, carry, from)
        }
        AluOp::And => and_row(alg, from),
        AluOp::Sub => {
            let carry = alg.flag(true);
            difference(alg, from.x, from.y, carry, from)
        }
        AluOp::Xor => xor_row(alg, from),
        AluOp::Cmp => compare(alg, from),
    }
}
