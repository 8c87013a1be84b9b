//! Sums and differences: add, adc, sub, sbb, cmp, neg.

ghost use Rattle.std.specs.Prelude.{◌≡◌, ◌≤◌, true, IfOk, OnErr, IsTrue};
ghost use Rattle.word_kit.specs.Algebra.{IsLater};
ghost use Rattle.word_kit.specs.Prelude.{plain_operations};
ghost use Rattle.ia_alu.specs.Values.{IsOwned, meant, GivesEffect};
ghost use Rattle.ia_alu.specs.Terms.{sum_term, difference_term, compare_term};

use crate::moves::kept;
use crate::parts::{is_zero, overflows};
use crate::{HostEffect, HostIn};
use word_kit::{Alg, NoMemory};

/// `x + y + carry`, with its flags.
pub(crate) fn sum<A: Alg>(
    alg: &mut A,
    x: A::W,
    y: A::W,
    carry: A::B,
    from: &HostIn<A>,
) -> Result<HostEffect<A>, NoMemory>
    requires x_owned { A.word_reach x ≤ A.extent alg.old }
    requires y_owned { A.word_reach y ≤ A.extent alg.old }
    requires carry_owned { A.flag_reach carry ≤ A.extent alg.old }
    requires owned { IsOwned A.word_reach A.flag_reach (A.extent alg.old) from.now }
    ensures later { IsLater A.Alg alg.old alg.new }
    ensures makes { IfOk result (λ r. record { effect = r; held = A.held alg.new } ≡ sum_term A.ops (A.held alg.old) x y carry from.now) }
    ensures fails { OnErr result (IsTrue A.takes_memory) }
    ensures gives { IfOk result (λ r. GivesEffect A.Alg alg.new r (λ v. (sum_term plain_operations tt (A.word x v) (A.word y v) (A.truth carry v) (meant (λ w. A.word w v) (λ b. A.truth b v) from.now)).effect)) }
{
    let (result, cf) = alg.add(x, y, carry)?;
    let zf = is_zero(alg, result)?;
    let sf = alg.bit(result, 31);
    let of = overflows(alg, x, y, result)?;
    let kept = kept(alg, result, from);
    Ok(HostEffect {
        cf,
        zf,
        sf,
        of,
        ..kept
    })
}

/// `x - y`, less 1 where `carry` is false, with its flags.
pub(crate) fn difference<A: Alg>(
    alg: &mut A,
    x: A::W,
    y: A::W,
    carry: A::B,
    from: &HostIn<A>,
) -> Result<HostEffect<A>, NoMemory>
    requires x_owned { A.word_reach x ≤ A.extent alg.old }
    requires y_owned { A.word_reach y ≤ A.extent alg.old }
    requires carry_owned { A.flag_reach carry ≤ A.extent alg.old }
    requires owned { IsOwned A.word_reach A.flag_reach (A.extent alg.old) from.now }
    ensures later { IsLater A.Alg alg.old alg.new }
    ensures makes { IfOk result (λ r. record { effect = r; held = A.held alg.new } ≡ difference_term A.ops (A.held alg.old) x y carry from.now) }
    ensures fails { OnErr result (IsTrue A.takes_memory) }
    ensures gives { IfOk result (λ r. GivesEffect A.Alg alg.new r (λ v. (difference_term plain_operations tt (A.word x v) (A.word y v) (A.truth carry v) (meant (λ w. A.word w v) (λ b. A.truth b v) from.now)).effect)) }
{
    let rest = alg.not(y);
    let sum = sum(alg, x, rest, carry, from)?;
    let cf = alg.flip(sum.cf);
    Ok(HostEffect { cf, ..sum })
}

/// The flags of a difference, without its result.
pub(crate) fn compare<A: Alg>(alg: &mut A, from: &HostIn<A>) -> Result<HostEffect<A>, NoMemory>
    requires owned { IsOwned A.word_reach A.flag_reach (A.extent alg.old) from.now }
    ensures later { IsLater A.Alg alg.old alg.new }
    ensures makes { IfOk result (λ r. record { effect = r; held = A.held alg.new } ≡ compare_term A.ops (A.held alg.old) from.now) }
    ensures fails { OnErr result (IsTrue A.takes_memory) }
    ensures gives { IfOk result (λ r. GivesEffect A.Alg alg.new r (λ v. (compare_term plain_operations tt (meant (λ w. A.word w v) (λ b. A.truth b v) from.now)).effect)) }
{
    let carry = alg.flag(true);
    let difference = difference(alg, from.x, from.y, carry, from)?;
    Ok(HostEffect {
        result: from.x,
        ..difference
    })
}

/// 0 less the operand.
pub(crate) fn negative<A: Alg>(alg: &mut A, from: &HostIn<A>) -> Result<HostEffect<A>, NoMemory>
    requires owned { IsOwned A.word_reach A.flag_reach (A.extent alg.old) from.now }
    ensures later { IsLater A.Alg alg.old alg.new }
    ensures makes { IfOk result (λ r. record { effect = r; held = A.held alg.new } ≡ difference_term A.ops (A.held alg.old) (A.ops.lit_of 0) from.now.y (A.ops.flag_of true) from.now) }
    ensures fails { OnErr result (IsTrue A.takes_memory) }
    ensures gives { IfOk result (λ r. GivesEffect A.Alg alg.new r (λ v. (difference_term plain_operations tt (plain_operations.lit_of 0) (A.word from.now.y v) (plain_operations.flag_of true) (meant (λ w. A.word w v) (λ b. A.truth b v) from.now)).effect)) }
{
    let zero = alg.lit(0);
    let carry = alg.flag(true);
    difference(alg, zero, from.y, carry, from)
}
