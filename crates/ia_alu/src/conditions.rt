//! Conditions: jcc, setcc, cmovcc, and jumps without one.

ghost use Rattle.std.specs.Prelude.{◌≡◌, IfOk, OnErr, IsTrue};
ghost use Rattle.word_kit.specs.Prelude.{GivesFlag, plain_operations};
ghost use Rattle.word_kit.specs.Algebra.{IsLater};
ghost use Rattle.ia_alu.specs.Values.{IsOwned, meant, GivesEffect};
ghost use Rattle.ia_alu.specs.Terms.{condition_term, set_term, cmov_term, jcc_term, jump_term};

use crate::moves::kept;
use crate::{HostEffect, HostIn};
use ia_codec::Condition;
use word_kit::{Alg, NoMemory};

// Whether a condition holds.
fn condition_of<A: Alg>(
    alg: &mut A,
    condition: Condition,
    from: &HostIn<A>,
) -> Result<A::B, NoMemory>
    requires owned { IsOwned A.word_reach A.flag_reach (A.extent alg.old) from.now }
    ensures later { IsLater A.Alg alg.old alg.new }
    ensures makes { IfOk result (λ r. record { flag = r; held = A.held alg.new } ≡ condition_term A.ops condition (A.held alg.old) from.now) }
    ensures fails { OnErr result (IsTrue A.takes_memory) }
    ensures gives { IfOk result (λ r. GivesFlag A.Alg alg.new r (λ v. (condition_term plain_operations condition tt (meant (λ w. A.word w v) (λ b. A.truth b v) from.now)).flag)) }
{
    match condition {
        Condition::Below => Ok(from.cf),
        Condition::NotBelow => Ok(alg.flip(from.cf)),
        Condition::Equal => Ok(from.zf),
        Condition::NotEqual => Ok(alg.flip(from.zf)),
        Condition::NotAbove => alg.either(from.cf, from.zf),
        Condition::Above => {
            let not_above = alg.either(from.cf, from.zf)?;
            Ok(alg.flip(not_above))
        }
        Condition::Sign => Ok(from.sf),
        Condition::NotSign => Ok(alg.flip(from.sf)),
        Condition::Less => alg.differ(from.sf, from.of),
        Condition::NotLess => {
            let less = alg.differ(from.sf, from.of)?;
            Ok(alg.flip(less))
        }
        Condition::NotGreater => {
            let less = alg.differ(from.sf, from.of)?;
            alg.either(from.zf, less)
        }
        Condition::Greater => {
            let less = alg.differ(from.sf, from.of)?;
            let not_greater = alg.either(from.zf, less)?;
            Ok(alg.flip(not_greater))
        }
    }
}

/// 1 where the condition holds, else 0.
pub(crate) fn set<A: Alg>(
    alg: &mut A,
    condition: Condition,
    from: &HostIn<A>,
) -> Result<HostEffect<A>, NoMemory>
    requires owned { IsOwned A.word_reach A.flag_reach (A.extent alg.old) from.now }
    ensures later { IsLater A.Alg alg.old alg.new }
    ensures makes { IfOk result (λ r. record { effect = r; held = A.held alg.new } ≡ set_term A.ops condition (A.held alg.old) from.now) }
    ensures fails { OnErr result (IsTrue A.takes_memory) }
    ensures gives { IfOk result (λ r. GivesEffect A.Alg alg.new r (λ v. (set_term plain_operations condition tt (meant (λ w. A.word w v) (λ b. A.truth b v) from.now)).effect)) }
{
    let holds = condition_of(alg, condition, from)?;
    let zero = alg.lit(0);
    let value = alg.put_bit(zero, 0, holds);
    let kept = kept(alg, value, from);
    Ok(HostEffect { holds, ..kept })
}

/// The second operand where the condition holds.
pub(crate) fn cmov<A: Alg>(
    alg: &mut A,
    condition: Condition,
    from: &HostIn<A>,
) -> Result<HostEffect<A>, NoMemory>
    requires owned { IsOwned A.word_reach A.flag_reach (A.extent alg.old) from.now }
    ensures later { IsLater A.Alg alg.old alg.new }
    ensures makes { IfOk result (λ r. record { effect = r; held = A.held alg.new } ≡ cmov_term A.ops condition (A.held alg.old) from.now) }
    ensures fails { OnErr result (IsTrue A.takes_memory) }
    ensures gives { IfOk result (λ r. GivesEffect A.Alg alg.new r (λ v. (cmov_term plain_operations condition tt (meant (λ w. A.word w v) (λ b. A.truth b v) from.now)).effect)) }
{
    let holds = condition_of(alg, condition, from)?;
    let value = alg.pick(holds, from.y, from.x)?;
    let kept = kept(alg, value, from);
    Ok(HostEffect { holds, ..kept })
}

/// The condition alone.
pub(crate) fn jcc<A: Alg>(
    alg: &mut A,
    condition: Condition,
    from: &HostIn<A>,
) -> Result<HostEffect<A>, NoMemory>
    requires owned { IsOwned A.word_reach A.flag_reach (A.extent alg.old) from.now }
    ensures later { IsLater A.Alg alg.old alg.new }
    ensures makes { IfOk result (λ r. record { effect = r; held = A.held alg.new } ≡ jcc_term A.ops condition (A.held alg.old) from.now) }
    ensures fails { OnErr result (IsTrue A.takes_memory) }
    ensures gives { IfOk result (λ r. GivesEffect A.Alg alg.new r (λ v. (jcc_term plain_operations condition tt (meant (λ w. A.word w v) (λ b. A.truth b v) from.now)).effect)) }
{
    let holds = condition_of(alg, condition, from)?;
    let kept = kept(alg, from.x, from);
    Ok(HostEffect { holds, ..kept })
}

/// A jump without a condition.
pub(crate) fn jump<A: Alg>(alg: &mut A, from: &HostIn<A>) -> Result<HostEffect<A>, NoMemory>
    requires owned { IsOwned A.word_reach A.flag_reach (A.extent alg.old) from.now }
    ensures later { IsLater A.Alg alg.old alg.new }
    ensures makes { IfOk result (λ r. record { effect = r; held = A.held alg.new } ≡ jump_term A.ops (A.held alg.old) from.now) }
    ensures fails { OnErr result (IsTrue A.takes_memory) }
    ensures gives { IfOk result (λ r. GivesEffect A.Alg alg.new r (λ v. (jump_term plain_operations tt (meant (λ w. A.word w v) (λ b. A.truth b v) from.now)).effect)) }
{
    let holds = alg.flag(true);
    let kept = kept(alg, from.x, from);
    Ok(HostEffect { holds, ..kept })
}
