//! Differences, as sums with a complement.

ghost use Rattle.std.specs.Prelude.{true, ◌≡◌, IfOk, OnErr, IsTrue};
ghost use Rattle.word_kit.specs.Algebra.{IsLater};
ghost use Rattle.word_kit.specs.Prelude.{complement};
ghost use Rattle.ppc_isa.specs.Recording.{ca};
ghost use Rattle.ppc_isa.specs.SumRows.{sum_with, sum_carrying};
ghost use Rattle.ppc_parts.specs.Prelude.{IsOwned, values_of, GivesEffect};
ghost use Rattle.ppc_sums.specs.SumTerms.{sum_term, sum_carrying_term, ca_term};

use crate::sums::{carry_in, sum, sum_carrying};
use ppc_parts::{Effect, GuestIn};
use word_kit::{Alg, NoMemory};

// rA from rB.
pub(crate) fn subtract<A: Alg>(
    alg: &mut A,
    records: bool,
    from: &GuestIn<A>,
) -> Result<Effect<A>, NoMemory>
    requires owned { IsOwned A.word_reach (A.extent alg.old) from.now }
    ensures later { IsLater A.Alg alg.old alg.new }
    ensures makes { IfOk result (λ r. record { effect = r; held = A.held alg.new } ≡ sum_term A.ops records (A.ops.not_of from.now.a) from.now.b (A.ops.flag_of true) (A.held alg.old) from.now) }
    ensures fails { OnErr result (IsTrue A.takes_memory) }
    ensures gives { IfOk result (λ r. GivesEffect A.Alg alg.new r (λ v. sum_with records (complement (values_of (λ w. A.word w v) from.now).a) (values_of (λ w. A.word w v) from.now).b true (values_of (λ w. A.word w v) from.now))) }
{
    let one = alg.flag(true);
    let not_a = alg.not(from.a);
    sum(alg, records, not_a, from.b, one, from)
}

// rA from rB or the immediate, with CA.
pub(crate) fn subtract_carrying<A: Alg>(
    alg: &mut A,
    records: bool,
    from: &GuestIn<A>,
) -> Result<Effect<A>, NoMemory>
    requires owned { IsOwned A.word_reach (A.extent alg.old) from.now }
    ensures later { IsLater A.Alg alg.old alg.new }
    ensures makes { IfOk result (λ r. record { effect = r; held = A.held alg.new } ≡ sum_carrying_term A.ops records (A.ops.not_of from.now.a) from.now.b (A.ops.flag_of true) (A.held alg.old) from.now) }
    ensures fails { OnErr result (IsTrue A.takes_memory) }
    ensures gives { IfOk result (λ r. GivesEffect A.Alg alg.new r (λ v. sum_carrying records (complement (values_of (λ w. A.word w v) from.now).a) (values_of (λ w. A.word w v) from.now).b true (values_of (λ w. A.word w v) from.now))) }
{
    let one = alg.flag(true);
    let not_a = alg.not(from.a);
    sum_carrying(alg, records, not_a, from.b, one, from)
}

// rA from rB with the carry.
pub(crate) fn subtract_extended<A: Alg>(
    alg: &mut A,
    records: bool,
    from: &GuestIn<A>,
) -> Result<Effect<A>, NoMemory>
    requires owned { IsOwned A.word_reach (A.extent alg.old) from.now }
    ensures later { IsLater A.Alg alg.old alg.new }
    ensures makes { IfOk result (λ r. record { effect = r; held = A.held alg.new } ≡ sum_carrying_term A.ops records (A.ops.not_of from.now.a) from.now.b (ca_term A.ops from.now) (A.held alg.old) from.now) }
    ensures fails { OnErr result (IsTrue A.takes_memory) }
    ensures gives { IfOk result (λ r. GivesEffect A.Alg alg.new r (λ v. sum_carrying records (complement (values_of (λ w. A.word w v) from.now).a) (values_of (λ w. A.word w v) from.now).b (ca (values_of (λ w. A.word w v) from.now)) (values_of (λ w. A.word w v) from.now))) }
{
    let carry = carry_in(alg, from);
    let not_a = alg.not(from.a);
    sum_carrying(alg, records, not_a, from.b, carry, from)
}
