//! Traps.

ghost use Rattle.std.specs.Prelude.{◌≡◌, ◌≤◌, ◌&&◌, IfOk, OnErr, IsTrue, eqb};
ghost use Rattle.word_kit.specs.Prelude.{GivesFlag, is_less};
ghost use Rattle.word_kit.specs.Algebra.{IsLater};
ghost use Rattle.ppc_isa.specs.CompareRows.{trap_holds};
ghost use Rattle.ppc_parts.specs.Prelude.{IsOwned, values_of, GivesEffect};
ghost use Rattle.ppc_flow.specs.Meant.{traps};
ghost use Rattle.ppc_flow.specs.TrapTerms.{chosen_less_term, chosen_equal_term, trap_test_term, trap_term};

use ppc_parts::{Effect, GuestIn, unchanged};
use word_kit::{Alg, NoMemory};

// Whether a test is chosen and holds.
pub(crate) fn chosen_less<A: Alg>(
    alg: &mut A,
    chosen: bool,
    x: A::W,
    y: A::W,
    signed: bool,
) -> Result<A::B, NoMemory>
    requires x_owned { A.word_reach x ≤ A.extent alg.old }
    requires y_owned { A.word_reach y ≤ A.extent alg.old }
    ensures later { IsLater A.Alg alg.old alg.new }
    ensures makes { IfOk result (λ r. record { flag = r; held = A.held alg.new } ≡ chosen_less_term A.ops chosen x y signed (A.held alg.old)) }
    ensures fails { OnErr result (IsTrue A.takes_memory) }
    ensures gives { IfOk result (λ r. GivesFlag A.Alg alg.new r (λ v. chosen && is_less (A.word x v) (A.word y v) signed)) }
{
    let less = alg.less(x, y, signed)?;
    let chosen = alg.flag(chosen);
    let made = alg.both(chosen, less)?;
    Ok(made)
}

// Whether equality is chosen and holds.
pub(crate) fn chosen_equal<A: Alg>(
    alg: &mut A,
    chosen: bool,
    x: A::W,
    y: A::W,
) -> Result<A::B, NoMemory>
    requires x_owned { A.word_reach x ≤ A.extent alg.old }
    requires y_owned { A.word_reach y ≤ A.extent alg.old }
    ensures later { IsLater A.Alg alg.old alg.new }
    ensures makes { IfOk result (λ r. record { flag = r; held = A.held alg.new } ≡ chosen_equal_term A.ops chosen x y (A.held alg.old)) }
    ensures fails { OnErr result (IsTrue A.takes_memory) }
    ensures gives { IfOk result (λ r. GivesFlag A.Alg alg.new r (λ v. chosen && eqb (A.word x v) (A.word y v))) }
{
    let equal = alg.equal(x, y)?;
    let chosen = alg.flag(chosen);
    let made = alg.both(chosen, equal)?;
    Ok(made)
}

// Whether a chosen test holds.
#[tactic(auto, using(crate::proofs::TrapTests::joined))]
pub(crate) fn trap_test<A: Alg>(alg: &mut A, to: u8, x: A::W, y: A::W) -> Result<A::B, NoMemory>
    requires x_owned { A.word_reach x ≤ A.extent alg.old }
    requires y_owned { A.word_reach y ≤ A.extent alg.old }
    ensures later { IsLater A.Alg alg.old alg.new }
    ensures makes { IfOk result (λ r. record { flag = r; held = A.held alg.new } ≡ trap_test_term A.ops to x y (A.held alg.old)) }
    ensures fails { OnErr result (IsTrue A.takes_memory) }
    ensures gives { IfOk result (λ r. GivesFlag A.Alg alg.new r (λ v. trap_holds to (A.word x v) (A.word y v))) }
{
    let less = chosen_less(alg, to / 16 % 2 == 1, x, y, true)?;
    let greater = chosen_less(alg, to / 8 % 2 == 1, y, x, true)?;
    let either = alg.either(less, greater)?;
    let equal = chosen_equal(alg, to / 4 % 2 == 1, x, y)?;
    let three = alg.either(either, equal)?;
    let below = chosen_less(alg, to / 2 % 2 == 1, x, y, false)?;
    let four = alg.either(three, below)?;
    let above = chosen_less(alg, to % 2 == 1, y, x, false)?;
    let made = alg.either(four, above)?;
    Ok(made)
}

/// What tw and twi give: whether one of the five tests that `to` chooses holds of rA and rB or the immediate (Power ISA
/// Book I, "Fixed-Point Trap Instructions").
pub fn trap<A: Alg>(alg: &mut A, to: u8, from: &GuestIn<A>) -> Result<Effect<A>, NoMemory>
    requires owned { IsOwned A.word_reach (A.extent alg.old) from.now }
    ensures later { IsLater A.Alg alg.old alg.new }
    ensures makes { IfOk result (λ r. record { effect = r; held = A.held alg.new } ≡ trap_term A.ops to (A.held alg.old) from.now) }
    ensures fails { OnErr result (IsTrue A.takes_memory) }
    ensures gives { IfOk result (λ r. GivesEffect A.Alg alg.new r (λ v. traps to (values_of (λ w. A.word w v) from.now))) }
{
    let taken = trap_test(alg, to, from.a, from.b)?;
    Ok(Effect {
        taken,
        ..unchanged(alg, from)
    })
}
