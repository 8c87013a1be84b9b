//! Shifts.

ghost use Rattle.std.specs.Prelude.{◌≡◌, ◌≤◌, ◌%◌, IfOk, OnErr, IsTrue, not, ◌&&◌, eqb, ◌<◌};
ghost use Rattle.word_kit.specs.Prelude.{GivesWord, GivesFlag, is_negative};
ghost use Rattle.word_kit.specs.Algebra.{IsLater};
ghost use Rattle.ppc_isa.specs.Recording.{gives_a};
ghost use Rattle.ppc_isa.specs.ShiftRows.{left_by, right_by, arith_by, shifted_algebraic};
ghost use Rattle.ppc_parts.specs.Prelude.{IsOwned, values_of, GivesEffect};
ghost use Rattle.ppc_bits.specs.Meant.{algebraic};
ghost use Rattle.ppc_bits.specs.ShiftTerms.{left_term, right_term, arith_term, slw_term, srw_term, lost_term, algebraic_term, srawi_term, sraw_term};

use ppc_parts::{Effect, GuestIn, gives_a};
use word_kit::{Alg, NoMemory};

// To the left by the low six bits of an amount.
#[tactic(auto, using(crate::proofs::SixBits::left_six))]
pub(crate) fn left<A: Alg>(alg: &mut A, x: A::W, by: A::W) -> Result<A::W, NoMemory>
    requires x_owned { A.word_reach x ≤ A.extent alg.old }
    requires by_owned { A.word_reach by ≤ A.extent alg.old }
    ensures later { IsLater A.Alg alg.old alg.new }
    ensures makes { IfOk result (λ r. record { word = r; held = A.held alg.new } ≡ left_term A.ops x by (A.held alg.old)) }
    ensures fails { OnErr result (IsTrue A.takes_memory) }
    ensures gives { IfOk result (λ r. GivesWord A.Alg alg.new r (λ v. left_by (A.word x v) ((A.word by v) % 64))) }
{
    let near = alg.shift_left(x, by)?;
    let far = alg.bit(by, 5);
    let zero = alg.lit(0);
    let made = alg.pick(far, zero, near)?;
    Ok(made)
}

// To the right by the low six bits of an amount.
#[tactic(auto, using(crate::proofs::SixBits::right_six))]
pub(crate) fn right<A: Alg>(alg: &mut A, x: A::W, by: A::W) -> Result<A::W, NoMemory>
    requires x_owned { A.word_reach x ≤ A.extent alg.old }
    requires by_owned { A.word_reach by ≤ A.extent alg.old }
    ensures later { IsLater A.Alg alg.old alg.new }
    ensures makes { IfOk result (λ r. record { word = r; held = A.held alg.new } ≡ right_term A.ops x by (A.held alg.old)) }
    ensures fails { OnErr result (IsTrue A.takes_memory) }
    ensures gives { IfOk result (λ r. GivesWord A.Alg alg.new r (λ v. right_by (A.word x v) ((A.word by v) % 64))) }
{
    let near = alg.shift_right(x, by)?;
    let far = alg.bit(by, 5);
    let zero = alg.lit(0);
    let made = alg.pick(far, zero, near)?;
    Ok(made)
}

// To the right with copies of the sign by the low six bits of an amount.
#[tactic(auto, using(crate::proofs::SixBits::arith_six))]
pub(crate) fn arith<A: Alg>(alg: &mut A, x: A::W, by: A::W) -> Result<A::W, NoMemory>
    requires x_owned { A.word_reach x ≤ A.extent alg.old }
    requires by_owned { A.word_reach by ≤ A.extent alg.old }
    ensures later { IsLater A.Alg alg.old alg.new }
    ensures makes { IfOk result (λ r. record { word = r; held = A.held alg.new } ≡ arith_term A.ops x by (A.held alg.old)) }
    ensures fails { OnErr result (IsTrue A.takes_memory) }
    ensures gives { IfOk result (λ r. GivesWord A.Alg alg.new r (λ v. arith_by (A.word x v) ((A.word by v) % 64))) }
{
    let near = alg.shift_arith(x, by)?;
    let far = alg.bit(by, 5);
    let most = alg.lit(31);
    let signs = alg.shift_arith(x, most)?;
    let made = alg.pick(far, signs, near)?;
    Ok(made)
}

// rS to the left by the low six bits of rB.
pub(crate) fn slw<A: Alg>(
    alg: &mut A,
    records: bool,
    from: &GuestIn<A>,
) -> Result<Effect<A>, NoMemory>
    requires owned { IsOwned A.word_reach (A.extent alg.old) from.now }
    ensures later { IsLater A.Alg alg.old alg.new }
    ensures makes { IfOk result (λ r. record { effect = r; held = A.held alg.new } ≡ slw_term A.ops records (A.held alg.old) from.now) }
    ensures fails { OnErr result (IsTrue A.takes_memory) }
    ensures gives { IfOk result (λ r. GivesEffect A.Alg alg.new r (λ v. gives_a records (left_by (values_of (λ w. A.word w v) from.now).s ((values_of (λ w. A.word w v) from.now).b % 64)) (values_of (λ w. A.word w v) from.now))) }
{
    let made = left(alg, from.s, from.b)?;
    gives_a(alg, records, made, from)
}

// rS to the right by the low six bits of rB.
pub(crate) fn srw<A: Alg>(
    alg: &mut A,
    records: bool,
    from: &GuestIn<A>,
) -> Result<Effect<A>, NoMemory>
    requires owned { IsOwned A.word_reach (A.extent alg.old) from.now }
    ensures later { IsLater A.Alg alg.old alg.new }
    ensures makes { IfOk result (λ r. record { effect = r; held = A.held alg.new } ≡ srw_term A.ops records (A.held alg.old) from.now) }
    ensures fails { OnErr result (IsTrue A.takes_memory) }
    ensures gives { IfOk result (λ r. GivesEffect A.Alg alg.new r (λ v. gives_a records (right_by (values_of (λ w. A.word w v) from.now).s ((values_of (λ w. A.word w v) from.now).b % 64)) (values_of (λ w. A.word w v) from.now))) }
{
    let made = right(alg, from.s, from.b)?;
    gives_a(alg, records, made, from)
}

// Whether a negative word isn't what was kept of it.
#[tactic(auto, using(crate::proofs::SixBits::sign_bit))]
pub(crate) fn lost<A: Alg>(alg: &mut A, s: A::W, kept: A::W) -> Result<A::B, NoMemory>
    requires s_owned { A.word_reach s ≤ A.extent alg.old }
    requires kept_owned { A.word_reach kept ≤ A.extent alg.old }
    ensures later { IsLater A.Alg alg.old alg.new }
    ensures makes { IfOk result (λ r. record { flag = r; held = A.held alg.new } ≡ lost_term A.ops s kept (A.held alg.old)) }
    ensures fails { OnErr result (IsTrue A.takes_memory) }
    ensures gives { IfOk result (λ r. GivesFlag A.Alg alg.new r (λ v. is_negative (A.word s v) && not (eqb (A.word kept v) (A.word s v)))) }
{
    let same = alg.equal(kept, s)?;
    let sign = alg.bit(s, 31);
    let differs = alg.flip(same);
    alg.both(sign, differs)
}

// A shifted word in rA, with CA, which says whether the word that was shifted back differs from rS.
pub(crate) fn algebraic<A: Alg>(
    alg: &mut A,
    records: bool,
    shifted: A::W,
    kept: A::W,
    from: &GuestIn<A>,
) -> Result<Effect<A>, NoMemory>
    requires shifted_owned { A.word_reach shifted ≤ A.extent alg.old }
    requires kept_owned { A.word_reach kept ≤ A.extent alg.old }
    requires owned { IsOwned A.word_reach (A.extent alg.old) from.now }
    ensures later { IsLater A.Alg alg.old alg.new }
    ensures makes { IfOk result (λ r. record { effect = r; held = A.held alg.new } ≡ algebraic_term A.ops records shifted kept (A.held alg.old) from.now) }
    ensures fails { OnErr result (IsTrue A.takes_memory) }
    ensures gives { IfOk result (λ r. GivesEffect A.Alg alg.new r (λ v. algebraic records (A.word shifted v) (A.word kept v) (values_of (λ w. A.word w v) from.now))) }
{
    let carry = lost(alg, from.s, kept)?;
    let xer = alg.put_bit(from.xer, 29, carry);
    let made = gives_a(alg, records, shifted, from)?;
    Ok(Effect { xer, ..made })
}

/// What srawi gives: rS shifted to the right by `by` with copies of its sign, with CA where it is negative and loses ones
/// (Power ISA Book I, "Fixed-Point Shift Instructions").
pub fn srawi<A: Alg>(
    alg: &mut A,
    by: u8,
    records: bool,
    from: &GuestIn<A>,
) -> Result<Effect<A>, NoMemory>
    requires within { by < 32 }
    requires owned { IsOwned A.word_reach (A.extent alg.old) from.now }
    ensures later { IsLater A.Alg alg.old alg.new }
    ensures makes { IfOk result (λ r. record { effect = r; held = A.held alg.new } ≡ srawi_term A.ops by records (A.held alg.old) from.now) }
    ensures fails { OnErr result (IsTrue A.takes_memory) }
    ensures gives { IfOk result (λ r. GivesEffect A.Alg alg.new r (λ v. shifted_algebraic records by (values_of (λ w. A.word w v) from.now))) }
{
    let count = alg.lit(by as u32);
    let shifted = alg.shift_arith(from.s, count)?;
    let kept = alg.shift_left(shifted, count)?;
    algebraic(alg, records, shifted, kept, from)
}

// rS to the right by the low six bits of rB with copies of its sign.
pub(crate) fn sraw<A: Alg>(
    alg: &mut A,
    records: bool,
    from: &GuestIn<A>,
) -> Result<Effect<A>, NoMemory>
    requires owned { IsOwned A.word_reach (A.extent alg.old) from.now }
    ensures later { IsLater A.Alg alg.old alg.new }
    ensures makes { IfOk result (λ r. record { effect = r; held = A.held alg.new } ≡ sraw_term A.ops records (A.held alg.old) from.now) }
    ensures fails { OnErr result (IsTrue A.takes_memory) }
    ensures gives { IfOk result (λ r. GivesEffect A.Alg alg.new r (λ v. shifted_algebraic records ((values_of (λ w. A.word w v) from.now).b % 64) (values_of (λ w. A.word w v) from.now))) }
{
    let shifted = arith(alg, from.s, from.b)?;
    let kept = left(alg, shifted, from.b)?;
    algebraic(alg, records, shifted, kept, from)
}
