//! Sums.

ghost use Rattle.std.specs.Prelude.{false, ◌≡◌, ◌≤◌, ℕ, Bool, IfOk, OnErr, IsTrue};
ghost use Rattle.word_kit.specs.Algebra.{IsLater};
ghost use Rattle.ppc_isa.specs.Recording.{ca};
ghost use Rattle.ppc_isa.specs.SumRows.{sum, sum_with, sum_carrying};
ghost use Rattle.ppc_parts.specs.Prelude.{IsOwned, values_of, GivesEffect};
ghost use Rattle.ppc_sums.specs.SumTerms.{sum_term, sum_carrying_term, ca_term};

use ppc_parts::{Effect, GuestIn, gives_d};
use word_kit::{Alg, NoMemory};

// `x + y` in rD.
pub(crate) fn plain_sum<A: Alg>(
    alg: &mut A,
    records: bool,
    x: A::W,
    y: A::W,
    from: &GuestIn<A>,
) -> Result<Effect<A>, NoMemory>
    requires x_owned { A.word_reach x ≤ A.extent alg.old }
    requires y_owned { A.word_reach y ≤ A.extent alg.old }
    requires owned { IsOwned A.word_reach (A.extent alg.old) from.now }
    ensures later { IsLater A.Alg alg.old alg.new }
    ensures makes { IfOk result (λ r. record { effect = r; held = A.held alg.new } ≡ sum_term A.ops records x y (A.ops.flag_of false) (A.held alg.old) from.now) }
    ensures fails { OnErr result (IsTrue A.takes_memory) }
    ensures gives { IfOk result (λ r. GivesEffect A.Alg alg.new r (λ v. sum records (A.word x v) (A.word y v) (values_of (λ w. A.word w v) from.now))) }
{
    let none = alg.flag(false);
    let (sum, _) = alg.add(x, y, none)?;
    gives_d(alg, records, sum, from)
}

// `x + y + carry` in rD.
pub(crate) fn sum<A: Alg>(
    alg: &mut A,
    records: bool,
    x: A::W,
    y: A::W,
    carry: A::B,
    from: &GuestIn<A>,
) -> Result<Effect<A>, NoMemory>
    requires x_owned { A.word_reach x ≤ A.extent alg.old }
    requires y_owned { A.word_reach y ≤ A.extent alg.old }
    requires carry_owned { A.flag_reach carry ≤ A.extent alg.old }
    requires owned { IsOwned A.word_reach (A.extent alg.old) from.now }
    ensures later { IsLater A.Alg alg.old alg.new }
    ensures makes { IfOk result (λ r. record { effect = r; held = A.held alg.new } ≡ sum_term A.ops records x y carry (A.held alg.old) from.now) }
    ensures fails { OnErr result (IsTrue A.takes_memory) }
    ensures gives { IfOk result (λ r. GivesEffect A.Alg alg.new r (λ v. sum_with records (A.word x v) (A.word y v) (A.truth carry v) (values_of (λ w. A.word w v) from.now))) }
{
    let (sum, _) = alg.add(x, y, carry)?;
    gives_d(alg, records, sum, from)
}

// `x + y + carry` in rD, with CA.
pub(crate) fn sum_carrying<A: Alg>(
    alg: &mut A,
    records: bool,
    x: A::W,
    y: A::W,
    carry: A::B,
    from: &GuestIn<A>,
) -> Result<Effect<A>, NoMemory>
    requires x_owned { A.word_reach x ≤ A.extent alg.old }
    requires y_owned { A.word_reach y ≤ A.extent alg.old }
    requires carry_owned { A.flag_reach carry ≤ A.extent alg.old }
    requires owned { IsOwned A.word_reach (A.extent alg.old) from.now }
    ensures later { IsLater A.Alg alg.old alg.new }
    ensures makes { IfOk result (λ r. record { effect = r; held = A.held alg.new } ≡ sum_carrying_term A.ops records x y carry (A.held alg.old) from.now) }
    ensures fails { OnErr result (IsTrue A.takes_memory) }
    ensures gives { IfOk result (λ r. GivesEffect A.Alg alg.new r (λ v. sum_carrying records (A.word x v) (A.word y v) (A.truth carry v) (values_of (λ w. A.word w v) from.now))) }
{
    let (sum, out) = alg.add(x, y, carry)?;
    let xer = alg.put_bit(from.xer, 29, out);
    let made = gives_d(alg, records, sum, from)?;
    Ok(Effect { xer, ..made })
}

// CA.
pub(crate) fn carry_in<A: Alg>(alg: &mut A, from: &GuestIn<A>) -> A::B
    requires owned { IsOwned A.word_reach (A.extent alg.old) from.now }
    ensures same { alg.new ≡ alg.old }
    ensures made { result ≡ ca_term A.ops from.now }
    ensures owned { A.flag_reach result ≤ A.extent alg.new }
    ensures means { (v : ℕ → Bool) → A.truth result v ≡ ca (values_of (λ w. A.word w v) from.now) }
{
    alg.bit(from.xer, 29)
}
