//! Products and quotients.

ghost use Rattle.std.specs.Prelude.{◌≡◌, ◌≤◌, IfOk, OnErr, IsTrue};
ghost use Rattle.word_kit.specs.Prelude.{GivesWord, product_low, product_high};
ghost use Rattle.word_kit.specs.Algebra.{MayUntie};
ghost use Rattle.ppc_isa.specs.ProductRows.{quotient_signed, quotient_unsigned};
ghost use Rattle.ppc_isa.specs.Recording.{gives_d};
ghost use Rattle.ppc_parts.specs.Prelude.{IsOwned, values_of, GivesEffect};
ghost use Rattle.ppc_sums.specs.ProductTerms.{product_term, high_product_term, signed_quotient_term, unsigned_quotient_term, divw_term, divwu_term};

use ppc_parts::{Effect, GuestIn, gives_d};
use word_kit::{Alg, NoMemory};

// The low word of a product.
pub(crate) fn product<A: Alg>(
    alg: &mut A,
    records: bool,
    from: &GuestIn<A>,
) -> Result<Effect<A>, NoMemory>
    requires owned { IsOwned A.word_reach (A.extent alg.old) from.now }
    ensures later { MayUntie A.Alg alg.old alg.new }
    ensures makes { IfOk result (λ r. record { effect = r; held = A.held alg.new } ≡ product_term A.ops records (A.held alg.old) from.now) }
    ensures fails { OnErr result (IsTrue A.takes_memory) }
    ensures gives { IfOk result (λ r. GivesEffect A.Alg alg.new r (λ v. gives_d records (product_low (values_of (λ w. A.word w v) from.now).a (values_of (λ w. A.word w v) from.now).b) (values_of (λ w. A.word w v) from.now))) }
{
    let made = alg.mul_low(from.a, from.b)?;
    gives_d(alg, records, made, from)
}

// The high word of a product.
pub(crate) fn high_product<A: Alg>(
    alg: &mut A,
    signed: bool,
    records: bool,
    from: &GuestIn<A>,
) -> Result<Effect<A>, NoMemory>
    requires owned { IsOwned A.word_reach (A.extent alg.old) from.now }
    ensures later { MayUntie A.Alg alg.old alg.new }
    ensures makes { IfOk result (λ r. record { effect = r; held = A.held alg.new } ≡ high_product_term A.ops signed records (A.held alg.old) from.now) }
    ensures fails { OnErr result (IsTrue A.takes_memory) }
    ensures gives { IfOk result (λ r. GivesEffect A.Alg alg.new r (λ v. gives_d records (product_high (values_of (λ w. A.word w v) from.now).a (values_of (λ w. A.word w v) from.now).b signed) (values_of (λ w. A.word w v) from.now))) }
{
    let made = alg.mul_high(from.a, from.b, signed)?;
    gives_d(alg, records, made, from)
}

// The signed quotient.
#[tactic(auto, using(crate::proofs::Quotients::signed_is))]
pub(crate) fn signed_quotient<A: Alg>(alg: &mut A, x: A::W, y: A::W) -> Result<A::W, NoMemory>
    requires x_owned { A.word_reach x ≤ A.extent alg.old }
    requires y_owned { A.word_reach y ≤ A.extent alg.old }
    ensures later { MayUntie A.Alg alg.old alg.new }
    ensures makes { IfOk result (λ r. record { word = r; held = A.held alg.new } ≡ signed_quotient_term A.ops x y (A.held alg.old)) }
    ensures fails { OnErr result (IsTrue A.takes_memory) }
    ensures gives { IfOk result (λ r. GivesWord A.Alg alg.new r (λ v. quotient_signed (A.word x v) (A.word y v))) }
{
    let most = alg.lit(31);
    let signs = alg.shift_arith(x, most)?;
    let (quotient, _, _) = alg.div(signs, x, y, true)?;
    Ok(quotient)
}

// The unsigned quotient.
#[tactic(auto, using(crate::proofs::Quotients::unsigned_is))]
pub(crate) fn unsigned_quotient<A: Alg>(alg: &mut A, x: A::W, y: A::W) -> Result<A::W, NoMemory>
    requires x_owned { A.word_reach x ≤ A.extent alg.old }
    requires y_owned { A.word_reach y ≤ A.extent alg.old }
    ensures later { MayUntie A.Alg alg.old alg.new }
    ensures makes { IfOk result (λ r. record { word = r; held = A.held alg.new } ≡ unsigned_quotient_term A.ops x y (A.held alg.old)) }
    ensures fails { OnErr result (IsTrue A.takes_memory) }
    ensures gives { IfOk result (λ r. GivesWord A.Alg alg.new r (λ v. quotient_unsigned (A.word x v) (A.word y v))) }
{
    let zero = alg.lit(0);
    let (quotient, _, _) = alg.div(zero, x, y, false)?;
    Ok(quotient)
}

// rA by rB, both signed.
pub(crate) fn divw<A: Alg>(
    alg: &mut A,
    records: bool,
    from: &GuestIn<A>,
) -> Result<Effect<A>, NoMemory>
    requires owned { IsOwned A.word_reach (A.extent alg.old) from.now }
    ensures later { MayUntie A.Alg alg.old alg.new }
    ensures makes { IfOk result (λ r. record { effect = r; held = A.held alg.new } ≡ divw_term A.ops records (A.held alg.old) from.now) }
    ensures fails { OnErr result (IsTrue A.takes_memory) }
    ensures gives { IfOk result (λ r. GivesEffect A.Alg alg.new r (λ v. gives_d records (quotient_signed (values_of (λ w. A.word w v) from.now).a (values_of (λ w. A.word w v) from.now).b) (values_of (λ w. A.word w v) from.now))) }
{
    let made = signed_quotient(alg, from.a, from.b)?;
    gives_d(alg, records, made, from)
}

// rA by rB.
pub(crate) fn divwu<A: Alg>(
    alg: &mut A,
    records: bool,
    from: &GuestIn<A>,
) -> Result<Effect<A>, NoMemory>
    requires owned { IsOwned A.word_reach (A.extent alg.old) from.now }
    ensures later { MayUntie A.Alg alg.old alg.new }
    ensures makes { IfOk result (λ r. record { effect = r; held = A.held alg.new } ≡ divwu_term A.ops records (A.held alg.old) from.now) }
    ensures fails { OnErr result (IsTrue A.takes_memory) }
    ensures gives { IfOk result (λ r. GivesEffect A.Alg alg.new r (λ v. gives_d records (quotient_unsigned (values_of (λ w. A.word w v) from.now).a (values_of (λ w. A.word w v) from.now).b) (values_of (λ w. A.word w v) from.now))) }
{
    let made = unsigned_quotient(alg, from.a, from.b)?;
    gives_d(alg, records, made, from)
}
