//! Logic, bit by bit.

ghost use Rattle.std.specs.Prelude.{◌≡◌, ◌≤◌, IfOk, OnErr, IsTrue};
ghost use Rattle.word_kit.specs.Algebra.{IsLater};
ghost use Rattle.word_kit.specs.Prelude.{word_and, word_or, word_xor, complement};
ghost use Rattle.ppc_isa.specs.Recording.{gives_a};
ghost use Rattle.ppc_parts.specs.Prelude.{IsOwned, values_of, GivesEffect};
ghost use Rattle.ppc_bits.specs.LogicTerms.{and_term, or_term, xor_term, nand_term, nor_term, eqv_term};

use ppc_parts::{Effect, GuestIn, gives_a};
use word_kit::{Alg, NoMemory};

// And of two words in rA.
pub(crate) fn and_words<A: Alg>(
    alg: &mut A,
    records: bool,
    x: A::W,
    y: A::W,
    from: &GuestIn<A>,
) -> Result<Effect<A>, NoMemory>
    requires x_owned { A.word_reach x ≤ A.extent alg.old }
    requires y_owned { A.word_reach y ≤ A.extent alg.old }
    requires owned { IsOwned A.word_reach (A.extent alg.old) from.now }
    ensures later { IsLater A.Alg alg.old alg.new }
    ensures makes { IfOk result (λ r. record { effect = r; held = A.held alg.new } ≡ and_term A.ops records x y (A.held alg.old) from.now) }
    ensures fails { OnErr result (IsTrue A.takes_memory) }
    ensures gives { IfOk result (λ r. GivesEffect A.Alg alg.new r (λ v. gives_a records (word_and (A.word x v) (A.word y v)) (values_of (λ w. A.word w v) from.now))) }
{
    let made = alg.and(x, y)?;
    gives_a(alg, records, made, from)
}

// Or of two words in rA.
pub(crate) fn or_words<A: Alg>(
    alg: &mut A,
    records: bool,
    x: A::W,
    y: A::W,
    from: &GuestIn<A>,
) -> Result<Effect<A>, NoMemory>
    requires x_owned { A.word_reach x ≤ A.extent alg.old }
    requires y_owned { A.word_reach y ≤ A.extent alg.old }
    requires owned { IsOwned A.word_reach (A.extent alg.old) from.now }
    ensures later { IsLater A.Alg alg.old alg.new }
    ensures makes { IfOk result (λ r. record { effect = r; held = A.held alg.new } ≡ or_term A.ops records x y (A.held alg.old) from.now) }
    ensures fails { OnErr result (IsTrue A.takes_memory) }
    ensures gives { IfOk result (λ r. GivesEffect A.Alg alg.new r (λ v. gives_a records (word_or (A.word x v) (A.word y v)) (values_of (λ w. A.word w v) from.now))) }
{
    let made = alg.or(x, y)?;
    gives_a(alg, records, made, from)
}

// Exclusive or of two words in rA.
pub(crate) fn xor_words<A: Alg>(
    alg: &mut A,
    records: bool,
    x: A::W,
    y: A::W,
    from: &GuestIn<A>,
) -> Result<Effect<A>, NoMemory>
    requires x_owned { A.word_reach x ≤ A.extent alg.old }
    requires y_owned { A.word_reach y ≤ A.extent alg.old }
    requires owned { IsOwned A.word_reach (A.extent alg.old) from.now }
    ensures later { IsLater A.Alg alg.old alg.new }
    ensures makes { IfOk result (λ r. record { effect = r; held = A.held alg.new } ≡ xor_term A.ops records x y (A.held alg.old) from.now) }
    ensures fails { OnErr result (IsTrue A.takes_memory) }
    ensures gives { IfOk result (λ r. GivesEffect A.Alg alg.new r (λ v. gives_a records (word_xor (A.word x v) (A.word y v)) (values_of (λ w. A.word w v) from.now))) }
{
    let made = alg.xor(x, y)?;
    gives_a(alg, records, made, from)
}

// The complement of that of rS and rB.
pub(crate) fn nand<A: Alg>(
    alg: &mut A,
    records: bool,
    from: &GuestIn<A>,
) -> Result<Effect<A>, NoMemory>
    requires owned { IsOwned A.word_reach (A.extent alg.old) from.now }
    ensures later { IsLater A.Alg alg.old alg.new }
    ensures makes { IfOk result (λ r. record { effect = r; held = A.held alg.new } ≡ nand_term A.ops records (A.held alg.old) from.now) }
    ensures fails { OnErr result (IsTrue A.takes_memory) }
    ensures gives { IfOk result (λ r. GivesEffect A.Alg alg.new r (λ v. gives_a records (complement (word_and (values_of (λ w. A.word w v) from.now).s (values_of (λ w. A.word w v) from.now).b)) (values_of (λ w. A.word w v) from.now))) }
{
    let made = alg.and(from.s, from.b)?;
    let complement = alg.not(made);
    gives_a(alg, records, complement, from)
}

// The complement of that of rS and rB.
pub(crate) fn nor<A: Alg>(
    alg: &mut A,
    records: bool,
    from: &GuestIn<A>,
) -> Result<Effect<A>, NoMemory>
    requires owned { IsOwned A.word_reach (A.extent alg.old) from.now }
    ensures later { IsLater A.Alg alg.old alg.new }
    ensures makes { IfOk result (λ r. record { effect = r; held = A.held alg.new } ≡ nor_term A.ops records (A.held alg.old) from.now) }
    ensures fails { OnErr result (IsTrue A.takes_memory) }
    ensures gives { IfOk result (λ r. GivesEffect A.Alg alg.new r (λ v. gives_a records (complement (word_or (values_of (λ w. A.word w v) from.now).s (values_of (λ w. A.word w v) from.now).b)) (values_of (λ w. A.word w v) from.now))) }
{
    let made = alg.or(from.s, from.b)?;
    let complement = alg.not(made);
    gives_a(alg, records, complement, from)
}

// The complement of that of rS and rB.
pub(crate) fn eqv<A: Alg>(
    alg: &mut A,
    records: bool,
    from: &GuestIn<A>,
) -> Result<Effect<A>, NoMemory>
    requires owned { IsOwned A.word_reach (A.extent alg.old) from.now }
    ensures later { IsLater A.Alg alg.old alg.new }
    ensures makes { IfOk result (λ r. record { effect = r; held = A.held alg.new } ≡ eqv_term A.ops records (A.held alg.old) from.now) }
    ensures fails { OnErr result (IsTrue A.takes_memory) }
    ensures gives { IfOk result (λ r. GivesEffect A.Alg alg.new r (λ v. gives_a records (complement (word_xor (values_of (λ w. A.word w v) from.now).s (values_of (λ w. A.word w v) from.now).b)) (values_of (λ w. A.word w v) from.now))) }
{
    let made = alg.xor(from.s, from.b)?;
    let complement = alg.not(made);
    gives_a(alg, records, complement, from)
}
