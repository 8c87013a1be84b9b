//! The count of leading zeros.

ghost use Rattle.std.specs.Prelude.{◌≡◌, ◌≤◌, IfOk, OnErr, IsTrue};
ghost use Rattle.word_kit.specs.Prelude.{GivesWord};
ghost use Rattle.word_kit.specs.Algebra.{IsLater};
ghost use Rattle.ppc_isa.specs.Recording.{gives_a};
ghost use Rattle.ppc_isa.specs.ShiftRows.{leading_zeros};
ghost use Rattle.ppc_parts.specs.Prelude.{IsOwned, values_of, GivesEffect};
ghost use Rattle.ppc_bits.specs.ShiftTerms.{zeros_term, cntlzw_term};

use ppc_parts::{Effect, GuestIn, gives_a};
use word_kit::{Alg, NoMemory};

// How many zeros stand before the first 1.
pub(crate) fn zeros<A: Alg>(alg: &mut A, x: A::W) -> Result<A::W, NoMemory>
    requires x_owned { A.word_reach x ≤ A.extent alg.old }
    ensures later { IsLater A.Alg alg.old alg.new }
    ensures makes { IfOk result (λ r. record { word = r; held = A.held alg.new } ≡ zeros_term A.ops 32 x (A.held alg.old)) }
    ensures fails { OnErr result (IsTrue A.takes_memory) }
    ensures gives { IfOk result (λ r. GivesWord A.Alg alg.new r (λ v. leading_zeros 32 (A.word x v))) }
{
    let mut count = alg.lit(32);
    for place in 0u8..32 {
        let one = alg.bit(x, place);
        let before = alg.lit((31 - place) as u32);
        count = alg.pick(one, before, count)?;
    }
    Ok(count)
}

// The leading zeros of rS in rA.
pub(crate) fn cntlzw<A: Alg>(
    alg: &mut A,
    records: bool,
    from: &GuestIn<A>,
) -> Result<Effect<A>, NoMemory>
    requires owned { IsOwned A.word_reach (A.extent alg.old) from.now }
    ensures later { IsLater A.Alg alg.old alg.new }
    ensures makes { IfOk result (λ r. record { effect = r; held = A.held alg.new } ≡ cntlzw_term A.ops records (A.held alg.old) from.now) }
    ensures fails { OnErr result (IsTrue A.takes_memory) }
    ensures gives { IfOk result (λ r. GivesEffect A.Alg alg.new r (λ v. gives_a records (leading_zeros 32 ((values_of (λ w. A.word w v) from.now)).s) (values_of (λ w. A.word w v) from.now))) }
{
    let made = zeros(alg, from.s)?;
    gives_a(alg, records, made, from)
}
