//! Operands that several rows make.

ghost use Rattle.std.specs.Prelude.{◌≡◌, ◌≤◌, ℕ, Bool, IfOk, OnOk, OnErr, IsTrue};
ghost use Rattle.word_kit.specs.Prelude.{GivesWord};
ghost use Rattle.word_kit.specs.Algebra.{IsLater};
ghost use Rattle.ppc_isa.specs.AccessRows.{byte_extended, half_extended};
ghost use Rattle.ppc_isa.specs.SumRows.{base};
ghost use Rattle.ppc_parts.specs.Meanings.{IsOwned, values_of};
ghost use Rattle.ppc_parts.specs.OperandTerms.{base_term, extended_term};

use crate::given::GuestIn;
use word_kit::{Alg, NoMemory};

/// The word that stands for (rA|0): 0 where the field of rA is 0, and else rA.
pub fn base<A: Alg>(alg: &mut A, a: u8, from: &GuestIn<A>) -> A::W
    requires owned { IsOwned A.word_reach (A.extent alg.old) from.now }
    ensures same { alg.new ≡ alg.old }
    ensures made { result ≡ base_term A.ops a from.now }
    ensures owned { A.word_reach result ≤ A.extent alg.new }
    ensures means { (v : ℕ → Bool) → A.word result v ≡ base a (values_of (λ w. A.word w v) from.now) }
{
    if a == 0 { alg.lit(0) } else { from.a }
}

/// The low byte read as a signed number, as a word.
#[tactic(auto, using(crate::proofs::SignCopies::extended_byte))]
pub fn extended_byte<A: Alg>(alg: &mut A, x: A::W) -> Result<A::W, NoMemory>
    requires x_owned { A.word_reach x ≤ A.extent alg.old }
    ensures later { IsLater A.Alg alg.old alg.new }
    ensures makes { IfOk result (λ r. record { word = r; held = A.held alg.new } ≡ extended_term A.ops x 24 (A.held alg.old)) }
    ensures fails { OnErr result (IsTrue A.takes_memory) }
    ensures gives { IfOk result (λ r. GivesWord A.Alg alg.new r (λ v. byte_extended (A.word x v))) }
{
    let count = alg.lit(24);
    let up = alg.shift_left(x, count)?;
    let made = alg.shift_arith(up, count)?;
    Ok(made)
}

/// The low half read as a signed number, as a word.
#[tactic(auto, using(crate::proofs::SignCopies::extended_half))]
pub fn extended_half<A: Alg>(alg: &mut A, x: A::W) -> Result<A::W, NoMemory>
    requires x_owned { A.word_reach x ≤ A.extent alg.old }
    ensures later { IsLater A.Alg alg.old alg.new }
    ensures makes { IfOk result (λ r. record { word = r; held = A.held alg.new } ≡ extended_term A.ops x 16 (A.held alg.old)) }
    ensures fails { OnErr result (IsTrue A.takes_memory) }
    ensures gives { IfOk result (λ r. GivesWord A.Alg alg.new r (λ v. half_extended (A.word x v))) }
{
    let count = alg.lit(16);
    let up = alg.shift_left(x, count)?;
    let made = alg.shift_arith(up, count)?;
    Ok(made)
}
