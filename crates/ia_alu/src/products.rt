//! Products and divisions: mul, imul of one and of two operands, div, idiv.

ghost use Rattle.std.specs.Prelude.{◌≡◌, ◌≤◌, ℕ, Bool, IfOk, OnErr, IsTrue};
ghost use Rattle.word_kit.specs.Algebra.{MayUntie};
ghost use Rattle.word_kit.specs.Prelude.{plain_operations};
ghost use Rattle.ia_alu.specs.Values.{IsOwned, IsEffectOwned, meant, effect_meant, GivesEffect};
ghost use Rattle.ia_alu.specs.Terms.{product_term, mul_term, imul1_term, imul_term, divide_term};

use crate::moves::kept;
use crate::parts::is_zero;
use crate::{HostEffect, HostIn};
use word_kit::{Alg, NoMemory};

// A product with its flags: CF and OF say that it isn't as short as its low half.
fn product<A: Alg>(
    alg: &mut A,
    low: A::W,
    high: A::W,
    fits: A::B,
    from: &HostIn<A>,
) -> HostEffect<A>
    requires low_owned { A.word_reach low ≤ A.extent alg.old }
    requires high_owned { A.word_reach high ≤ A.extent alg.old }
    requires fits_owned { A.flag_reach fits ≤ A.extent alg.old }
    requires owned { IsOwned A.word_reach A.flag_reach (A.extent alg.old) from.now }
    ensures same { alg.new ≡ alg.old }
    ensures made { result ≡ (product_term A.ops (A.held alg.old) low high fits from.now).effect }
    ensures owned { IsEffectOwned A.word_reach A.flag_reach (A.extent alg.new) result }
    ensures means { (v : ℕ → Bool) → effect_meant (λ w. A.word w v) (λ b. A.truth b v) result ≡ (product_term plain_operations tt (A.word low v) (A.word high v) (A.truth fits v) (meant (λ w. A.word w v) (λ b. A.truth b v) from.now)).effect }
{
    let long = alg.flip(fits);
    let kept = kept(alg, low, from);
    HostEffect {
        high,
        cf: long,
        zf: from.free_zf,
        sf: from.free_sf,
        of: long,
        ..kept
    }
}

/// Both halves of a product of words read as they are.
pub(crate) fn mul<A: Alg>(alg: &mut A, from: &HostIn<A>) -> Result<HostEffect<A>, NoMemory>
    requires owned { IsOwned A.word_reach A.flag_reach (A.extent alg.old) from.now }
    ensures later { MayUntie A.Alg alg.old alg.new }
    ensures makes { IfOk result (λ r. record { effect = r; held = A.held alg.new } ≡ mul_term A.ops (A.held alg.old) from.now) }
    ensures fails { OnErr result (IsTrue A.takes_memory) }
    ensures gives { IfOk result (λ r. GivesEffect A.Alg alg.new r (λ v. (mul_term plain_operations tt (meant (λ w. A.word w v) (λ b. A.truth b v) from.now)).effect)) }
{
    let low = alg.mul_low(from.x, from.y)?;
    let high = alg.mul_high(from.x, from.y, false)?;
    let fits = is_zero(alg, high)?;
    Ok(product(alg, low, high, fits, from))
}

/// Both halves of a product of words read as signed.
pub(crate) fn imul1<A: Alg>(alg: &mut A, from: &HostIn<A>) -> Result<HostEffect<A>, NoMemory>
    requires owned { IsOwned A.word_reach A.flag_reach (A.extent alg.old) from.now }
    ensures later { MayUntie A.Alg alg.old alg.new }
    ensures makes { IfOk result (λ r. record { effect = r; held = A.held alg.new } ≡ imul1_term A.ops (A.held alg.old) from.now) }
    ensures fails { OnErr result (IsTrue A.takes_memory) }
    ensures gives { IfOk result (λ r. GivesEffect A.Alg alg.new r (λ v. (imul1_term plain_operations tt (meant (λ w. A.word w v) (λ b. A.truth b v) from.now)).effect)) }
{
    let low = alg.mul_low(from.x, from.y)?;
    let high = alg.mul_high(from.x, from.y, true)?;
    let amount = alg.lit(31);
    let sign = alg.shift_arith(low, amount)?;
    let fits = alg.equal(high, sign)?;
    Ok(product(alg, low, high, fits, from))
}

/// The low half of a product of words read as signed.
pub(crate) fn imul<A: Alg>(alg: &mut A, from: &HostIn<A>) -> Result<HostEffect<A>, NoMemory>
    requires owned { IsOwned A.word_reach A.flag_reach (A.extent alg.old) from.now }
    ensures later { MayUntie A.Alg alg.old alg.new }
    ensures makes { IfOk result (λ r. record { effect = r; held = A.held alg.new } ≡ imul_term A.ops (A.held alg.old) from.now) }
    ensures fails { OnErr result (IsTrue A.takes_memory) }
    ensures gives { IfOk result (λ r. GivesEffect A.Alg alg.new r (λ v. (imul_term plain_operations tt (meant (λ w. A.word w v) (λ b. A.truth b v) from.now)).effect)) }
{
    let both = imul1(alg, from)?;
    Ok(HostEffect {
        high: from.high,
        ..both
    })
}

/// Quotient and remainder of edx and eax.
pub(crate) fn divide<A: Alg>(
    alg: &mut A,
    signed: bool,
    from: &HostIn<A>,
) -> Result<HostEffect<A>, NoMemory>
    requires owned { IsOwned A.word_reach A.flag_reach (A.extent alg.old) from.now }
    ensures later { MayUntie A.Alg alg.old alg.new }
    ensures makes { IfOk result (λ r. record { effect = r; held = A.held alg.new } ≡ divide_term A.ops signed (A.held alg.old) from.now) }
    ensures fails { OnErr result (IsTrue A.takes_memory) }
    ensures gives { IfOk result (λ r. GivesEffect A.Alg alg.new r (λ v. (divide_term plain_operations signed tt (meant (λ w. A.word w v) (λ b. A.truth b v) from.now)).effect)) }
{
    let (result, high, faults) = alg.div(from.high, from.x, from.y, signed)?;
    let no = alg.flag(false);
    Ok(HostEffect {
        result,
        high,
        cf: from.free_cf,
        zf: from.free_zf,
        sf: from.free_sf,
        of: from.free_of,
        holds: no,
        faults,
    })
}
