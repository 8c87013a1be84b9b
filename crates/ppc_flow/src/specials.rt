//! The special registers.

ghost use Rattle.std.specs.Prelude.{◌≡◌, ℕ, Bool, IfOk, OnErr, IsTrue};
ghost use Rattle.word_kit.specs.Algebra.{IsLater};
ghost use Rattle.ppc_isa.specs.FieldRows.{special_put};
ghost use Rattle.ppc_parts.specs.Prelude.{IsOwned, EffectOwned, values_of, effect_of, GivesEffect};
ghost use Rattle.ppc_flow.specs.FieldTerms.{special_value_term, special_read_term, link_or_count_term, xer_put_term, special_put_term};
ghost use Rattle.ppc_flow.specs.Meant.{reads_special, puts_link_or_count};

use ppc_parts::{Effect, GuestIn, unchanged};
use word_kit::{Alg, NoMemory};

// XER by 1, LR by 8, and else CTR.
pub(crate) fn special<A: Alg>(spr: u16, from: &GuestIn<A>) -> A::W
    ensures { result ≡ special_value_term spr from.now }
{
    match spr {
        1 => from.xer,
        8 => from.lr,
        _ => from.ctr,
    }
}

/// What mfspr gives: XER by 1, LR by 8 and else CTR, in rD (Power ISA Book I, "Move To/From System Register
/// Instructions").
pub fn read_special<A: Alg>(alg: &mut A, spr: u16, from: &GuestIn<A>) -> Effect<A>
    requires owned { IsOwned A.word_reach (A.extent alg.old) from.now }
    ensures same { alg.new ≡ alg.old }
    ensures made { result ≡ special_read_term A.ops spr from.now }
    ensures owned { EffectOwned A.word_reach A.flag_reach (A.extent alg.new) result }
    ensures means { (v : ℕ → Bool) → effect_of (λ w. A.word w v) (λ b. A.truth b v) result ≡ reads_special spr (values_of (λ w. A.word w v) from.now) }
{
    let d = special(spr, from);
    Effect {
        d,
        ..unchanged(alg, from)
    }
}

// rS in LR or CTR.
pub(crate) fn put_link_or_count<A: Alg>(alg: &mut A, spr: u16, from: &GuestIn<A>) -> Effect<A>
    requires owned { IsOwned A.word_reach (A.extent alg.old) from.now }
    ensures same { alg.new ≡ alg.old }
    ensures made { result ≡ link_or_count_term A.ops spr from.now }
    ensures owned { EffectOwned A.word_reach A.flag_reach (A.extent alg.new) result }
    ensures means { (v : ℕ → Bool) → effect_of (λ w. A.word w v) (λ b. A.truth b v) result ≡ puts_link_or_count spr (values_of (λ w. A.word w v) from.now) }
{
    let lr = if spr == 8 { from.s } else { from.lr };
    let ctr = if spr == 9 { from.s } else { from.ctr };
    Effect {
        lr,
        ctr,
        ..unchanged(alg, from)
    }
}

// The bits of XER from rS.
pub(crate) fn put_xer<A: Alg>(alg: &mut A, from: &GuestIn<A>) -> Result<Effect<A>, NoMemory>
    requires owned { IsOwned A.word_reach (A.extent alg.old) from.now }
    ensures later { IsLater A.Alg alg.old alg.new }
    ensures makes { IfOk result (λ r. record { effect = r; held = A.held alg.new } ≡ xer_put_term A.ops (A.held alg.old) from.now) }
    ensures fails { OnErr result (IsTrue A.takes_memory) }
    ensures gives { IfOk result (λ r. GivesEffect A.Alg alg.new r (λ v. special_put 1 (values_of (λ w. A.word w v) from.now))) }
{
    let bits = alg.lit(0xe000_007f);
    let xer = alg.and(from.s, bits)?;
    Ok(Effect {
        xer,
        ..unchanged(alg, from)
    })
}

/// What mtspr gives: rS in XER by 1, in LR by 8, in CTR by 9 (Power ISA Book I, "Move To/From System Register
/// Instructions"). XER takes SO, OV, CA and its low seven bits.
pub fn put_special<A: Alg>(alg: &mut A, spr: u16, from: &GuestIn<A>) -> Result<Effect<A>, NoMemory>
    requires owned { IsOwned A.word_reach (A.extent alg.old) from.now }
    ensures later { IsLater A.Alg alg.old alg.new }
    ensures makes { IfOk result (λ r. record { effect = r; held = A.held alg.new } ≡ special_put_term A.ops spr (A.held alg.old) from.now) }
    ensures fails { OnErr result (IsTrue A.takes_memory) }
    ensures gives { IfOk result (λ r. GivesEffect A.Alg alg.new r (λ v. special_put spr (values_of (λ w. A.word w v) from.now))) }
{
    if spr == 1 {
        put_xer(alg, from)
    } else {
        Ok(put_link_or_count(alg, spr, from))
    }
}
