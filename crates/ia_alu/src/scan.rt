//! The bit scan: bsr.

ghost use Rattle.std.specs.Prelude.{◌≡◌, ◌≤◌, IfOk, OnErr, IsTrue};
ghost use Rattle.word_kit.specs.Prelude.{GivesWord, plain_operations};
ghost use Rattle.word_kit.specs.Algebra.{IsLater};
ghost use Rattle.ia_alu.specs.Values.{IsOwned, meant, GivesEffect};
ghost use Rattle.ia_alu.specs.Terms.{scan_term};
ghost use Rattle.ia_alu.specs.Parts.{highest_term};

use crate::moves::kept;
use crate::parts::is_zero;
use crate::{HostEffect, HostIn};
use word_kit::{Alg, NoMemory};

// The place of the highest 1, and 0 where there is none.
fn highest<A: Alg>(alg: &mut A, x: A::W) -> Result<A::W, NoMemory>
    requires x_owned { A.word_reach x ≤ A.extent alg.old }
    ensures later { IsLater A.Alg alg.old alg.new }
    ensures makes { IfOk result (λ r. record { word = r; held = A.held alg.new } ≡ highest_term A.ops 32 (A.held alg.old) x) }
    ensures fails { OnErr result (IsTrue A.takes_memory) }
    ensures gives { IfOk result (λ r. GivesWord A.Alg alg.new r (λ v. (highest_term plain_operations 32 tt (A.word x v)).word)) }
{
    let mut highest = alg.lit(0);
    for place in 0u8..32 {
        let one = alg.bit(x, place);
        let number = alg.lit(place as u32);
        highest = alg.pick(one, number, highest)?;
    }
    Ok(highest)
}

/// The place of the highest 1; of 0, the free value.
pub(crate) fn scan<A: Alg>(alg: &mut A, from: &HostIn<A>) -> Result<HostEffect<A>, NoMemory>
    requires owned { IsOwned A.word_reach A.flag_reach (A.extent alg.old) from.now }
    ensures later { IsLater A.Alg alg.old alg.new }
    ensures makes { IfOk result (λ r. record { effect = r; held = A.held alg.new } ≡ scan_term A.ops (A.held alg.old) from.now) }
    ensures fails { OnErr result (IsTrue A.takes_memory) }
    ensures gives { IfOk result (λ r. GivesEffect A.Alg alg.new r (λ v. (scan_term plain_operations tt (meant (λ w. A.word w v) (λ b. A.truth b v) from.now)).effect)) }
{
    let highest = highest(alg, from.y)?;
    let zf = is_zero(alg, from.y)?;
    let value = alg.pick(zf, from.free, highest)?;
    let kept = kept(alg, value, from);
    Ok(HostEffect {
        cf: from.free_cf,
        zf,
        sf: from.free_sf,
        of: from.free_of,
        ..kept
    })
}
