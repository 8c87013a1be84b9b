//! Rotates with a mask.

ghost use Rattle.std.specs.Prelude.{◌≡◌, ◌<◌, ◌≤◌, IfOk, OnErr, IsTrue};
ghost use Rattle.word_kit.specs.Algebra.{IsLater};
ghost use Rattle.word_kit.specs.Prelude.{word_and, rotated, mask, word_or, complement};
ghost use Rattle.ppc_isa.specs.Recording.{gives_a};
ghost use Rattle.ppc_isa.specs.RotateRows.{rotate};
ghost use Rattle.ppc_parts.specs.Prelude.{IsOwned, values_of, GivesEffect};
ghost use Rattle.ppc_bits.specs.ShiftTerms.{masked_term, inserted_term, rotate_term};

use ppc_isa::RotateOp;
use ppc_parts::{Effect, GuestIn, gives_a};
use word_kit::{Alg, NoMemory, mask as mask_of};

// rS turned to the left, and a mask.
pub(crate) fn masked<A: Alg>(
    alg: &mut A,
    by: A::W,
    mb: u8,
    me: u8,
    records: bool,
    from: &GuestIn<A>,
) -> Result<Effect<A>, NoMemory>
    requires mb_within { mb < 32 }
    requires me_within { me < 32 }
    requires by_owned { A.word_reach by ≤ A.extent alg.old }
    requires owned { IsOwned A.word_reach (A.extent alg.old) from.now }
    ensures later { IsLater A.Alg alg.old alg.new }
    ensures makes { IfOk result (λ r. record { effect = r; held = A.held alg.new } ≡ masked_term A.ops by mb me records (A.held alg.old) from.now) }
    ensures fails { OnErr result (IsTrue A.takes_memory) }
    ensures gives { IfOk result (λ r. GivesEffect A.Alg alg.new r (λ v. gives_a records (word_and (rotated (values_of (λ w. A.word w v) from.now).s (A.word by v)) (mask mb me)) (values_of (λ w. A.word w v) from.now))) }
{
    let turned = alg.rotate(from.s, by)?;
    let inside = alg.lit(mask_of(mb, me));
    let made = alg.and(turned, inside)?;
    gives_a(alg, records, made, from)
}

// rS turned to the left under a mask, and rA outside it.
pub(crate) fn inserted<A: Alg>(
    alg: &mut A,
    by: A::W,
    mb: u8,
    me: u8,
    records: bool,
    from: &GuestIn<A>,
) -> Result<Effect<A>, NoMemory>
    requires mb_within { mb < 32 }
    requires me_within { me < 32 }
    requires by_owned { A.word_reach by ≤ A.extent alg.old }
    requires owned { IsOwned A.word_reach (A.extent alg.old) from.now }
    ensures later { IsLater A.Alg alg.old alg.new }
    ensures makes { IfOk result (λ r. record { effect = r; held = A.held alg.new } ≡ inserted_term A.ops by mb me records (A.held alg.old) from.now) }
    ensures fails { OnErr result (IsTrue A.takes_memory) }
    ensures gives { IfOk result (λ r. GivesEffect A.Alg alg.new r (λ v. gives_a records (word_or (word_and (rotated (values_of (λ w. A.word w v) from.now).s (A.word by v)) (mask mb me)) (word_and (values_of (λ w. A.word w v) from.now).a (complement (mask mb me)))) (values_of (λ w. A.word w v) from.now))) }
{
    let ones = mask_of(mb, me);
    let turned = alg.rotate(from.s, by)?;
    let within = alg.lit(ones);
    let inside = alg.and(turned, within)?;
    let without = alg.lit(!ones);
    let outside = alg.and(from.a, without)?;
    let made = alg.or(inside, outside)?;
    gives_a(alg, records, made, from)
}

/// What rlwinm, rlwnm and rlwimi give: rS turned to the left under the mask from bit `mb` to bit `me` (Power ISA Book I,
/// "Fixed-Point Rotate Instructions"). Bit 0 is the highest; the mask wraps where `mb` is more than `me`.
pub fn rotate<A: Alg>(
    alg: &mut A,
    op: RotateOp,
    by: u8,
    mb: u8,
    me: u8,
    records: bool,
    from: &GuestIn<A>,
) -> Result<Effect<A>, NoMemory>
    requires mb_within { mb < 32 }
    requires me_within { me < 32 }
    requires owned { IsOwned A.word_reach (A.extent alg.old) from.now }
    ensures later { IsLater A.Alg alg.old alg.new }
    ensures makes { IfOk result (λ r. record { effect = r; held = A.held alg.new } ≡ rotate_term A.ops op by mb me records (A.held alg.old) from.now) }
    ensures fails { OnErr result (IsTrue A.takes_memory) }
    ensures gives { IfOk result (λ r. GivesEffect A.Alg alg.new r (λ v. gives_a records (rotate op by mb me (values_of (λ w. A.word w v) from.now)) (values_of (λ w. A.word w v) from.now))) }
{
    let count = alg.lit(by as u32);
    match op {
        RotateOp::Rlwinm => masked(alg, count, mb, me, records, from),
        RotateOp::Rlwnm => masked(alg, from.b, mb, me, records, from),
        RotateOp::Rlwimi => inserted(alg, count, mb, me, records, from),
    }
}
