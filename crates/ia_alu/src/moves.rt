//! Moves and extensions: mov, lea, movzx, movsx, bswap, cdq.

ghost use Rattle.std.specs.Prelude.{◌≡◌, ◌≤◌, ℕ, Bool, IfOk, OnErr, IsTrue};
ghost use Rattle.word_kit.specs.Algebra.{IsLater};
ghost use Rattle.word_kit.specs.Prelude.{plain_operations};
ghost use Rattle.ia_alu.specs.Values.{IsOwned, IsEffectOwned, meant, effect_meant, GivesEffect};
ghost use Rattle.ia_alu.specs.Terms.{kept_term, moved_term, signed_term, extend_term, copies_term};
ghost use Rattle.ia_alu.specs.Parts.{byte_term, half_term, swapped_term};

use crate::{HostEffect, HostIn};
use ia_codec::ExtendOp;
use word_kit::{Alg, NoMemory};

/// A result, with nothing else changed.
pub(crate) fn kept<A: Alg>(alg: &mut A, value: A::W, from: &HostIn<A>) -> HostEffect<A>
    requires value_owned { A.word_reach value ≤ A.extent alg.old }
    requires owned { IsOwned A.word_reach A.flag_reach (A.extent alg.old) from.now }
    ensures same { alg.new ≡ alg.old }
    ensures made { result ≡ kept_term A.ops value from.now }
    ensures owned { IsEffectOwned A.word_reach A.flag_reach (A.extent alg.new) result }
    ensures means { (v : ℕ → Bool) → effect_meant (λ w. A.word w v) (λ b. A.truth b v) result ≡ kept_term plain_operations (A.word value v) (meant (λ w. A.word w v) (λ b. A.truth b v) from.now) }
{
    let no = alg.flag(false);
    HostEffect {
        result: value,
        high: from.high,
        cf: from.cf,
        zf: from.zf,
        sf: from.sf,
        of: from.of,
        holds: no,
        faults: no,
    }
}

/// A value as the result, with nothing else changed.
pub(crate) fn moved<A: Alg>(
    alg: &mut A,
    value: A::W,
    from: &HostIn<A>,
) -> Result<HostEffect<A>, NoMemory>
    requires value_owned { A.word_reach value ≤ A.extent alg.old }
    requires owned { IsOwned A.word_reach A.flag_reach (A.extent alg.old) from.now }
    ensures later { IsLater A.Alg alg.old alg.new }
    ensures makes { IfOk result (λ r. record { effect = r; held = A.held alg.new } ≡ moved_term A.ops (A.held alg.old) value from.now) }
    ensures fails { OnErr result (IsTrue A.takes_memory) }
    ensures gives { IfOk result (λ r. GivesEffect A.Alg alg.new r (λ v. (moved_term plain_operations tt (A.word value v) (meant (λ w. A.word w v) (λ b. A.truth b v) from.now)).effect)) }
{
    Ok(kept(alg, value, from))
}

/// The low byte.
pub(crate) fn low_byte<A: Alg>(alg: &mut A, from: &HostIn<A>) -> Result<HostEffect<A>, NoMemory>
    requires owned { IsOwned A.word_reach A.flag_reach (A.extent alg.old) from.now }
    ensures later { IsLater A.Alg alg.old alg.new }
    ensures makes { IfOk result (λ r. record { effect = r; held = A.held alg.new } ≡ moved_term A.ops (A.held alg.old) (byte_term A.ops from.now.y) from.now) }
    ensures fails { OnErr result (IsTrue A.takes_memory) }
    ensures gives { IfOk result (λ r. GivesEffect A.Alg alg.new r (λ v. (moved_term plain_operations tt (byte_term plain_operations (A.word from.now.y v)) (meant (λ w. A.word w v) (λ b. A.truth b v) from.now)).effect)) }
{
    let byte = alg.byte(from.y, 0);
    moved(alg, byte, from)
}

/// The low 16 bits.
pub(crate) fn low_half<A: Alg>(alg: &mut A, from: &HostIn<A>) -> Result<HostEffect<A>, NoMemory>
    requires owned { IsOwned A.word_reach A.flag_reach (A.extent alg.old) from.now }
    ensures later { IsLater A.Alg alg.old alg.new }
    ensures makes { IfOk result (λ r. record { effect = r; held = A.held alg.new } ≡ moved_term A.ops (A.held alg.old) (half_term A.ops from.now.y) from.now) }
    ensures fails { OnErr result (IsTrue A.takes_memory) }
    ensures gives { IfOk result (λ r. GivesEffect A.Alg alg.new r (λ v. (moved_term plain_operations tt (half_term plain_operations (A.word from.now.y v)) (meant (λ w. A.word w v) (λ b. A.truth b v) from.now)).effect)) }
{
    let zero = alg.lit(0);
    let b1 = alg.byte(from.y, 1);
    let b0 = alg.byte(from.y, 0);
    let half = alg.join(zero, zero, b1, b0);
    moved(alg, half, from)
}

/// The bytes in the opposite order.
pub(crate) fn swapped<A: Alg>(alg: &mut A, from: &HostIn<A>) -> Result<HostEffect<A>, NoMemory>
    requires owned { IsOwned A.word_reach A.flag_reach (A.extent alg.old) from.now }
    ensures later { IsLater A.Alg alg.old alg.new }
    ensures makes { IfOk result (λ r. record { effect = r; held = A.held alg.new } ≡ moved_term A.ops (A.held alg.old) (swapped_term A.ops from.now.y) from.now) }
    ensures fails { OnErr result (IsTrue A.takes_memory) }
    ensures gives { IfOk result (λ r. GivesEffect A.Alg alg.new r (λ v. (moved_term plain_operations tt (swapped_term plain_operations (A.word from.now.y v)) (meant (λ w. A.word w v) (λ b. A.truth b v) from.now)).effect)) }
{
    let b0 = alg.byte(from.y, 0);
    let b1 = alg.byte(from.y, 1);
    let b2 = alg.byte(from.y, 2);
    let b3 = alg.byte(from.y, 3);
    let word = alg.join(b0, b1, b2, b3);
    moved(alg, word, from)
}

/// What is left below `bits` bits on the left, with its sign above it.
pub(crate) fn with_sign<A: Alg>(
    alg: &mut A,
    bits: u32,
    from: &HostIn<A>,
) -> Result<HostEffect<A>, NoMemory>
    requires owned { IsOwned A.word_reach A.flag_reach (A.extent alg.old) from.now }
    ensures later { IsLater A.Alg alg.old alg.new }
    ensures makes { IfOk result (λ r. record { effect = r; held = A.held alg.new } ≡ signed_term A.ops bits (A.held alg.old) from.now) }
    ensures fails { OnErr result (IsTrue A.takes_memory) }
    ensures gives { IfOk result (λ r. GivesEffect A.Alg alg.new r (λ v. (signed_term plain_operations bits tt (meant (λ w. A.word w v) (λ b. A.truth b v) from.now)).effect)) }
{
    let amount = alg.lit(bits);
    let up = alg.shift_left(from.y, amount)?;
    let down = alg.shift_arith(up, amount)?;
    moved(alg, down, from)
}

/// movzx and movsx.
pub(crate) fn extend<A: Alg>(
    alg: &mut A,
    op: ExtendOp,
    from: &HostIn<A>,
) -> Result<HostEffect<A>, NoMemory>
    requires owned { IsOwned A.word_reach A.flag_reach (A.extent alg.old) from.now }
    ensures later { IsLater A.Alg alg.old alg.new }
    ensures makes { IfOk result (λ r. record { effect = r; held = A.held alg.new } ≡ extend_term A.ops op (A.held alg.old) from.now) }
    ensures fails { OnErr result (IsTrue A.takes_memory) }
    ensures gives { IfOk result (λ r. GivesEffect A.Alg alg.new r (λ v. (extend_term plain_operations op tt (meant (λ w. A.word w v) (λ b. A.truth b v) from.now)).effect)) }
{
    match op {
        ExtendOp::MovzxByte => low_byte(alg, from),
        ExtendOp::MovzxHalf => low_half(alg, from),
        ExtendOp::MovsxByte => with_sign(alg, 24, from),
        ExtendOp::MovsxHalf => with_sign(alg, 16, from),
    }
}

/// cdq.
pub(crate) fn copies<A: Alg>(alg: &mut A, from: &HostIn<A>) -> Result<HostEffect<A>, NoMemory>
    requires owned { IsOwned A.word_reach A.flag_reach (A.extent alg.old) from.now }
    ensures later { IsLater A.Alg alg.old alg.new }
    ensures makes { IfOk result (λ r. record { effect = r; held = A.held alg.new } ≡ copies_term A.ops (A.held alg.old) from.now) }
    ensures fails { OnErr result (IsTrue A.takes_memory) }
    ensures gives { IfOk result (λ r. GivesEffect A.Alg alg.new r (λ v. (copies_term plain_operations tt (meant (λ w. A.word w v) (λ b. A.truth b v) from.now)).effect)) }
{
    let amount = alg.lit(31);
    let sign = alg.shift_arith(from.x, amount)?;
    let kept = kept(alg, from.x, from);
    Ok(HostEffect { high: sign, ..kept })
}
