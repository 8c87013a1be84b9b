//! Shifts and rotates.

ghost use Rattle.std.specs.Prelude.{◌≡◌, ◌≤◌, IfOk, OnErr, IsTrue};
ghost use Rattle.word_kit.specs.Algebra.{IsLater};
ghost use Rattle.word_kit.specs.Prelude.{plain_operations};
ghost use Rattle.ia_alu.specs.Values.{IsOwned, IsShiftedOwned, meant, GivesEffect};
ghost use Rattle.ia_alu.specs.Terms.{settled_term, turned_term, shift_term};

use crate::given::Shifted;
use crate::moves::kept;
use crate::parts::{choose, is_count, last_left, last_right, over_after, zero_after};
use crate::{HostEffect, HostIn};
use ia_codec::ShiftOp;
use word_kit::{Alg, NoMemory};

// A shift's result with its flags.
fn settled<A: Alg>(
    alg: &mut A,
    shifted: &Shifted<A>,
    from: &HostIn<A>,
) -> Result<HostEffect<A>, NoMemory>
    requires shifted_owned { IsShiftedOwned A.word_reach A.flag_reach (A.extent alg.old) shifted.now }
    requires owned { IsOwned A.word_reach A.flag_reach (A.extent alg.old) from.now }
    ensures later { IsLater A.Alg alg.old alg.new }
    ensures makes { IfOk result (λ r. record { effect = r; held = A.held alg.new } ≡ settled_term A.ops (A.held alg.old) shifted.now.count shifted.now.value shifted.now.last shifted.now.p shifted.now.q from.now) }
    ensures fails { OnErr result (IsTrue A.takes_memory) }
    ensures gives { IfOk result (λ r. GivesEffect A.Alg alg.new r (λ v. (settled_term plain_operations tt (A.word shifted.now.count v) (A.word shifted.now.value v) (A.truth shifted.now.last v) (A.truth shifted.now.p v) (A.truth shifted.now.q v) (meant (λ w. A.word w v) (λ b. A.truth b v) from.now)).effect)) }
{
    let none = is_count(alg, shifted.count, 0)?;
    let cf = choose(alg, none, from.cf, shifted.last)?;
    let zf = zero_after(alg, none, from.zf, shifted.value)?;
    let sign = alg.bit(shifted.value, 31);
    let sf = choose(alg, none, from.sf, sign)?;
    let of = over_after(
        alg,
        none,
        shifted.count,
        from.of,
        shifted.p,
        shifted.q,
        from.free_of,
    )?;
    let kept = kept(alg, shifted.value, from);
    Ok(HostEffect {
        cf,
        zf,
        sf,
        of,
        ..kept
    })
}

// A rotate's result with its flags; ZF and SF stay.
fn turned<A: Alg>(
    alg: &mut A,
    shifted: &Shifted<A>,
    from: &HostIn<A>,
) -> Result<HostEffect<A>, NoMemory>
    requires shifted_owned { IsShiftedOwned A.word_reach A.flag_reach (A.extent alg.old) shifted.now }
    requires owned { IsOwned A.word_reach A.flag_reach (A.extent alg.old) from.now }
    ensures later { IsLater A.Alg alg.old alg.new }
    ensures makes { IfOk result (λ r. record { effect = r; held = A.held alg.new } ≡ turned_term A.ops (A.held alg.old) shifted.now.count shifted.now.value shifted.now.last shifted.now.p shifted.now.q from.now) }
    ensures fails { OnErr result (IsTrue A.takes_memory) }
    ensures gives { IfOk result (λ r. GivesEffect A.Alg alg.new r (λ v. (turned_term plain_operations tt (A.word shifted.now.count v) (A.word shifted.now.value v) (A.truth shifted.now.last v) (A.truth shifted.now.p v) (A.truth shifted.now.q v) (meant (λ w. A.word w v) (λ b. A.truth b v) from.now)).effect)) }
{
    let none = is_count(alg, shifted.count, 0)?;
    let cf = choose(alg, none, from.cf, shifted.last)?;
    let of = over_after(
        alg,
        none,
        shifted.count,
        from.of,
        shifted.p,
        shifted.q,
        from.free_of,
    )?;
    let kept = kept(alg, shifted.value, from);
    Ok(HostEffect { cf, of, ..kept })
}

fn rol<A: Alg>(alg: &mut A, count: A::W, from: &HostIn<A>) -> Result<HostEffect<A>, NoMemory>
    requires count_owned { A.word_reach count ≤ A.extent alg.old }
    requires owned { IsOwned A.word_reach A.flag_reach (A.extent alg.old) from.now }
    ensures later { IsLater A.Alg alg.old alg.new }
    ensures makes { IfOk result (λ r. record { effect = r; held = A.held alg.new } ≡ shift_term A.ops ShiftOp.Rol (A.held alg.old) count from.now) }
    ensures fails { OnErr result (IsTrue A.takes_memory) }
    ensures gives { IfOk result (λ r. GivesEffect A.Alg alg.new r (λ v. (shift_term plain_operations ShiftOp.Rol tt (A.word count v) (meant (λ w. A.word w v) (λ b. A.truth b v) from.now)).effect)) }
{
    let result = alg.rotate(from.x, count)?;
    let low = alg.bit(result, 0);
    let top = alg.bit(result, 31);
    let shifted = Shifted {
        count,
        value: result,
        last: low,
        p: low,
        q: top,
    };
    turned(alg, &shifted, from)
}

fn ror<A: Alg>(alg: &mut A, count: A::W, from: &HostIn<A>) -> Result<HostEffect<A>, NoMemory>
    requires count_owned { A.word_reach count ≤ A.extent alg.old }
    requires owned { IsOwned A.word_reach A.flag_reach (A.extent alg.old) from.now }
    ensures later { IsLater A.Alg alg.old alg.new }
    ensures makes { IfOk result (λ r. record { effect = r; held = A.held alg.new } ≡ shift_term A.ops ShiftOp.Ror (A.held alg.old) count from.now) }
    ensures fails { OnErr result (IsTrue A.takes_memory) }
    ensures gives { IfOk result (λ r. GivesEffect A.Alg alg.new r (λ v. (shift_term plain_operations ShiftOp.Ror tt (A.word count v) (meant (λ w. A.word w v) (λ b. A.truth b v) from.now)).effect)) }
{
    let others = alg.not(count);
    let zero = alg.lit(0);
    let carry = alg.flag(true);
    let (rest, _) = alg.add(others, zero, carry)?;
    let result = alg.rotate(from.x, rest)?;
    let top = alg.bit(result, 31);
    let next = alg.bit(result, 30);
    let shifted = Shifted {
        count,
        value: result,
        last: top,
        p: top,
        q: next,
    };
    turned(alg, &shifted, from)
}

fn shl<A: Alg>(alg: &mut A, count: A::W, from: &HostIn<A>) -> Result<HostEffect<A>, NoMemory>
    requires count_owned { A.word_reach count ≤ A.extent alg.old }
    requires owned { IsOwned A.word_reach A.flag_reach (A.extent alg.old) from.now }
    ensures later { IsLater A.Alg alg.old alg.new }
    ensures makes { IfOk result (λ r. record { effect = r; held = A.held alg.new } ≡ shift_term A.ops ShiftOp.Shl (A.held alg.old) count from.now) }
    ensures fails { OnErr result (IsTrue A.takes_memory) }
    ensures gives { IfOk result (λ r. GivesEffect A.Alg alg.new r (λ v. (shift_term plain_operations ShiftOp.Shl tt (A.word count v) (meant (λ w. A.word w v) (λ b. A.truth b v) from.now)).effect)) }
{
    let result = alg.shift_left(from.x, count)?;
    let last = last_left(alg, from.x, count)?;
    let top = alg.bit(result, 31);
    let shifted = Shifted {
        count,
        value: result,
        last,
        p: last,
        q: top,
    };
    settled(alg, &shifted, from)
}

fn shr<A: Alg>(alg: &mut A, count: A::W, from: &HostIn<A>) -> Result<HostEffect<A>, NoMemory>
    requires count_owned { A.word_reach count ≤ A.extent alg.old }
    requires owned { IsOwned A.word_reach A.flag_reach (A.extent alg.old) from.now }
    ensures later { IsLater A.Alg alg.old alg.new }
    ensures makes { IfOk result (λ r. record { effect = r; held = A.held alg.new } ≡ shift_term A.ops ShiftOp.Shr (A.held alg.old) count from.now) }
    ensures fails { OnErr result (IsTrue A.takes_memory) }
    ensures gives { IfOk result (λ r. GivesEffect A.Alg alg.new r (λ v. (shift_term plain_operations ShiftOp.Shr tt (A.word count v) (meant (λ w. A.word w v) (λ b. A.truth b v) from.now)).effect)) }
{
    let result = alg.shift_right(from.x, count)?;
    let last = last_right(alg, from.x, count)?;
    let top = alg.bit(from.x, 31);
    let no = alg.flag(false);
    let shifted = Shifted {
        count,
        value: result,
        last,
        p: top,
        q: no,
    };
    settled(alg, &shifted, from)
}

fn sar<A: Alg>(alg: &mut A, count: A::W, from: &HostIn<A>) -> Result<HostEffect<A>, NoMemory>
    requires count_owned { A.word_reach count ≤ A.extent alg.old }
    requires owned { IsOwned A.word_reach A.flag_reach (A.extent alg.old) from.now }
    ensures later { IsLater A.Alg alg.old alg.new }
    ensures makes { IfOk result (λ r. record { effect = r; held = A.held alg.new } ≡ shift_term A.ops ShiftOp.Sar (A.held alg.old) count from.now) }
    ensures fails { OnErr result (IsTrue A.takes_memory) }
    ensures gives { IfOk result (λ r. GivesEffect A.Alg alg.new r (λ v. (shift_term plain_operations ShiftOp.Sar tt (A.word count v) (meant (λ w. A.word w v) (λ b. A.truth b v) from.now)).effect)) }
{
    let result = alg.shift_arith(from.x, count)?;
    let last = last_right(alg, from.x, count)?;
    let no = alg.flag(false);
    let shifted = Shifted {
        count,
        value: result,
        last,
        p: no,
        q: no,
    };
    settled(alg, &shifted, from)
}

/// The shift or rotate by the low five bits of a count.
pub(crate) fn shift<A: Alg>(
    alg: &mut A,
    op: ShiftOp,
    count: A::W,
    from: &HostIn<A>,
) -> Result<HostEffect<A>, NoMemory>
    requires count_owned { A.word_reach count ≤ A.extent alg.old }
    requires owned { IsOwned A.word_reach A.flag_reach (A.extent alg.old) from.now }
    ensures later { IsLater A.Alg alg.old alg.new }
    ensures makes { IfOk result (λ r. record { effect = r; held = A.held alg.new } ≡ shift_term A.ops op (A.held alg.old) count from.now) }
    ensures fails { OnErr result (IsTrue A.takes_memory) }
    ensures gives { IfOk result (λ r. GivesEffect A.Alg alg.new r (λ v. (shift_term plain_operations op tt (A.word count v) (meant (λ w. A.word w v) (λ b. A.truth b v) from.now)).effect)) }
{
    match op {
        ShiftOp::Rol => rol(alg, count, from),
        ShiftOp::Ror => ror(alg, count, from),
        ShiftOp::Shl => shl(alg, count, from),
        ShiftOp::Shr => shr(alg, count, from),
        ShiftOp::Sar => sar(alg, count, from),
    }
}
