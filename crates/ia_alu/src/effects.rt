//! The effect of an op.

ghost use Rattle.std.specs.Prelude.{◌≡◌, false, IfOk, OnErr, IsTrue};
ghost use Rattle.word_kit.specs.Algebra.{MayUntie};
ghost use Rattle.ia_codec.specs.Prelude.{host_row, IsInProfile};
ghost use Rattle.ia_alu.specs.Values.{IsOwned, is_product, values_of, GivesOutcome};
ghost use Rattle.ia_alu.specs.Terms.{row_term};

use crate::rows::row;
use crate::{HostEffect, HostIn};
use ia_codec::Op;
use word_kit::{Alg, NoMemory};

/// What an op makes of the values that it reads: the row of the op (Intel SDM, volume 2; which flags are defined is the
/// profile's), with the values handed in for each result and flag that is undefined. It is the row's term over the
/// algebra's operations. No immediate and no displacement of the op is read: `from.y` is the operand's value. Only a
/// product or a division raises the algebra's opaque number. NoMemory comes only from an algebra that takes memory.
pub fn effect<A: Alg>(alg: &mut A, op: &Op, from: &HostIn<A>) -> Result<HostEffect<A>, NoMemory>
    requires profile { IsInProfile op.now }
    requires owned { IsOwned A.word_reach A.flag_reach (A.extent alg.old) from.now }
    ensures later { MayUntie A.Alg alg.old alg.new }
    ensures opaque { is_product op.now ≡ false → A.opaque alg.new ≡ A.opaque alg.old }
    ensures makes { IfOk result (λ r. record { effect = r; held = A.held alg.new } ≡ row_term A.ops op.now (A.held alg.old) from.now) }
    ensures fails { OnErr result (IsTrue A.takes_memory) }
    ensures gives { IfOk result (λ r. GivesOutcome A.Alg alg.new r (λ v. host_row op.now (values_of (λ w. A.word w v) (λ b. A.truth b v) from.now))) }
{
    row(alg, *op, from)
}
