//! Logic by its ops.

ghost use Rattle.std.specs.Prelude.{◌≡◌, IfOk, OnErr, IsTrue};
ghost use Rattle.word_kit.specs.Algebra.{IsLater};
ghost use Rattle.ppc_isa.specs.Locations.{logic_immediate_records};
ghost use Rattle.ppc_isa.specs.LogicRows.{logic_immediate};
ghost use Rattle.ppc_isa.specs.Recording.{gives_a};
ghost use Rattle.ppc_isa.specs.Rows.{logic_row, logic_unary_row};
ghost use Rattle.ppc_parts.specs.Prelude.{IsOwned, values_of, GivesEffect};
ghost use Rattle.ppc_bits.specs.LogicTerms.{logic_immediate_term, logic_term};
ghost use Rattle.ppc_bits.specs.ShiftTerms.{logic_unary_term};

use crate::counts::cntlzw;
use crate::extensions::{extsb, extsh};
use crate::logic::{and_words, eqv, nand, nor, or_words, xor_words};
use crate::shifts::{slw, sraw, srw};
use ppc_isa::{LogicImmediateOp, LogicOp, LogicUnaryOp};
use ppc_parts::{Effect, GuestIn};
use word_kit::{Alg, NoMemory};

/// What logic with an immediate gives (Power ISA Book I, "Fixed-Point Logical Instructions"). `from.b` is the immediate as
/// the row combines it. andi. and andis. record.
pub fn logic_immediate_row<A: Alg>(
    alg: &mut A,
    op: LogicImmediateOp,
    from: &GuestIn<A>,
) -> Result<Effect<A>, NoMemory>
    requires owned { IsOwned A.word_reach (A.extent alg.old) from.now }
    ensures later { IsLater A.Alg alg.old alg.new }
    ensures makes { IfOk result (λ r. record { effect = r; held = A.held alg.new } ≡ logic_immediate_term A.ops op (A.held alg.old) from.now) }
    ensures fails { OnErr result (IsTrue A.takes_memory) }
    ensures gives { IfOk result (λ r. GivesEffect A.Alg alg.new r (λ v. gives_a (logic_immediate_records op) (logic_immediate op (values_of (λ w. A.word w v) from.now).s (values_of (λ w. A.word w v) from.now).b) (values_of (λ w. A.word w v) from.now))) }
{
    match op {
        LogicImmediateOp::Ori | LogicImmediateOp::Oris => or_words(
            alg, false, from.s, from.b, from,
        ),
        LogicImmediateOp::Xori | LogicImmediateOp::Xoris => {
            xor_words(alg, false, from.s, from.b, from)
        }
        LogicImmediateOp::Andi | LogicImmediateOp::Andis => {
            and_words(alg, true, from.s, from.b, from)
        }
    }
}

/// What logic and shifts of rS by rB give (Power ISA Book I, "Fixed-Point Logical Instructions" and "Fixed-Point Shift
/// Instructions"). A shift takes the low six bits of rB.
pub fn logic_row<A: Alg>(
    alg: &mut A,
    op: LogicOp,
    records: bool,
    from: &GuestIn<A>,
) -> Result<Effect<A>, NoMemory>
    requires owned { IsOwned A.word_reach (A.extent alg.old) from.now }
    ensures later { IsLater A.Alg alg.old alg.new }
    ensures makes { IfOk result (λ r. record { effect = r; held = A.held alg.new } ≡ logic_term A.ops op records (A.held alg.old) from.now) }
    ensures fails { OnErr result (IsTrue A.takes_memory) }
    ensures gives { IfOk result (λ r. GivesEffect A.Alg alg.new r (λ v. logic_row op records (values_of (λ w. A.word w v) from.now))) }
{
    let not_b = alg.not(from.b);
    match op {
        LogicOp::And => and_words(alg, records, from.s, from.b, from),
        LogicOp::Or => or_words(alg, records, from.s, from.b, from),
        LogicOp::Xor => xor_words(alg, records, from.s, from.b, from),
        LogicOp::Nand => nand(alg, records, from),
        LogicOp::Nor => nor(alg, records, from),
        LogicOp::Eqv => eqv(alg, records, from),
        LogicOp::Andc => and_words(alg, records, from.s, not_b, from),
        LogicOp::Orc => or_words(alg, records, from.s, not_b, from),
        LogicOp::Slw => slw(alg, records, from),
        LogicOp::Srw => srw(alg, records, from),
        LogicOp::Sraw => sraw(alg, records, from),
    }
}

/// What cntlzw, extsb and extsh give (Power ISA Book I, "Fixed-Point Logical Instructions").
pub fn logic_unary_row<A: Alg>(
    alg: &mut A,
    op: LogicUnaryOp,
    records: bool,
    from: &GuestIn<A>,
) -> Result<Effect<A>, NoMemory>
    requires owned { IsOwned A.word_reach (A.extent alg.old) from.now }
    ensures later { IsLater A.Alg alg.old alg.new }
    ensures makes { IfOk result (λ r. record { effect = r; held = A.held alg.new } ≡ logic_unary_term A.ops op records (A.held alg.old) from.now) }
    ensures fails { OnErr result (IsTrue A.takes_memory) }
    ensures gives { IfOk result (λ r. GivesEffect A.Alg alg.new r (λ v. logic_unary_row op records (values_of (λ w. A.word w v) from.now))) }
{
    match op {
        LogicUnaryOp::Cntlzw => cntlzw(alg, records, from),
        LogicUnaryOp::Extsb => extsb(alg, records, from),
        LogicUnaryOp::Extsh => extsh(alg, records, from),
    }
}
