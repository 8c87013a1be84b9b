//! Compares.

ghost use Rattle.std.specs.Prelude.{◌≡◌, ◌<◌, IfOk, OnErr, IsTrue};
ghost use Rattle.word_kit.specs.Algebra.{IsLater};
ghost use Rattle.ppc_isa.specs.Rows.{compare_row, compare_immediate_row};
ghost use Rattle.ppc_parts.specs.Prelude.{IsOwned, values_of, GivesEffect};
ghost use Rattle.ppc_flow.specs.CompareTerms.{compare_term, compare_row_term, compare_immediate_term};
ghost use Rattle.ppc_flow.specs.Meant.{compares};

use ppc_isa::{CompareImmediateOp, CompareOp};
use ppc_parts::{Effect, GuestIn, compare, unchanged};
use word_kit::{Alg, NoMemory};

// rA against rB or the immediate, into a field of CR.
pub(crate) fn compare_words<A: Alg>(
    alg: &mut A,
    signed: bool,
    field: u8,
    from: &GuestIn<A>,
) -> Result<Effect<A>, NoMemory>
    requires within { field < 8 }
    requires owned { IsOwned A.word_reach (A.extent alg.old) from.now }
    ensures later { IsLater A.Alg alg.old alg.new }
    ensures makes { IfOk result (λ r. record { effect = r; held = A.held alg.new } ≡ compare_term A.ops signed field (A.held alg.old) from.now) }
    ensures fails { OnErr result (IsTrue A.takes_memory) }
    ensures gives { IfOk result (λ r. GivesEffect A.Alg alg.new r (λ v. compares signed field (values_of (λ w. A.word w v) from.now))) }
{
    let cr = compare(alg, signed, field, from.a, from.b, from)?;
    Ok(Effect {
        cr,
        ..unchanged(alg, from)
    })
}

/// What cmp and cmpl give: rA against rB, into a field of CR (Power ISA Book I, "Fixed-Point Compare Instructions").
pub fn compare_row<A: Alg>(
    alg: &mut A,
    op: CompareOp,
    field: u8,
    from: &GuestIn<A>,
) -> Result<Effect<A>, NoMemory>
    requires within { field < 8 }
    requires owned { IsOwned A.word_reach (A.extent alg.old) from.now }
    ensures later { IsLater A.Alg alg.old alg.new }
    ensures makes { IfOk result (λ r. record { effect = r; held = A.held alg.new } ≡ compare_row_term A.ops op field (A.held alg.old) from.now) }
    ensures fails { OnErr result (IsTrue A.takes_memory) }
    ensures gives { IfOk result (λ r. GivesEffect A.Alg alg.new r (λ v. compare_row op field (values_of (λ w. A.word w v) from.now))) }
{
    match op {
        CompareOp::Cmp => compare_words(alg, true, field, from),
        CompareOp::Cmpl => compare_words(alg, false, field, from),
    }
}

/// What cmpi and cmpli give: rA against the immediate, which is `from.b`, into a field of CR (Power ISA Book I,
/// "Fixed-Point Compare Instructions").
pub fn compare_immediate_row<A: Alg>(
    alg: &mut A,
    op: CompareImmediateOp,
    field: u8,
    from: &GuestIn<A>,
) -> Result<Effect<A>, NoMemory>
    requires within { field < 8 }
    requires owned { IsOwned A.word_reach (A.extent alg.old) from.now }
    ensures later { IsLater A.Alg alg.old alg.new }
    ensures makes { IfOk result (λ r. record { effect = r; held = A.held alg.new } ≡ compare_immediate_term A.ops op field (A.held alg.old) from.now) }
    ensures fails { OnErr result (IsTrue A.takes_memory) }
    ensures gives { IfOk result (λ r. GivesEffect A.Alg alg.new r (λ v. compare_immediate_row op field (values_of (λ w. A.word w v) from.now))) }
{
    match op {
        CompareImmediateOp::Cmpi => compare_words(alg, true, field, from),
        CompareImmediateOp::Cmpli => compare_words(alg, false, field, from),
    }
}
