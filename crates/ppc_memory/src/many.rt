//! Accesses of many registers.

ghost use Rattle.std.specs.Prelude.{◌≡◌, ◌≤◌, ◌<◌, IfOk, OnErr, IsTrue};
ghost use Rattle.word_kit.specs.Algebra.{IsLater};
ghost use Rattle.ppc_parts.specs.Prelude.{IsOwned, kind_of, values_of, GivesEffect};
ghost use Rattle.ppc_memory.specs.Meant.{reaches_many, multiple};
ghost use Rattle.ppc_memory.specs.StoreTerms.{many_term, multiple_term};

use ppc_isa::MultipleOp;
use ppc_parts::{Access, Effect, GuestIn, base, unchanged};
use word_kit::{Alg, NoMemory};

// The bytes of the registers from `d` on, as one access.
pub(crate) fn reach_many<A: Alg>(
    alg: &mut A,
    kind: Access,
    base: A::W,
    d: u8,
    from: &GuestIn<A>,
) -> Result<Effect<A>, NoMemory>
    requires d_within { d < 32 }
    requires base_owned { A.word_reach base ≤ A.extent alg.old }
    requires owned { IsOwned A.word_reach (A.extent alg.old) from.now }
    ensures later { IsLater A.Alg alg.old alg.new }
    ensures makes { IfOk result (λ r. record { effect = r; held = A.held alg.new } ≡ many_term A.ops kind base d (A.held alg.old) from.now) }
    ensures fails { OnErr result (IsTrue A.takes_memory) }
    ensures gives { IfOk result (λ r. GivesEffect A.Alg alg.new r (λ v. reaches_many (kind_of kind) (A.word base v) d (values_of (λ w. A.word w v) from.now))) }
{
    let none = alg.flag(false);
    let (address, _) = alg.add(base, from.b, none)?;
    Ok(Effect {
        address,
        width: 4 * (32 - d),
        kind,
        ..unchanged(alg, from)
    })
}

/// What lmw and stmw give: one access of four bytes for each register from `d` to r31 (Power ISA Book I, "Fixed-Point Load
/// and Store Multiple Instructions"). Its words, and the registers that are loaded, are the machine's. `a` is the field
/// of rA.
pub fn multiple_row<A: Alg>(
    alg: &mut A,
    op: MultipleOp,
    d: u8,
    a: u8,
    from: &GuestIn<A>,
) -> Result<Effect<A>, NoMemory>
    requires d_within { d < 32 }
    requires owned { IsOwned A.word_reach (A.extent alg.old) from.now }
    ensures later { IsLater A.Alg alg.old alg.new }
    ensures makes { IfOk result (λ r. record { effect = r; held = A.held alg.new } ≡ multiple_term A.ops op d a (A.held alg.old) from.now) }
    ensures fails { OnErr result (IsTrue A.takes_memory) }
    ensures gives { IfOk result (λ r. GivesEffect A.Alg alg.new r (λ v. multiple op d a (values_of (λ w. A.word w v) from.now))) }
{
    let base = base(alg, a, from);
    match op {
        MultipleOp::Lmw => reach_many(alg, Access::Load, base, d, from),
        MultipleOp::Stmw => reach_many(alg, Access::Store, base, d, from),
    }
}
