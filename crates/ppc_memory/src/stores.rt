//! Stores by their ops.

ghost use Rattle.std.specs.Prelude.{◌≡◌, IfOk, OnErr, IsTrue};
ghost use Rattle.word_kit.specs.Algebra.{IsLater};
ghost use Rattle.ppc_isa.specs.Rows.{store_row, store_update_row, store_indexed_row, store_indexed_update_row};
ghost use Rattle.ppc_parts.specs.Prelude.{IsOwned, values_of, GivesEffect};
ghost use Rattle.ppc_memory.specs.StoreTerms.{store_row_term, store_update_row_term, store_indexed_row_term, store_indexed_update_row_term};

use crate::accesses::{half_reversed, low_byte, low_half, reversed, store, store_update};
use ppc_isa::{StoreIndexedOp, StoreIndexedUpdateOp, StoreOp, StoreUpdateOp};
use ppc_parts::{Effect, GuestIn, base};
use word_kit::{Alg, NoMemory};

/// What a store with a displacement gives (Power ISA Book I, "Fixed-Point Store Instructions"). `a` is the field of rA,
/// `from.b` the displacement, `from.s` the register whose low bytes are stored.
pub fn store_row<A: Alg>(
    alg: &mut A,
    op: StoreOp,
    a: u8,
    from: &GuestIn<A>,
) -> Result<Effect<A>, NoMemory>
    requires owned { IsOwned A.word_reach (A.extent alg.old) from.now }
    ensures later { IsLater A.Alg alg.old alg.new }
    ensures makes { IfOk result (λ r. record { effect = r; held = A.held alg.new } ≡ store_row_term A.ops op a (A.held alg.old) from.now) }
    ensures fails { OnErr result (IsTrue A.takes_memory) }
    ensures gives { IfOk result (λ r. GivesEffect A.Alg alg.new r (λ v. store_row op a (values_of (λ w. A.word w v) from.now))) }
{
    let base = base(alg, a, from);
    let byte = low_byte(alg, from.s);
    let half = low_half(alg, from.s);
    match op {
        StoreOp::Stw => store(alg, 4, base, from.s, from),
        StoreOp::Stb => store(alg, 1, base, byte, from),
        StoreOp::Sth => store(alg, 2, base, half, from),
    }
}

/// What a store with a displacement and update gives: rA gets the address (Power ISA Book I, "Fixed-Point Store
/// Instructions").
pub fn store_update_row<A: Alg>(
    alg: &mut A,
    op: StoreUpdateOp,
    from: &GuestIn<A>,
) -> Result<Effect<A>, NoMemory>
    requires owned { IsOwned A.word_reach (A.extent alg.old) from.now }
    ensures later { IsLater A.Alg alg.old alg.new }
    ensures makes { IfOk result (λ r. record { effect = r; held = A.held alg.new } ≡ store_update_row_term A.ops op (A.held alg.old) from.now) }
    ensures fails { OnErr result (IsTrue A.takes_memory) }
    ensures gives { IfOk result (λ r. GivesEffect A.Alg alg.new r (λ v. store_update_row op (values_of (λ w. A.word w v) from.now))) }
{
    let byte = low_byte(alg, from.s);
    let half = low_half(alg, from.s);
    match op {
        StoreUpdateOp::Stwu => store_update(alg, 4, from.s, from),
        StoreUpdateOp::Stbu => store_update(alg, 1, byte, from),
        StoreUpdateOp::Sthu => store_update(alg, 2, half, from),
    }
}

/// What a store with an index gives (Power ISA Book I, "Fixed-Point Store Instructions"); stwbrx and sthbrx reverse the
/// bytes. `a` is the field of rA.
pub fn store_indexed_row<A: Alg>(
    alg: &mut A,
    op: StoreIndexedOp,
    a: u8,
    from: &GuestIn<A>,
) -> Result<Effect<A>, NoMemory>
    requires owned { IsOwned A.word_reach (A.extent alg.old) from.now }
    ensures later { IsLater A.Alg alg.old alg.new }
    ensures makes { IfOk result (λ r. record { effect = r; held = A.held alg.new } ≡ store_indexed_row_term A.ops op a (A.held alg.old) from.now) }
    ensures fails { OnErr result (IsTrue A.takes_memory) }
    ensures gives { IfOk result (λ r. GivesEffect A.Alg alg.new r (λ v. store_indexed_row op a (values_of (λ w. A.word w v) from.now))) }
{
    let base = base(alg, a, from);
    let byte = low_byte(alg, from.s);
    let half = low_half(alg, from.s);
    let word_back = reversed(alg, from.s);
    let half_back = half_reversed(alg, from.s);
    match op {
        StoreIndexedOp::Stwx => store(alg, 4, base, from.s, from),
        StoreIndexedOp::Stbx => store(alg, 1, base, byte, from),
        StoreIndexedOp::Sthx => store(alg, 2, base, half, from),
        StoreIndexedOp::Stwbrx => store(alg, 4, base, word_back, from),
        StoreIndexedOp::Sthbrx => store(alg, 2, base, half_back, from),
    }
}

/// What a store with an index and update gives: rA gets the address (Power ISA Book I, "Fixed-Point Store
/// Instructions").
pub fn store_indexed_update_row<A: Alg>(
    alg: &mut A,
    op: StoreIndexedUpdateOp,
    from: &GuestIn<A>,
) -> Result<Effect<A>, NoMemory>
    requires owned { IsOwned A.word_reach (A.extent alg.old) from.now }
    ensures later { IsLater A.Alg alg.old alg.new }
    ensures makes { IfOk result (λ r. record { effect = r; held = A.held alg.new } ≡ store_indexed_update_row_term A.ops op (A.held alg.old) from.now) }
    ensures fails { OnErr result (IsTrue A.takes_memory) }
    ensures gives { IfOk result (λ r. GivesEffect A.Alg alg.new r (λ v. store_indexed_update_row op (values_of (λ w. A.word w v) from.now))) }
{
    let byte = low_byte(alg, from.s);
    let half = low_half(alg, from.s);
    match op {
        StoreIndexedUpdateOp::Stwux => store_update(alg, 4, from.s, from),
        StoreIndexedUpdateOp::Stbux => store_update(alg, 1, byte, from),
        StoreIndexedUpdateOp::Sthux => store_update(alg, 2, half, from),
    }
}
