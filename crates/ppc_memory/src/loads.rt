//! Loads by their ops.

ghost use Rattle.std.specs.Prelude.{◌≡◌, ◌≤◌, IfOk, OnErr, IsTrue};
ghost use Rattle.word_kit.specs.Algebra.{IsLater};
ghost use Rattle.ppc_isa.specs.AccessRows.{half_extended, loads, updates};
ghost use Rattle.ppc_isa.specs.Rows.{load_row, load_update_row, load_indexed_row, load_indexed_update_row};
ghost use Rattle.ppc_parts.specs.Prelude.{IsOwned, values_of, GivesEffect};
ghost use Rattle.ppc_memory.specs.AccessTerms.{update_term};
ghost use Rattle.ppc_memory.specs.LoadTerms.{load_extended_term, load_row_term, load_update_row_term, load_indexed_row_term, load_indexed_update_row_term};

use crate::accesses::{half_reversed, load, load_update, reversed};
use ppc_isa::{LoadIndexedOp, LoadIndexedUpdateOp, LoadOp, LoadUpdateOp};
use ppc_parts::{Effect, GuestIn, base, extended_half};
use word_kit::{Alg, NoMemory};

// A half read as signed.
pub(crate) fn load_extended<A: Alg>(
    alg: &mut A,
    base: A::W,
    from: &GuestIn<A>,
) -> Result<Effect<A>, NoMemory>
    requires base_owned { A.word_reach base ≤ A.extent alg.old }
    requires owned { IsOwned A.word_reach (A.extent alg.old) from.now }
    ensures later { IsLater A.Alg alg.old alg.new }
    ensures makes { IfOk result (λ r. record { effect = r; held = A.held alg.new } ≡ load_extended_term A.ops base (A.held alg.old) from.now) }
    ensures fails { OnErr result (IsTrue A.takes_memory) }
    ensures gives { IfOk result (λ r. GivesEffect A.Alg alg.new r (λ v. loads 2 (A.word base v) (half_extended ((values_of (λ w. A.word w v) from.now)).loaded) (values_of (λ w. A.word w v) from.now))) }
{
    let number = extended_half(alg, from.loaded)?;
    load(alg, 2, base, number, from)
}

// A half read as signed, with update.
pub(crate) fn load_extended_update<A: Alg>(
    alg: &mut A,
    from: &GuestIn<A>,
) -> Result<Effect<A>, NoMemory>
    requires owned { IsOwned A.word_reach (A.extent alg.old) from.now }
    ensures later { IsLater A.Alg alg.old alg.new }
    ensures makes { IfOk result (λ r. record { effect = r; held = A.held alg.new } ≡ update_term A.ops (load_extended_term A.ops from.now.a (A.held alg.old) from.now)) }
    ensures fails { OnErr result (IsTrue A.takes_memory) }
    ensures gives { IfOk result (λ r. GivesEffect A.Alg alg.new r (λ v. updates (loads 2 ((values_of (λ w. A.word w v) from.now)).a (half_extended ((values_of (λ w. A.word w v) from.now)).loaded) (values_of (λ w. A.word w v) from.now)))) }
{
    let number = extended_half(alg, from.loaded)?;
    load_update(alg, 2, number, from)
}

/// What a load with a displacement gives (Power ISA Book I, "Fixed-Point Load Instructions"). `a` is the field of rA,
/// `from.b` the displacement, `from.loaded` the number that was loaded.
pub fn load_row<A: Alg>(
    alg: &mut A,
    op: LoadOp,
    a: u8,
    from: &GuestIn<A>,
) -> Result<Effect<A>, NoMemory>
    requires owned { IsOwned A.word_reach (A.extent alg.old) from.now }
    ensures later { IsLater A.Alg alg.old alg.new }
    ensures makes { IfOk result (λ r. record { effect = r; held = A.held alg.new } ≡ load_row_term A.ops op a (A.held alg.old) from.now) }
    ensures fails { OnErr result (IsTrue A.takes_memory) }
    ensures gives { IfOk result (λ r. GivesEffect A.Alg alg.new r (λ v. load_row op a (values_of (λ w. A.word w v) from.now))) }
{
    let base = base(alg, a, from);
    match op {
        LoadOp::Lwz => load(alg, 4, base, from.loaded, from),
        LoadOp::Lbz => load(alg, 1, base, from.loaded, from),
        LoadOp::Lhz => load(alg, 2, base, from.loaded, from),
        LoadOp::Lha => load_extended(alg, base, from),
    }
}

/// What a load with a displacement and update gives: rA gets the address (Power ISA Book I, "Fixed-Point Load
/// Instructions").
pub fn load_update_row<A: Alg>(
    alg: &mut A,
    op: LoadUpdateOp,
    from: &GuestIn<A>,
) -> Result<Effect<A>, NoMemory>
    requires owned { IsOwned A.word_reach (A.extent alg.old) from.now }
    ensures later { IsLater A.Alg alg.old alg.new }
    ensures makes { IfOk result (λ r. record { effect = r; held = A.held alg.new } ≡ load_update_row_term A.ops op (A.held alg.old) from.now) }
    ensures fails { OnErr result (IsTrue A.takes_memory) }
    ensures gives { IfOk result (λ r. GivesEffect A.Alg alg.new r (λ v. load_update_row op (values_of (λ w. A.word w v) from.now))) }
{
    match op {
        LoadUpdateOp::Lwzu => load_update(alg, 4, from.loaded, from),
        LoadUpdateOp::Lbzu => load_update(alg, 1, from.loaded, from),
        LoadUpdateOp::Lhzu => load_update(alg, 2, from.loaded, from),
        LoadUpdateOp::Lhau => load_extended_update(alg, from),
    }
}

/// What a load with an index gives (Power ISA Book I, "Fixed-Point Load Instructions"); lwbrx and lhbrx reverse the bytes.
/// `a` is the field of rA.
pub fn load_indexed_row<A: Alg>(
    alg: &mut A,
    op: LoadIndexedOp,
    a: u8,
    from: &GuestIn<A>,
) -> Result<Effect<A>, NoMemory>
    requires owned { IsOwned A.word_reach (A.extent alg.old) from.now }
    ensures later { IsLater A.Alg alg.old alg.new }
    ensures makes { IfOk result (λ r. record { effect = r; held = A.held alg.new } ≡ load_indexed_row_term A.ops op a (A.held alg.old) from.now) }
    ensures fails { OnErr result (IsTrue A.takes_memory) }
    ensures gives { IfOk result (λ r. GivesEffect A.Alg alg.new r (λ v. load_indexed_row op a (values_of (λ w. A.word w v) from.now))) }
{
    let base = base(alg, a, from);
    let word_back = reversed(alg, from.loaded);
    let half_back = half_reversed(alg, from.loaded);
    match op {
        LoadIndexedOp::Lwzx => load(alg, 4, base, from.loaded, from),
        LoadIndexedOp::Lbzx => load(alg, 1, base, from.loaded, from),
        LoadIndexedOp::Lhzx => load(alg, 2, base, from.loaded, from),
        LoadIndexedOp::Lhax => load_extended(alg, base, from),
        LoadIndexedOp::Lwbrx => load(alg, 4, base, word_back, from),
        LoadIndexedOp::Lhbrx => load(alg, 2, base, half_back, from),
    }
}

/// What a load with an index and update gives: rA gets the address (Power ISA Book I, "Fixed-Point Load Instructions").
pub fn load_indexed_update_row<A: Alg>(
    alg: &mut A,
    op: LoadIndexedUpdateOp,
    from: &GuestIn<A>,
) -> Result<Effect<A>, NoMemory>
    requires owned { IsOwned A.word_reach (A.extent alg.old) from.now }
    ensures later { IsLater A.Alg alg.old alg.new }
    ensures makes { IfOk result (λ r. record { effect = r; held = A.held alg.new } ≡ load_indexed_update_row_term A.ops op (A.held alg.old) from.now) }
    ensures fails { OnErr result (IsTrue A.takes_memory) }
    ensures gives { IfOk result (λ r. GivesEffect A.Alg alg.new r (λ v. load_indexed_update_row op (values_of (λ w. A.word w v) from.now))) }
{
    match op {
        LoadIndexedUpdateOp::Lwzux => load_update(alg, 4, from.loaded, from),
        LoadIndexedUpdateOp::Lbzux => load_update(alg, 1, from.loaded, from),
        LoadIndexedUpdateOp::Lhzux => load_update(alg, 2, from.loaded, from),
        LoadIndexedUpdateOp::Lhaux => load_extended_update(alg, from),
    }
}
