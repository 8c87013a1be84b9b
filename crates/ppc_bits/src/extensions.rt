//! Extensions of signs.

ghost use Rattle.std.specs.Prelude.{◌≡◌, IfOk, OnErr, IsTrue};
ghost use Rattle.word_kit.specs.Algebra.{IsLater};
ghost use Rattle.ppc_isa.specs.AccessRows.{byte_extended, half_extended};
ghost use Rattle.ppc_isa.specs.Recording.{gives_a};
ghost use Rattle.ppc_parts.specs.Prelude.{IsOwned, values_of, GivesEffect};
ghost use Rattle.ppc_bits.specs.ShiftTerms.{exts_term};

use ppc_parts::{Effect, GuestIn, extended_byte, extended_half, gives_a};
use word_kit::{Alg, NoMemory};

// The low byte of rS with its sign.
pub(crate) fn extsb<A: Alg>(
    alg: &mut A,
    records: bool,
    from: &GuestIn<A>,
) -> Result<Effect<A>, NoMemory>
    requires owned { IsOwned A.word_reach (A.extent alg.old) from.now }
    ensures later { IsLater A.Alg alg.old alg.new }
    ensures makes { IfOk result (λ r. record { effect = r; held = A.held alg.new } ≡ exts_term A.ops 24 records (A.held alg.old) from.now) }
    ensures fails { OnErr result (IsTrue A.takes_memory) }
    ensures gives { IfOk result (λ r. GivesEffect A.Alg alg.new r (λ v. gives_a records (byte_extended (values_of (λ w. A.word w v) from.now).s) (values_of (λ w. A.word w v) from.now))) }
{
    let made = extended_byte(alg, from.s)?;
    gives_a(alg, records, made, from)
}

// The low half of rS with its sign.
pub(crate) fn extsh<A: Alg>(
    alg: &mut A,
    records: bool,
    from: &GuestIn<A>,
) -> Result<Effect<A>, NoMemory>
    requires owned { IsOwned A.word_reach (A.extent alg.old) from.now }
    ensures later { IsLater A.Alg alg.old alg.new }
    ensures makes { IfOk result (λ r. record { effect = r; held = A.held alg.new } ≡ exts_term A.ops 16 records (A.held alg.old) from.now) }
    ensures fails { OnErr result (IsTrue A.takes_memory) }
    ensures gives { IfOk result (λ r. GivesEffect A.Alg alg.new r (λ v. gives_a records (half_extended (values_of (λ w. A.word w v) from.now).s) (values_of (λ w. A.word w v) from.now))) }
{
    let made = extended_half(alg, from.s)?;
    gives_a(alg, records, made, from)
}
