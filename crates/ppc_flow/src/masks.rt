//! Fields of CR from a register.

ghost use Rattle.std.specs.Prelude.{◌≡◌, IfOk, OnErr, IsTrue};
ghost use Rattle.word_kit.specs.Algebra.{IsLater};
ghost use Rattle.ppc_isa.specs.FieldRows.{fields_mask};
ghost use Rattle.ppc_parts.specs.Prelude.{IsOwned, values_of, GivesEffect};
ghost use Rattle.ppc_flow.specs.FieldTerms.{fields_put_term};
ghost use Rattle.ppc_flow.specs.Meant.{puts_fields};

use ppc_parts::{Effect, GuestIn, unchanged};
use word_kit::{Alg, NoMemory};

// Ones in the chosen fields, field 0 by the highest of the eight bits.
pub(crate) fn fields_mask(chosen: u8) -> u32
    ensures { result ≡ fields_mask chosen }
{
    let mut mask: u32 = 0;
    for place in 0u8..8 {
        if (chosen >> place) % 2 == 1 {
            mask += 0xf << (4 * place);
        }
    }
    mask
}

/// What mtcrf gives: the fields of CR that `chosen` names are those of rS, field 0 by its highest bit (Power ISA Book I,
/// "Move To/From System Register Instructions").
pub fn put_fields<A: Alg>(alg: &mut A, chosen: u8, from: &GuestIn<A>) -> Result<Effect<A>, NoMemory>
    requires owned { IsOwned A.word_reach (A.extent alg.old) from.now }
    ensures later { IsLater A.Alg alg.old alg.new }
    ensures makes { IfOk result (λ r. record { effect = r; held = A.held alg.new } ≡ fields_put_term A.ops chosen (A.held alg.old) from.now) }
    ensures fails { OnErr result (IsTrue A.takes_memory) }
    ensures gives { IfOk result (λ r. GivesEffect A.Alg alg.new r (λ v. puts_fields chosen (values_of (λ w. A.word w v) from.now))) }
{
    let ones = fields_mask(chosen);
    let chosen_ones = alg.lit(ones);
    let inside = alg.and(from.s, chosen_ones)?;
    let other_ones = alg.lit(!ones);
    let outside = alg.and(from.cr, other_ones)?;
    let cr = alg.or(inside, outside)?;
    Ok(Effect {
        cr,
        ..unchanged(alg, from)
    })
}
