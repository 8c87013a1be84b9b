//! CR by bits and fields.

ghost use Rattle.std.specs.Prelude.{◌≡◌, ◌≤◌, ℕ, Bool, IfOk, OnErr, IsTrue, ◌<◌};
ghost use Rattle.word_kit.specs.Prelude.{GivesFlag};
ghost use Rattle.word_kit.specs.Algebra.{IsLater};
ghost use Rattle.ppc_isa.specs.FieldRows.{cr_logic};
ghost use Rattle.ppc_parts.specs.Prelude.{IsOwned, EffectOwned, values_of, effect_of, GivesEffect};
ghost use Rattle.ppc_flow.specs.FieldTerms.{cr_logic_term, cr_logic_row_term, field_moved_term, cr_read_term};
ghost use Rattle.ppc_flow.specs.Meant.{cr_logics, moves_field, reads_cr};

use ppc_isa::CrLogicOp;
use ppc_parts::{Effect, GuestIn, put_field, unchanged};
use word_kit::{Alg, NoMemory};

// Logic on two bits.
pub(crate) fn cr_bits<A: Alg>(
    alg: &mut A,
    op: CrLogicOp,
    x: A::B,
    y: A::B,
) -> Result<A::B, NoMemory>
    requires x_owned { A.flag_reach x ≤ A.extent alg.old }
    requires y_owned { A.flag_reach y ≤ A.extent alg.old }
    ensures later { IsLater A.Alg alg.old alg.new }
    ensures makes { IfOk result (λ r. record { flag = r; held = A.held alg.new } ≡ cr_logic_term A.ops op x y (A.held alg.old)) }
    ensures fails { OnErr result (IsTrue A.takes_memory) }
    ensures gives { IfOk result (λ r. GivesFlag A.Alg alg.new r (λ v. cr_logic op (A.truth x v) (A.truth y v))) }
{
    let not_y = alg.flip(y);
    match op {
        CrLogicOp::Crand => alg.both(x, y),
        CrLogicOp::Cror => alg.either(x, y),
        CrLogicOp::Crxor => alg.differ(x, y),
        CrLogicOp::Crandc => alg.both(x, not_y),
        CrLogicOp::Crorc => alg.either(x, not_y),
        CrLogicOp::Crnand => {
            let made = alg.both(x, y)?;
            Ok(alg.flip(made))
        }
        CrLogicOp::Crnor => {
            let made = alg.either(x, y)?;
            Ok(alg.flip(made))
        }
        CrLogicOp::Creqv => {
            let made = alg.differ(x, y)?;
            Ok(alg.flip(made))
        }
    }
}

/// What logic on two bits of CR gives (Power ISA Book I, "Condition Register Instructions"). Bit 0 is the highest.
pub fn cr_logic_row<A: Alg>(
    alg: &mut A,
    op: CrLogicOp,
    d: u8,
    a: u8,
    b: u8,
    from: &GuestIn<A>,
) -> Result<Effect<A>, NoMemory>
    requires d_within { d < 32 }
    requires a_within { a < 32 }
    requires b_within { b < 32 }
    requires owned { IsOwned A.word_reach (A.extent alg.old) from.now }
    ensures later { IsLater A.Alg alg.old alg.new }
    ensures makes { IfOk result (λ r. record { effect = r; held = A.held alg.new } ≡ cr_logic_row_term A.ops op d a b (A.held alg.old) from.now) }
    ensures fails { OnErr result (IsTrue A.takes_memory) }
    ensures gives { IfOk result (λ r. GivesEffect A.Alg alg.new r (λ v. cr_logics op d a b (values_of (λ w. A.word w v) from.now))) }
{
    let x = alg.bit(from.cr, 31 - a);
    let y = alg.bit(from.cr, 31 - b);
    let made = cr_bits(alg, op, x, y)?;
    let cr = alg.put_bit(from.cr, 31 - d, made);
    Ok(Effect {
        cr,
        ..unchanged(alg, from)
    })
}

/// What mcrf gives: one field of CR in the place of another (Power ISA Book I, "Condition Register Instructions").
pub fn move_field<A: Alg>(alg: &mut A, to: u8, field: u8, from: &GuestIn<A>) -> Effect<A>
    requires to_within { to < 8 }
    requires field_within { field < 8 }
    requires owned { IsOwned A.word_reach (A.extent alg.old) from.now }
    ensures same { alg.new ≡ alg.old }
    ensures made { result ≡ field_moved_term A.ops to field from.now }
    ensures owned { EffectOwned A.word_reach A.flag_reach (A.extent alg.new) result }
    ensures means { (v : ℕ → Bool) → effect_of (λ w. A.word w v) (λ b. A.truth b v) result ≡ moves_field to field (values_of (λ w. A.word w v) from.now) }
{
    let lt = alg.bit(from.cr, 31 - 4 * field);
    let gt = alg.bit(from.cr, 31 - (4 * field + 1));
    let eq = alg.bit(from.cr, 31 - (4 * field + 2));
    let so = alg.bit(from.cr, 31 - (4 * field + 3));
    let cr = put_field(alg, from.cr, to, lt, gt, eq, so);
    Effect {
        cr,
        ..unchanged(alg, from)
    }
}

/// What mfcr gives: CR in rD (Power ISA Book I, "Move To/From System Register Instructions").
pub fn read_cr<A: Alg>(alg: &mut A, from: &GuestIn<A>) -> Effect<A>
    requires owned { IsOwned A.word_reach (A.extent alg.old) from.now }
    ensures same { alg.new ≡ alg.old }
    ensures made { result ≡ cr_read_term A.ops from.now }
    ensures owned { EffectOwned A.word_reach A.flag_reach (A.extent alg.new) result }
    ensures means { (v : ℕ → Bool) → effect_of (λ w. A.word w v) (λ b. A.truth b v) result ≡ reads_cr (values_of (λ w. A.word w v) from.now) }
{
    Effect {
        d: from.cr,
        ..unchanged(alg, from)
    }
}
