//! What rows share: fields of CR, recording forms, and effects that change little.

ghost use Rattle.std.specs.Prelude.{◌≡◌, ◌<◌, ◌≤◌, ℕ, Bool, IfOk, OnOk, OnErr, IsTrue};
ghost use Rattle.ppc_isa.specs.Effect.{unchanged};
ghost use Rattle.ppc_isa.specs.Recording.{with_field, compared, recorded, gives_d, gives_a};
ghost use Rattle.word_kit.specs.Prelude.{GivesWord};
ghost use Rattle.word_kit.specs.Algebra.{IsLater};
ghost use Rattle.ppc_parts.specs.Meanings.{IsOwned, values_of, EffectOwned, effect_of, GivesEffect};
ghost use Rattle.ppc_parts.specs.RecordingTerms.{field_term, compared_term, recorded_term, unchanged_term, gives_d_term, gives_a_term};

use crate::given::{Access, Effect, GuestIn};
use word_kit::{Alg, NoMemory};

/// CR with the four bits of a field replaced by `lt`, `gt`, `eq` and `so`, from its highest bit down (Power ISA Book I,
/// "Condition Register"). Field 0 is the highest.
pub fn put_field<A: Alg>(
    alg: &mut A,
    cr: A::W,
    field: u8,
    lt: A::B,
    gt: A::B,
    eq: A::B,
    so: A::B,
) -> A::W
    requires within { field < 8 }
    requires cr_owned { A.word_reach cr ≤ A.extent alg.old }
    requires lt_owned { A.flag_reach lt ≤ A.extent alg.old }
    requires gt_owned { A.flag_reach gt ≤ A.extent alg.old }
    requires eq_owned { A.flag_reach eq ≤ A.extent alg.old }
    requires so_owned { A.flag_reach so ≤ A.extent alg.old }
    ensures same { alg.new ≡ alg.old }
    ensures made { result ≡ field_term A.ops cr field lt gt eq so }
    ensures owned { A.word_reach result ≤ A.extent alg.new }
    ensures means { (v : ℕ → Bool) → A.word result v ≡ with_field (A.word cr v) field (A.truth lt v) (A.truth gt v) (A.truth eq v) (A.truth so v) }
{
    let with_lt = alg.put_bit(cr, 31 - 4 * field, lt);
    let with_gt = alg.put_bit(with_lt, 31 - (4 * field + 1), gt);
    let with_eq = alg.put_bit(with_gt, 31 - (4 * field + 2), eq);
    alg.put_bit(with_eq, 31 - (4 * field + 3), so)
}

/// CR after `x` is compared with `y` into a field: less, greater, equal, and SO as XER has it (Power ISA Book I,
/// "Fixed-Point Compare Instructions"). Words are read as signed numbers where `signed` says so.
pub fn compare<A: Alg>(
    alg: &mut A,
    signed: bool,
    field: u8,
    x: A::W,
    y: A::W,
    from: &GuestIn<A>,
) -> Result<A::W, NoMemory>
    requires within { field < 8 }
    requires x_owned { A.word_reach x ≤ A.extent alg.old }
    requires y_owned { A.word_reach y ≤ A.extent alg.old }
    requires owned { IsOwned A.word_reach (A.extent alg.old) from.now }
    ensures later { IsLater A.Alg alg.old alg.new }
    ensures makes { IfOk result (λ r. record { word = r; held = A.held alg.new } ≡ compared_term A.ops signed field x y (A.held alg.old) from.now) }
    ensures fails { OnErr result (IsTrue A.takes_memory) }
    ensures gives { IfOk result (λ r. GivesWord A.Alg alg.new r (λ v. compared signed field (A.word x v) (A.word y v) (values_of (λ w. A.word w v) from.now))) }
{
    let lt = alg.less(x, y, signed)?;
    let gt = alg.less(y, x, signed)?;
    let eq = alg.equal(x, y)?;
    let so = alg.bit(from.xer, 31);
    Ok(put_field(alg, from.cr, field, lt, gt, eq, so))
}

// CR after a form that may record its result.
pub(crate) fn record_if<A: Alg>(
    alg: &mut A,
    records: bool,
    value: A::W,
    from: &GuestIn<A>,
) -> Result<A::W, NoMemory>
    requires value_owned { A.word_reach value ≤ A.extent alg.old }
    requires owned { IsOwned A.word_reach (A.extent alg.old) from.now }
    ensures later { IsLater A.Alg alg.old alg.new }
    ensures makes { IfOk result (λ r. record { word = r; held = A.held alg.new } ≡ recorded_term A.ops records value (A.held alg.old) from.now) }
    ensures fails { OnErr result (IsTrue A.takes_memory) }
    ensures gives { IfOk result (λ r. GivesWord A.Alg alg.new r (λ v. recorded records (A.word value v) (values_of (λ w. A.word w v) from.now))) }
{
    if records {
        let zero = alg.lit(0);
        compare(alg, true, 0, value, zero, from)
    } else {
        Ok(from.cr)
    }
}

/// The effect that changes nothing: registers as they are, no access, nothing taken.
pub fn unchanged<A: Alg>(alg: &mut A, from: &GuestIn<A>) -> Effect<A>
    requires owned { IsOwned A.word_reach (A.extent alg.old) from.now }
    ensures same { alg.new ≡ alg.old }
    ensures made { result ≡ unchanged_term A.ops from.now }
    ensures owned { EffectOwned A.word_reach A.flag_reach (A.extent alg.new) result }
    ensures means { (v : ℕ → Bool) → effect_of (λ w. A.word w v) (λ b. A.truth b v) result ≡ unchanged (values_of (λ w. A.word w v) from.now) }
{
    let zero = alg.lit(0);
    Effect {
        d: from.s,
        a: from.a,
        cr: from.cr,
        xer: from.xer,
        lr: from.lr,
        ctr: from.ctr,
        address: zero,
        stored: zero,
        width: 0,
        kind: Access::None,
        taken: alg.flag(false),
    }
}

/// The effect that puts `value` into rD and, in a recording form, its signs and SO into field 0 of CR (Power ISA Book I,
/// "Other Fixed-Point Instructions").
pub fn gives_d<A: Alg>(
    alg: &mut A,
    records: bool,
    value: A::W,
    from: &GuestIn<A>,
) -> Result<Effect<A>, NoMemory>
    requires value_owned { A.word_reach value ≤ A.extent alg.old }
    requires owned { IsOwned A.word_reach (A.extent alg.old) from.now }
    ensures later { IsLater A.Alg alg.old alg.new }
    ensures makes { IfOk result (λ r. record { effect = r; held = A.held alg.new } ≡ gives_d_term A.ops records value (A.held alg.old) from.now) }
    ensures fails { OnErr result (IsTrue A.takes_memory) }
    ensures gives { IfOk result (λ r. GivesEffect A.Alg alg.new r (λ v. gives_d records (A.word value v) (values_of (λ w. A.word w v) from.now))) }
{
    let cr = record_if(alg, records, value, from)?;
    Ok(Effect {
        d: value,
        cr,
        ..unchanged(alg, from)
    })
}

/// The effect that puts `value` into rA and, in a recording form, its signs and SO into field 0 of CR.
pub fn gives_a<A: Alg>(
    alg: &mut A,
    records: bool,
    value: A::W,
    from: &GuestIn<A>,
) -> Result<Effect<A>, NoMemory>
    requires value_owned { A.word_reach value ≤ A.extent alg.old }
    requires owned { IsOwned A.word_reach (A.extent alg.old) from.now }
    ensures later { IsLater A.Alg alg.old alg.new }
    ensures makes { IfOk result (λ r. record { effect = r; held = A.held alg.new } ≡ gives_a_term A.ops records value (A.held alg.old) from.now) }
    ensures fails { OnErr result (IsTrue A.takes_memory) }
    ensures gives { IfOk result (λ r. GivesEffect A.Alg alg.new r (λ v. gives_a records (A.word value v) (values_of (λ w. A.word w v) from.now))) }
{
    let cr = record_if(alg, records, value, from)?;
    Ok(Effect {
        a: value,
        cr,
        ..unchanged(alg, from)
    })
}
