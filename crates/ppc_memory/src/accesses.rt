//! Accesses.

ghost use Rattle.std.specs.Prelude.{◌≡◌, ◌≤◌, ℕ, Bool, ◌^◌, ◌%◌, IfOk, OnErr, IsTrue};
ghost use Rattle.word_kit.specs.Algebra.{IsLater};
ghost use Rattle.ppc_isa.specs.AccessRows.{word_reversed, half_reversed, loads, stores, updates};
ghost use Rattle.ppc_parts.specs.Prelude.{IsOwned, values_of, GivesEffect};
ghost use Rattle.ppc_memory.specs.AccessTerms.{reversed_term, half_reversed_term, low_byte_term, low_half_term, load_term, store_term, update_term};

use ppc_parts::{Access, Effect, GuestIn, unchanged};
use word_kit::{Alg, NoMemory};

// The four bytes the other way round.
pub(crate) fn reversed<A: Alg>(alg: &mut A, x: A::W) -> A::W
    requires x_owned { A.word_reach x ≤ A.extent alg.old }
    ensures same { alg.new ≡ alg.old }
    ensures made { result ≡ reversed_term A.ops x }
    ensures owned { A.word_reach result ≤ A.extent alg.new }
    ensures means { (v : ℕ → Bool) → A.word result v ≡ word_reversed (A.word x v) }
{
    let b0 = alg.byte(x, 0);
    let b1 = alg.byte(x, 1);
    let b2 = alg.byte(x, 2);
    let b3 = alg.byte(x, 3);
    alg.join(b0, b1, b2, b3)
}

// The two low bytes the other way round.
pub(crate) fn half_reversed<A: Alg>(alg: &mut A, x: A::W) -> A::W
    requires x_owned { A.word_reach x ≤ A.extent alg.old }
    ensures same { alg.new ≡ alg.old }
    ensures made { result ≡ half_reversed_term A.ops x }
    ensures owned { A.word_reach result ≤ A.extent alg.new }
    ensures means { (v : ℕ → Bool) → A.word result v ≡ half_reversed (A.word x v) }
{
    let zero = alg.lit(0);
    let b0 = alg.byte(x, 0);
    let b1 = alg.byte(x, 1);
    alg.join(zero, zero, b0, b1)
}

// The low byte.
pub(crate) fn low_byte<A: Alg>(alg: &mut A, x: A::W) -> A::W
    requires x_owned { A.word_reach x ≤ A.extent alg.old }
    ensures same { alg.new ≡ alg.old }
    ensures made { result ≡ low_byte_term A.ops x }
    ensures owned { A.word_reach result ≤ A.extent alg.new }
    ensures means { (v : ℕ → Bool) → A.word result v ≡ (A.word x v) % 2 ^ 8 }
{
    let zero = alg.lit(0);
    let b0 = alg.byte(x, 0);
    alg.join(zero, zero, zero, b0)
}

// The two low bytes.
pub(crate) fn low_half<A: Alg>(alg: &mut A, x: A::W) -> A::W
    requires x_owned { A.word_reach x ≤ A.extent alg.old }
    ensures same { alg.new ≡ alg.old }
    ensures made { result ≡ low_half_term A.ops x }
    ensures owned { A.word_reach result ≤ A.extent alg.new }
    ensures means { (v : ℕ → Bool) → A.word result v ≡ (A.word x v) % 2 ^ 16 }
{
    let zero = alg.lit(0);
    let b0 = alg.byte(x, 0);
    let b1 = alg.byte(x, 1);
    alg.join(zero, zero, b1, b0)
}

// A number loaded from an address, and what rD gets.
pub(crate) fn load<A: Alg>(
    alg: &mut A,
    width: u8,
    base: A::W,
    number: A::W,
    from: &GuestIn<A>,
) -> Result<Effect<A>, NoMemory>
    requires base_owned { A.word_reach base ≤ A.extent alg.old }
    requires number_owned { A.word_reach number ≤ A.extent alg.old }
    requires owned { IsOwned A.word_reach (A.extent alg.old) from.now }
    ensures later { IsLater A.Alg alg.old alg.new }
    ensures makes { IfOk result (λ r. record { effect = r; held = A.held alg.new } ≡ load_term A.ops width base number (A.held alg.old) from.now) }
    ensures fails { OnErr result (IsTrue A.takes_memory) }
    ensures gives { IfOk result (λ r. GivesEffect A.Alg alg.new r (λ v. loads width (A.word base v) (A.word number v) (values_of (λ w. A.word w v) from.now))) }
{
    let none = alg.flag(false);
    let (address, _) = alg.add(base, from.b, none)?;
    Ok(Effect {
        d: number,
        address,
        width,
        kind: Access::Load,
        ..unchanged(alg, from)
    })
}

// A number stored at an address.
pub(crate) fn store<A: Alg>(
    alg: &mut A,
    width: u8,
    base: A::W,
    number: A::W,
    from: &GuestIn<A>,
) -> Result<Effect<A>, NoMemory>
    requires base_owned { A.word_reach base ≤ A.extent alg.old }
    requires number_owned { A.word_reach number ≤ A.extent alg.old }
    requires owned { IsOwned A.word_reach (A.extent alg.old) from.now }
    ensures later { IsLater A.Alg alg.old alg.new }
    ensures makes { IfOk result (λ r. record { effect = r; held = A.held alg.new } ≡ store_term A.ops width base number (A.held alg.old) from.now) }
    ensures fails { OnErr result (IsTrue A.takes_memory) }
    ensures gives { IfOk result (λ r. GivesEffect A.Alg alg.new r (λ v. stores width (A.word base v) (A.word number v) (values_of (λ w. A.word w v) from.now))) }
{
    let none = alg.flag(false);
    let (address, _) = alg.add(base, from.b, none)?;
    Ok(Effect {
        address,
        stored: number,
        width,
        kind: Access::Store,
        ..unchanged(alg, from)
    })
}

// A load with update.
pub(crate) fn load_update<A: Alg>(
    alg: &mut A,
    width: u8,
    number: A::W,
    from: &GuestIn<A>,
) -> Result<Effect<A>, NoMemory>
    requires number_owned { A.word_reach number ≤ A.extent alg.old }
    requires owned { IsOwned A.word_reach (A.extent alg.old) from.now }
    ensures later { IsLater A.Alg alg.old alg.new }
    ensures makes { IfOk result (λ r. record { effect = r; held = A.held alg.new } ≡ update_term A.ops (load_term A.ops width from.now.a number (A.held alg.old) from.now)) }
    ensures fails { OnErr result (IsTrue A.takes_memory) }
    ensures gives { IfOk result (λ r. GivesEffect A.Alg alg.new r (λ v. updates (loads width (values_of (λ w. A.word w v) from.now).a (A.word number v) (values_of (λ w. A.word w v) from.now)))) }
{
    let made = load(alg, width, from.a, number, from)?;
    let a = made.address;
    Ok(Effect { a, ..made })
}

// A store with update.
pub(crate) fn store_update<A: Alg>(
    alg: &mut A,
    width: u8,
    number: A::W,
    from: &GuestIn<A>,
) -> Result<Effect<A>, NoMemory>
    requires number_owned { A.word_reach number ≤ A.extent alg.old }
    requires owned { IsOwned A.word_reach (A.extent alg.old) from.now }
    ensures later { IsLater A.Alg alg.old alg.new }
    ensures makes { IfOk result (λ r. record { effect = r; held = A.held alg.new } ≡ update_term A.ops (store_term A.ops width from.now.a number (A.held alg.old) from.now)) }
    ensures fails { OnErr result (IsTrue A.takes_memory) }
    ensures gives { IfOk result (λ r. GivesEffect A.Alg alg.new r (λ v. updates (stores width (values_of (λ w. A.word w v) from.now).a (A.word number v) (values_of (λ w. A.word w v) from.now)))) }
{
    let made = store(alg, width, from.a, number, from)?;
    let a = made.address;
    Ok(Effect { a, ..made })
}
