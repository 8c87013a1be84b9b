//! Branches.

ghost use Rattle.std.specs.Prelude.{◌≡◌, ℕ, Bool, false, ◌≤◌, ◌^◌, ◌-◌, IfOk, OnErr, IsTrue, cond, eqb, ◌<◌};
ghost use Rattle.word_kit.specs.Prelude.{GivesWord, GivesFlag, sum_word, same};
ghost use Rattle.word_kit.specs.Algebra.{IsLater};
ghost use Rattle.ppc_isa.specs.BranchRows.{bo_bit, count_allows, condition_allows, branch_on};
ghost use Rattle.ppc_parts.specs.Prelude.{IsOwned, EffectOwned, values_of, effect_of, GivesEffect};
ghost use Rattle.ppc_flow.specs.BranchTerms.{jump_term, fallen_term, counted_term, same_term, zero_term, count_term, condition_term, branch_term};
ghost use Rattle.ppc_flow.specs.Meant.{jumps};

use ppc_parts::{Effect, GuestIn, unchanged};
use word_kit::{Alg, NoMemory};

/// What b gives: a branch that is always taken (Power ISA Book I, "Branch Instructions").
pub fn jump<A: Alg>(alg: &mut A, from: &GuestIn<A>) -> Effect<A>
    requires owned { IsOwned A.word_reach (A.extent alg.old) from.now }
    ensures same { alg.new ≡ alg.old }
    ensures made { result ≡ jump_term A.ops from.now }
    ensures owned { EffectOwned A.word_reach A.flag_reach (A.extent alg.new) result }
    ensures means { (v : ℕ → Bool) → effect_of (λ w. A.word w v) (λ b. A.truth b v) result ≡ jumps (values_of (λ w. A.word w v) from.now) }
{
    let taken = alg.flag(true);
    Effect {
        taken,
        ..unchanged(alg, from)
    }
}

// CTR less 1.
pub(crate) fn fallen<A: Alg>(alg: &mut A, ctr: A::W) -> Result<A::W, NoMemory>
    requires ctr_owned { A.word_reach ctr ≤ A.extent alg.old }
    ensures later { IsLater A.Alg alg.old alg.new }
    ensures makes { IfOk result (λ r. record { word = r; held = A.held alg.new } ≡ fallen_term A.ops ctr (A.held alg.old)) }
    ensures fails { OnErr result (IsTrue A.takes_memory) }
    ensures gives { IfOk result (λ r. GivesWord A.Alg alg.new r (λ v. sum_word (A.word ctr v) (2 ^ 32 - 1) false)) }
{
    let minus_one = alg.lit(u32::MAX);
    let none = alg.flag(false);
    let (fallen, _) = alg.add(ctr, minus_one, none)?;
    Ok(fallen)
}

// CTR after a branch.
pub(crate) fn counted<A: Alg>(alg: &mut A, bo: u8, ctr: A::W) -> Result<A::W, NoMemory>
    requires ctr_owned { A.word_reach ctr ≤ A.extent alg.old }
    ensures later { IsLater A.Alg alg.old alg.new }
    ensures makes { IfOk result (λ r. record { word = r; held = A.held alg.new } ≡ counted_term A.ops bo ctr (A.held alg.old)) }
    ensures fails { OnErr result (IsTrue A.takes_memory) }
    ensures gives { IfOk result (λ r. GivesWord A.Alg alg.new r (λ v. cond (bo_bit bo 2) (A.word ctr v) (sum_word (A.word ctr v) (2 ^ 32 - 1) false))) }
{
    if bo / 4 % 2 == 1 {
        Ok(ctr)
    } else {
        fallen(alg, ctr)
    }
}

// Whether a flag is the wanted one.
pub(crate) fn as_wanted<A: Alg>(alg: &mut A, want: bool, b: A::B) -> A::B
    requires b_owned { A.flag_reach b ≤ A.extent alg.old }
    ensures same { alg.new ≡ alg.old }
    ensures made { result ≡ same_term A.ops want b }
    ensures owned { A.flag_reach result ≤ A.extent alg.new }
    ensures means { (v : ℕ → Bool) → A.truth result v ≡ same want (A.truth b v) }
{
    if want { b } else { alg.flip(b) }
}

// Whether it is wanted that CTR is 0, and it is, or neither.
pub(crate) fn is_zero<A: Alg>(alg: &mut A, want: bool, ctr: A::W) -> Result<A::B, NoMemory>
    requires ctr_owned { A.word_reach ctr ≤ A.extent alg.old }
    ensures later { IsLater A.Alg alg.old alg.new }
    ensures makes { IfOk result (λ r. record { flag = r; held = A.held alg.new } ≡ zero_term A.ops want ctr (A.held alg.old)) }
    ensures fails { OnErr result (IsTrue A.takes_memory) }
    ensures gives { IfOk result (λ r. GivesFlag A.Alg alg.new r (λ v. same want (eqb (A.word ctr v) 0))) }
{
    let zero = alg.lit(0);
    let is_zero = alg.equal(ctr, zero)?;
    Ok(as_wanted(alg, want, is_zero))
}

// Whether the count lets the branch be taken.
pub(crate) fn count_holds<A: Alg>(alg: &mut A, bo: u8, ctr: A::W) -> Result<A::B, NoMemory>
    requires ctr_owned { A.word_reach ctr ≤ A.extent alg.old }
    ensures later { IsLater A.Alg alg.old alg.new }
    ensures makes { IfOk result (λ r. record { flag = r; held = A.held alg.new } ≡ count_term A.ops bo ctr (A.held alg.old)) }
    ensures fails { OnErr result (IsTrue A.takes_memory) }
    ensures gives { IfOk result (λ r. GivesFlag A.Alg alg.new r (λ v. count_allows bo (A.word ctr v))) }
{
    if bo / 4 % 2 == 1 {
        Ok(alg.flag(true))
    } else {
        is_zero(alg, bo / 2 % 2 == 1, ctr)
    }
}

// Whether the bit of CR lets the branch be taken.
pub(crate) fn condition_holds<A: Alg>(alg: &mut A, bo: u8, b: A::B) -> A::B
    requires b_owned { A.flag_reach b ≤ A.extent alg.old }
    ensures same { alg.new ≡ alg.old }
    ensures made { result ≡ condition_term A.ops bo b }
    ensures owned { A.flag_reach result ≤ A.extent alg.new }
    ensures means { (v : ℕ → Bool) → A.truth result v ≡ condition_allows bo (A.truth b v) }
{
    if bo / 16 % 2 == 1 {
        alg.flag(true)
    } else {
        as_wanted(alg, bo / 8 % 2 == 1, b)
    }
}

/// What a conditional branch gives: CTR, one less where `bo` counts, and whether the branch is taken (Power ISA Book I,
/// "Branch Instructions"). `bi` is the bit of CR, 0 the highest.
pub fn branch<A: Alg>(alg: &mut A, bo: u8, bi: u8, from: &GuestIn<A>) -> Result<Effect<A>, NoMemory>
    requires bi_within { bi < 32 }
    requires owned { IsOwned A.word_reach (A.extent alg.old) from.now }
    ensures later { IsLater A.Alg alg.old alg.new }
    ensures makes { IfOk result (λ r. record { effect = r; held = A.held alg.new } ≡ branch_term A.ops bo bi (A.held alg.old) from.now) }
    ensures fails { OnErr result (IsTrue A.takes_memory) }
    ensures gives { IfOk result (λ r. GivesEffect A.Alg alg.new r (λ v. branch_on bo bi (values_of (λ w. A.word w v) from.now))) }
{
    let ctr = counted(alg, bo, from.ctr)?;
    let counts = count_holds(alg, bo, ctr)?;
    let bit = alg.bit(from.cr, 31 - bi);
    let condition = condition_holds(alg, bo, bit);
    let taken = alg.both(counts, condition)?;
    Ok(Effect {
        ctr,
        taken,
        ..unchanged(alg, from)
    })
}
