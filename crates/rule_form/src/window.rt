//! Goals whose lines are read one by one.

ghost use Rattle.std.specs.Prelude.{◌≡◌, ◌⊎◌, ◌↔◌, ◌<◌, ◌≤◌, ◌^◌, ◌+◌, ◌++◌, ◌∷◌, [], ℕ, IsTrue, IsBitSet, MatchOption, take, slice_set};
ghost use Rattle.rule_body.specs.Prelude.{has_access as access, IsBranching, IsPlaced, IsTemplate, named as named_of, guests_of, template_of, IsTidy, IsGoal};
ghost use Rattle.rule_form.specs.Machine.{IsFront};
ghost use Rattle.rule_form.specs.Partial.{IsPartial, AccessAt, WrittenAt};
ghost use Rattle.rule_form.specs.Slots.{AreSlots};

use crate::fields::Slots;
use crate::rows::{has_access, may_stand, parameters_after};
use ppc_isa::{Instr, decode, writes};
use rule_body::{DeadSet, Goal, Guest, guest_at, is_ending_word, last_guest, slot_count};

// Whether the word at a place loads or stores.
fn accesses_at(goal: &Goal, place: u8) -> bool
    requires { goal.now.count ≤ 3 }
    ensures { IsTrue result ↔ AccessAt (guests_of goal.now) place }
{
    let Some(guest) = guest_at(goal, place) else {
        return false;
    };
    let Some(instr) = decode(guest.word) else {
        return false;
    };
    has_access(&instr)
}

// Whether a word of the window loads or stores.
fn accesses(goal: &Goal) -> bool
    requires { goal.now.count ≤ 3 }
    ensures { IsTrue result ↔ (AccessAt (guests_of goal.now) 0 ⊎ (AccessAt (guests_of goal.now) 1 ⊎ AccessAt (guests_of goal.now) 2)) }
{
    accesses_at(goal, 0) || accesses_at(goal, 1) || accesses_at(goal, 2)
}

// Whether an instruction would be the second that loads or stores.
fn is_second(goal: &Goal, instr: &Instr) -> bool
    requires { goal.now.count ≤ 3 }
    ensures { IsTrue result ↔ (IsTrue (access instr.now) × (AccessAt (guests_of goal.now) 0 ⊎ (AccessAt (guests_of goal.now) 1 ⊎ AccessAt (guests_of goal.now) 2))) }
{
    has_access(instr) && accesses(goal)
}

// Whether the window ends in a branch so far.
fn is_ended(goal: &Goal) -> bool
    requires { goal.now.count ≤ 3 }
    ensures { IsTrue result ↔ IsBranching (guests_of goal.now) }
{
    goal.count > 0 && is_ending_word(last_guest(goal).word)
}

// The goal with a word more.
fn appended(goal: Goal, guest: Guest, parameters: u8) -> Goal
    requires room { goal.count < 3 }
    ensures guests { guests_of result ≡ guests_of goal ++ guest ∷ [] }
    ensures count { result.count ≡ goal.count + 1 }
    ensures parameters { result.parameters ≡ parameters }
    ensures words { result.words ≡ slice_set goal.words goal.count guest.word }
    ensures free { result.free ≡ slice_set goal.free goal.count guest.free }
{
    let place = goal.count as usize;
    let mut further = goal;
    further.words[place] = guest.word;
    further.free[place] = guest.free;
    further.count += 1;
    further.parameters = parameters;
    further
}

/// The goal with a word more, if a window may begin so.
pub fn with_guest(goal: Goal, guest: Guest) -> Option<Goal>
    requires { IsPartial goal }
    ensures { MatchOption result
        (IsFront (guests_of goal ++ guest ∷ []) → ⊥)
        (λ g. IsPartial g × (guests_of g ≡ guests_of goal ++ guest ∷ [])) }
{
    if goal.count >= 3 {
        return None;
    }
    if is_ended(&goal) {
        return None;
    }
    let Some(instr) = decode(guest.word) else {
        return None;
    };
    if !may_stand(guest.free, &instr) {
        return None;
    }
    if is_second(&goal, &instr) {
        return None;
    }
    let Some(parameters) = parameters_after(goal.parameters, &instr) else {
        return None;
    };
    Some(appended(goal, guest, parameters))
}

/// The goal with these places of its parameters, if it may have them.
pub fn with_slots(goal: Goal, slots: Slots) -> Option<Goal>
    requires goal { IsPartial goal }
    requires slots { AreSlots slots }
    ensures { MatchOption result
        (IsPlaced (guests_of goal) (take slots.count slots.slots) → ⊥)
        (λ g. IsTidy g × IsPlaced (guests_of goal) (take slots.count slots.slots) × (guests_of g ≡ guests_of goal) × (take g.parameters g.slots ≡ take slots.count slots.slots)) }
{
    if goal.count == 0 {
        return None;
    }
    if slots.count != goal.parameters {
        return None;
    }
    if slot_count(&slots.slots[..slots.count as usize]) > 3 {
        return None;
    }
    Some(Goal {
        slots: slots.slots,
        ..goal
    })
}

fn has_bit(bits: u64, place: u8) -> bool
    requires { place < 64 }
    ensures { IsTrue result ↔ IsBitSet bits place }
{
    bits >> place & 1 == 1
}

// Whether the word at a place writes a location.
fn writes_at(goal: &Goal, place: u8, location: u8) -> bool
    requires count { goal.now.count ≤ 3 }
    requires location { location < 46 }
    ensures { IsTrue result ↔ WrittenAt (guests_of goal.now) place location }
{
    let Some(guest) = guest_at(goal, place) else {
        return false;
    };
    let Some(instr) = decode(guest.word) else {
        return false;
    };
    has_bit(writes(&instr).bits, location)
}

// Whether a word of the window writes a location.
fn is_written(goal: &Goal, location: u8) -> bool
    requires count { goal.now.count ≤ 3 }
    requires location { location < 46 }
    ensures { IsTrue result ↔ (WrittenAt (guests_of goal.now) 0 location ⊎ (WrittenAt (guests_of goal.now) 1 location ⊎ WrittenAt (guests_of goal.now) 2 location)) }
{
    writes_at(goal, 0, location) || writes_at(goal, 1, location) || writes_at(goal, 2, location)
}

fn named(name: u8) -> u8
    requires { name < 20 }
    ensures location { result ≡ named_of name }
    ensures below { result < 46 }
{
    if name < 6 { name + 1 } else { name + 26 }
}

// Whether a name is not dead, or its location is written.
fn is_settled(goal: &Goal, dead: u32, name: u8) -> bool
    requires count { goal.now.count ≤ 3 }
    requires name { name < 20 }
    ensures { IsTrue result ↔ (IsBitSet dead name
        → WrittenAt (guests_of goal.now) 0 (named_of name) ⊎ (WrittenAt (guests_of goal.now) 1 (named_of name) ⊎ WrittenAt (guests_of goal.now) 2 (named_of name))) }
{
    if has_bit(dead as u64, name) {
        is_written(goal, named(name))
    } else {
        true
    }
}

// Whether the window writes each location with a dead name.
fn are_written(goal: &Goal, dead: u32) -> bool
    requires { goal.now.count ≤ 3 }
    ensures { IsTrue result ↔ ((k : ℕ) → k < 20 → IsBitSet dead k
        → WrittenAt (guests_of goal.now) 0 (named_of k) ⊎ (WrittenAt (guests_of goal.now) 1 (named_of k) ⊎ WrittenAt (guests_of goal.now) 2 (named_of k))) }
{
    for name in 0..20 {
        if !is_settled(goal, dead, name) {
            return false;
        }
    }
    true
}

/// The goal with these dead names, if its window writes their locations.
pub fn with_dead(goal: Goal, dead: u32) -> Option<Goal>
    requires tidy { IsTidy goal }
    requires placed { IsPlaced (template_of goal).guests (template_of goal).slots }
    requires dead { dead < 2 ^ 20 }
    ensures { MatchOption result
        (IsTemplate (record { guests = (template_of goal).guests; slots = (template_of goal).slots; dead = dead }) → ⊥)
        (λ g. IsGoal g × (template_of g ≡ record { guests = (template_of goal).guests; slots = (template_of goal).slots; dead = dead })) }
{
    if are_written(&goal, dead) {
        Some(Goal {
            dead: DeadSet { bits: dead },
            ..goal
        })
    } else {
        None
    }
}
