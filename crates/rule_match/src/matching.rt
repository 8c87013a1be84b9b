//! Where a rule matches.

ghost use Rattle.std.specs.Prelude.{◌≡◌, ◌≢◌, ◌↔◌, ◌≤◌, ◌<◌, ℕ, IsTrue, IfSome, IfNone, [], length, slice_index_or, true};
ghost use Rattle.machines.specs.Prelude.{IsMap};
ghost use Rattle.rule_body.specs.Prelude.{IsGoal};
ghost use Rattle.rule_soundness.specs.Prelude.{Match, is_dead_name, location_named as location_for};
ghost use Rattle.rule_soundness.specs.Laid.{Matches};
ghost use Rattle.rule_match.specs.Bindings.{match_of, gpr_of as gpr_for};
ghost use Rattle.rule_match.specs.Matching.{is_in, AreGprs, IsBindingAt};

use crate::binding::Binding;
use crate::placing::gpr_of;
use crate::reading::gprs_at;
use crate::slots::slot_numbers;
use crate::words::words_fit;
use ppc_isa::{Locs, Map, one_instruction};
use rule_body::{Goal, Rule};

// Whether there are GPRs for the parameters, and none past these.
fn gprs_fit(parameters: u8, gprs: &[u8; 6]) -> bool
    ensures { IsTrue result ↔ AreGprs parameters gprs.now }
{
    for place in 0..6 {
        if gprs[place] >= 32 || place >= parameters as usize && gprs[place] != 0 {
            return false;
        }
    }
    true
}

// Whether the GPR at a place is none of those before it.
fn is_new(gprs: &[u8], place: usize) -> bool
    requires { place < length gprs.now }
    ensures { IsTrue result ↔ ((k : ℕ) → k < place → slice_index_or gprs.now k 0 ≢ slice_index_or gprs.now place 0) }
{
    for before in 0..place {
        if gprs[before] == gprs[place] {
            return false;
        }
    }
    true
}

// Whether no two of the GPRs are the same.
fn are_apart(gprs: &[u8]) -> bool
    ensures { IsTrue result ↔ ((j k : ℕ) → j < k → k < length gprs.now → slice_index_or gprs.now j 0 ≢ slice_index_or gprs.now k 0) }
{
    for place in 0..gprs.len() {
        if !is_new(gprs, place) {
            return false;
        }
    }
    true
}

// The location of a name of what may be dead.
fn location_named(binding: &Binding, name: u8) -> u8
    requires { name < 20 }
    ensures { result ≡ location_for (match_of [] binding.now) name }
{
    if name < 6 {
        gpr_of(binding, name as u32 + 1)
    } else {
        name + 26
    }
}

// Whether each location with a dead name is dead.
fn are_dead(goal: &Goal, binding: &Binding, dead: &Locs) -> bool
    requires { (p : ℕ) → gpr_for binding.now p < 32 }
    ensures { IsTrue result ↔ ((k : ℕ) → k < 20 → is_dead_name goal.now k ≡ true → is_in dead.now (location_for (match_of [] binding.now) k) ≡ true) }
{
    for name in 0..20 {
        let named = goal.dead.bits & 1 << name != 0;
        if named && (dead.bits >> location_named(binding, name)) % 2 == 0 {
            return false;
        }
    }
    true
}

// How long the arrays of a goal are, told where they are read.
fn goal_lengths(goal: &Goal)
    ensures { (length goal.now.words ≡ 3) × (length goal.now.free ≡ 3) × (length goal.now.slots ≡ 6) }
{
    let _word = goal.words[0];
    let _free = goal.free[0];
    let _slot = goal.slots[0];
}

/// Whether a rule matches at the words of a window under a map, with the parameters as the binding has them, where the locations
/// of the set are dead behind the window.
pub fn is_match_at(rule: &Rule, window: &[u32], map: &Map, dead: &Locs, binding: &Binding) -> bool
    requires goal { IsGoal rule.now.goal }
    requires map { IsMap map.now }
    ensures { IsTrue result ↔ IsBindingAt rule.now window.now map.now dead.now binding.now }
{
    one_instruction();
    let goal = &rule.goal;
    goal_lengths(goal);
    if window.len() != goal.count as usize {
        return false;
    }
    if !gprs_fit(goal.parameters, &binding.gpr) {
        return false;
    }
    let parameters = goal.parameters as usize;
    if !are_apart(&binding.gpr[..parameters]) {
        return false;
    }
    let Some(slot) = slot_numbers(&goal.slots[..parameters], map, &binding.gpr) else {
        return false;
    };
    if slot != binding.slot {
        return false;
    }
    words_fit(binding, goal, window) && are_dead(goal, binding, dead)
}

/// The binding under which a rule matches at the words of a window under a map, where the locations of the set are dead behind
/// the window: the window is that of the rule, with different GPRs in the place of parameters, none of them GPR 0 in a
/// place where 0 names the number 0, and with any constant or target in a word that is free; each parameter stands in a
/// slot or at home as the rule has it; and each dead name is dead. A branch stands last, as it does in a block. None
/// where the rule matches in no way.
pub fn match_at(rule: &Rule, window: &[u32], map: &Map, dead: &Locs) -> Option<Binding>
    requires goal { IsGoal rule.now.goal }
    requires map { IsMap map.now }
    ensures found { IfSome result (λ b. IsBindingAt rule.now window.now map.now dead.now b) }
    ensures only { (b : Binding) → IsBindingAt rule.now window.now map.now dead.now b → result ≡ Some b }
    ensures none { IfNone result ((m : Match) → Matches rule.now window.now map.now (is_in dead.now) m → ⊥) }
{
    one_instruction();
    let goal = &rule.goal;
    goal_lengths(goal);
    if window.len() != goal.count as usize {
        return None;
    }
    let gpr = gprs_at(goal, window);
    let slot = slot_numbers(&goal.slots[..goal.parameters as usize], map, &gpr)?;
    let binding = Binding { gpr, slot };
    if is_match_at(rule, window, map, dead, &binding) {
        Some(binding)
    } else {
        None
    }
}
