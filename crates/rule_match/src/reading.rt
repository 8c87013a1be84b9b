//! The GPRs of parameters, as they stand in the words of a window.

ghost use Rattle.std.specs.Prelude.{◌≡◌, ◌≤◌, ◌<◌, ◌+◌, ℕ, List, length, slice_index_or, if◌then◌else◌, nat_lt};
ghost use Rattle.machines.specs.Prelude.{Instr, IsWordOf};
ghost use Rattle.rule_body.specs.Prelude.{IsGoal, guests_of, AreGuests};
ghost use Rattle.rule_soundness.specs.Prelude.{AreWordsOf};
ghost use Rattle.rule_match.specs.Matching.{register_in as register_for, register_read};

use crate::fields::register_in;
use ppc_isa::decode;
use rule_body::Goal;

// What stands in the first field of a word in which the word of a rule has the number.
fn register_at(rule_word: u32, word: u32, number: u8) -> Option<u8>
    ensures { (i found : Instr) → IsWordOf rule_word i → IsWordOf word found → result ≡ register_for i found number }
{
    let instr = decode(rule_word)?;
    let found = decode(word)?;
    register_in(&instr, &found, number)
}

// The GPR that stands in the first field of a window in which the rule has a parameter, by its number.
fn gpr_at(goal: &Goal, window: &[u32], number: u8) -> u8
    requires goal { IsGoal goal.now }
    requires length { length window.now ≡ goal.now.count }
    ensures { (words found : List Instr) → AreGuests (guests_of goal.now) words → AreWordsOf window.now found → result ≡ register_read words found number }
{
    for place in 0..window.len() {
        if let Some(register) = register_at(goal.words[place], window[place], number) {
            return register;
        }
    }
    0
}

/// The GPRs that stand in a window in the place of a rule's parameters; 0 past these.
pub fn gprs_at(goal: &Goal, window: &[u32]) -> [u8; 6]
    requires goal { IsGoal goal.now }
    requires length { length window.now ≡ goal.now.count }
    ensures read { (words found : List Instr) → AreGuests (guests_of goal.now) words → AreWordsOf window.now found →
        (k : ℕ) → k < goal.now.parameters → slice_index_or result k 0 ≡ register_read words found (k + 1) }
    ensures past { (k : ℕ) → goal.now.parameters ≤ k → slice_index_or result k 0 ≡ 0 }
{
    let mut gprs = [0; 6];
    for place in 0..goal.parameters {
        gprs[place as usize] = gpr_at(goal, window, place + 1);
    }
    gprs
}
