//! The inputs of a rule.

ghost use Rattle.std.specs.Prelude.{◌≡◌, ◌↔◌, ◌≤◌, ◌<◌, ℕ, IsTrue, slice_index_or};
ghost use Rattle.std.specs.List.{All};
ghost use Rattle.place_circuits.specs.Fields.{IsField};
ghost use Rattle.window_circuits.specs.Starts.{AreWidths};
ghost use Rattle.rule_body.specs.Prelude.{IsGoal, guests_of};
ghost use Rattle.rule_body.specs.Templates.{HasConstant};
ghost use Rattle.rule_places.specs.Inputs.{HasBits, home_fields};

use place_circuits::Field;
use rule_body::{Goal, Guest, guest_at, is_ending_word};

/// Whether word j of a window has an immediate that stands for every value.
pub fn has_constant(goal: &Goal, j: u8) -> bool
    requires { IsGoal goal.now }
    ensures { IsTrue result ↔ HasConstant (guests_of goal.now) j }
{
    match guest_at(goal, j) {
        Some(Guest { word, free: true }) => !is_ending_word(word),
        _ => false,
    }
}

// How many bits of inputs a place has, where the window loads so many bytes.
fn bits(goal: &Goal, loaded: u8, place: u8) -> u8
    requires goal { IsGoal goal.now }
    requires loaded { loaded ≤ 4 }
    ensures bits { HasBits goal.now loaded place result }
    ensures most { result ≤ 32 }
{
    match place {
        0..=5 => { if place < goal.parameters { 32 } else { 0 } }
        7 => 7,
        6 | 11..=15 => 32,
        8..=10 | 16..=19 => 1,
        20..=22 => {
            if has_constant(goal, place - 20) {
                16
            } else {
                0
            }
        }
        _ => { if place < 23 + loaded { 8 } else { 0 } }
    }
}

/// How many bits of each place are inputs of a rule, where its window loads so many bytes.
pub fn widths(goal: &Goal, loaded: u8) -> [u8; 64]
    requires goal { IsGoal goal.now }
    requires loaded { loaded ≤ 4 }
    ensures bits { (k : ℕ) → k < 64 → HasBits goal.now loaded k (slice_index_or result k 0) }
    ensures most { AreWidths result }
{
    let mut widths = [0; 64];
    for place in 0..64 {
        widths[place] = bits(goal, loaded, place as u8);
    }
    widths
}

fn field(place: u8, low: u8, count: u8) -> Field
    ensures { result ≡ record { place = place; low = low; count = count } }
{
    Field { place, low, count }
}

/// The bits of inputs that the home page's bytes from 128 on hold: LR and CTR with the lowest byte first, each CR field, then CA,
/// SO, OV and XC.
pub fn homes() -> [Field; 20]
    ensures exact { result ≡ home_fields }
    ensures fields { All IsField result }
{
    [
        field(11, 0, 8),
        field(11, 8, 8),
        field(11, 16, 8),
        field(11, 24, 8),
        field(12, 0, 8),
        field(12, 8, 8),
        field(12, 16, 8),
        field(12, 24, 8),
        field(6, 28, 4),
        field(6, 24, 4),
        field(6, 20, 4),
        field(6, 16, 4),
        field(6, 12, 4),
        field(6, 8, 4),
        field(6, 4, 4),
        field(6, 0, 4),
        field(8, 0, 1),
        field(10, 0, 1),
        field(9, 0, 1),
        field(7, 0, 7),
    ]
}
