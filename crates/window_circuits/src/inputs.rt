//! Inputs by place.

ghost use Rattle.std.specs.Prelude.{◌≡◌, ◌≤◌, ◌<◌, ◌+◌, [], ℕ, Bool, IfOk, OnOk, length, slice_index_or};
ghost use Rattle.circuit.specs.Prelude.{IsLater};
ghost use Rattle.chosen_inputs.specs.Choices.{CanChoose};
ghost use Rattle.chosen_inputs.specs.Inputs.{with_inputs, word_of_inputs};
ghost use Rattle.place_circuits.specs.Places.{HoldsPlaces, PlacesOwned};
ghost use Rattle.window_circuits.specs.Starts.{AreWidths, AreWithin, bits_before};
ghost use Rattle.window_circuits.specs.Terms.{inputs_term};

use chosen_inputs::input_word;
use circuit::Gates;
use place_circuits::Places;
use word_kit::{Alg, NoMemory};

/// Places of new inputs, so many bits of each, the lowest bit first and place after place, with zeros above them. All numbers of
/// so many bits can be chosen for them.
pub fn input_places(gates: &mut Gates, widths: [u8; 64]) -> Result<Places, NoMemory>
    requires widths { AreWidths widths }
    ensures later { IsLater gates.old.nodes.keys gates.new.nodes.keys }
    ensures makes { IfOk result (λ r. record { places = r; held = gates.new.nodes.keys } ≡ inputs_term widths gates.old.nodes.keys) }
    ensures owned { IfOk result (λ r. PlacesOwned (length gates.new.nodes.keys) r) }
    ensures made { IfOk result (λ r. (k : ℕ) → k < 64 → slice_index_or r.words k [] ≡ word_of_inputs (length gates.old.nodes.keys + bits_before k widths) (slice_index_or widths k 0)) }
    ensures held { OnOk result (gates.new.nodes.keys ≡ with_inputs (bits_before 64 widths) gates.old.nodes.keys) }
    ensures chosen { IfOk result (λ r. (t : ℕ → ℕ) → AreWithin widths t → CanChoose gates.old.nodes.keys gates.new.nodes.keys (λ w. HoldsPlaces w r t)) }
{
    let zero = gates.lit(0);
    let mut words = [zero; 64];
    for i in 0..64 {
        let word = input_word(gates, widths[i] as usize)?;
        words[i] = word;
    }
    Ok(Places { words })
}
