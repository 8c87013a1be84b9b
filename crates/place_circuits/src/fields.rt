//! Bits of places.

ghost use Rattle.std.specs.Prelude.{◌≡◌, ◌≤◌, ℕ, Bool, IfOk, length};
ghost use Rattle.circuit.specs.Prelude.{word_value, word_reach_below, AllAgree, IsLater};
ghost use Rattle.place_circuits.specs.Places.{HoldsPlaces, PlacesOwned};
ghost use Rattle.place_circuits.specs.Fields.{IsField, field_value};
ghost use Rattle.place_circuits.specs.Terms.{field_term};

use crate::places::Places;
use circuit::{Gates, Lit};
use word_kit::{Alg, NoMemory};

/// So many bits of a place's word, from the one with exponent `low` on.
#[derive(Clone, Copy)]
pub struct Field {
    pub place: u8,
    pub low: u8,
    pub count: u8,
}

/// The word that bits of a place are. It takes no gate: the bits above are shifted out to the left, and those below to the
/// right.
pub fn read_field(gates: &mut Gates, field: Field, places: &Places) -> Result<[Lit; 32], NoMemory>
    requires field { IsField field }
    requires places_owned { PlacesOwned (length gates.old.nodes.keys) places.now }
    ensures later { IsLater gates.old.nodes.keys gates.new.nodes.keys }
    ensures makes { IfOk result (λ r. record { word = r; held = gates.new.nodes.keys } ≡ field_term ⟦<Gates as Alg>⟧.ops field places.now gates.old.nodes.keys) }
    ensures owned { IfOk result (λ r. word_reach_below 32 r ≤ length gates.new.nodes.keys) }
    ensures means { IfOk result (λ r. (w : ℕ → Bool) (t : ℕ → ℕ) → AllAgree gates.new.nodes.keys w → HoldsPlaces w places.now t → word_value 32 r w ≡ field_value field t) }
{
    let up = gates.lit(32 - field.low as u32 - field.count as u32);
    let down = gates.lit(32 - field.count as u32);
    let raised = gates.shift_left(places.words[field.place as usize], up)?;
    let lowered = gates.shift_right(raised, down)?;
    Ok(lowered)
}
