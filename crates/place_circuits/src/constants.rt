//! Numbers that are written, or filled with a constant.

ghost use Rattle.std.specs.Prelude.{◌≡◌, ◌%◌, ◌^◌, ◌<◌, ◌≤◌, ℕ, Bool, IfOk, length};
ghost use Rattle.circuit.specs.Prelude.{word_value, word_reach_below, AllAgree, IsLater};
ghost use Rattle.place_circuits.specs.Places.{HoldsPlaces, PlacesOwned};
ghost use Rattle.rule_body.specs.Prelude.{hole_value};
ghost use Rattle.place_circuits.specs.Numbers.{IsNumber, number_value};
ghost use Rattle.place_circuits.specs.Terms.{filled_term, number_term};

use crate::places::Places;
use circuit::{Gates, Lit};
use ppc_parts::extended_half;
use rule_body::Hole;
use word_kit::{Alg, NoMemory};

/// A number of a row or an op: the one that is written, or the one with which the constant at a place fills it.
#[derive(Clone, Copy)]
pub enum Number {
    Written(u32),
    Filled(Hole, u8),
}

/// The number with which the lowest 16 bits of a word fill a hole.
pub fn filled(gates: &mut Gates, hole: Hole, c: [Lit; 32]) -> Result<[Lit; 32], NoMemory>
    requires c_owned { word_reach_below 32 c ≤ length gates.old.nodes.keys }
    ensures later { IsLater gates.old.nodes.keys gates.new.nodes.keys }
    ensures makes { IfOk result (λ r. record { word = r; held = gates.new.nodes.keys } ≡ filled_term ⟦<Gates as Alg>⟧.ops hole c gates.old.nodes.keys) }
    ensures owned { IfOk result (λ r. word_reach_below 32 r ≤ length gates.new.nodes.keys) }
    ensures means { IfOk result (λ r. (w : ℕ → Bool) (n : ℕ) → AllAgree gates.new.nodes.keys w → word_value 32 c w ≡ n → word_value 32 r w ≡ hole_value hole (n % 2 ^ 16)) }
{
    match hole {
        Hole::S => extended_half(gates, c),
        Hole::Z => {
            let zero = gates.lit(0);
            let b1 = gates.byte(c, 1);
            let b0 = gates.byte(c, 0);
            Ok(gates.join(zero, zero, b1, b0))
        }
        Hole::H => {
            let zero = gates.lit(0);
            let b1 = gates.byte(c, 1);
            let b0 = gates.byte(c, 0);
            Ok(gates.join(b1, b0, zero, zero))
        }
        Hole::N => {
            let extended = extended_half(gates, c)?;
            let zero = gates.lit(0);
            let turned = gates.not(extended);
            let yes = gates.flag(true);
            let (negated, _) = gates.add(zero, turned, yes)?;
            Ok(negated)
        }
    }
}

/// The word of a number.
pub fn read_number(
    gates: &mut Gates,
    number: Number,
    places: &Places,
) -> Result<[Lit; 32], NoMemory>
    requires number { IsNumber number }
    requires places_owned { PlacesOwned (length gates.old.nodes.keys) places.now }
    ensures later { IsLater gates.old.nodes.keys gates.new.nodes.keys }
    ensures makes { IfOk result (λ r. record { word = r; held = gates.new.nodes.keys } ≡ number_term ⟦<Gates as Alg>⟧.ops number places.now gates.old.nodes.keys) }
    ensures owned { IfOk result (λ r. word_reach_below 32 r ≤ length gates.new.nodes.keys) }
    ensures means { IfOk result (λ r. (w : ℕ → Bool) (t : ℕ → ℕ) → AllAgree gates.new.nodes.keys w → HoldsPlaces w places.now t → word_value 32 r w ≡ number_value number t) }
{
    match number {
        Number::Written(n) => Ok(gates.lit(n)),
        Number::Filled(hole, place) => filled(gates, hole, places.words[place as usize]),
    }
}
