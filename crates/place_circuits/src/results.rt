//! Where the results of ops go.

ghost use Rattle.std.specs.Prelude.{◌≡◌, ◌<◌, ◌≤◌, ℕ, Bool, length};
ghost use Rattle.circuit.specs.Prelude.{word_value, word_reach_below};
ghost use Rattle.place_circuits.specs.Places.{HoldsPlaces, PlacesOwned};
ghost use Rattle.place_circuits.specs.Sources.{AreBytes};
ghost use Rattle.place_circuits.specs.Results.{AreResults, with_lowest, with_bytes, put_values};
ghost use Rattle.place_circuits.specs.Terms.{replaced_term, bytes_put_term, results_term};

use crate::places::Places;
use crate::sources::Address;
use circuit::{Gates, Lit};
use word_kit::Alg;

/// Where an op's results go: to no place, to a place, to its lowest bytes, to the places of so many bytes one after another,
/// the lowest first, the result to one place and the second one to another, the second one alone, or to so many bytes from
/// an address on.
#[derive(Clone, Copy)]
pub enum Results {
    Nowhere,
    Into(u8),
    Lowest(u8, u8),
    Bytes(u8, u8),
    Both(u8, u8),
    High(u8),
    Store(Address, u8),
}

fn lowest_replaced(gates: &mut Gates, width: u8, x: [Lit; 32], old: [Lit; 32]) -> [Lit; 32]
    requires x_owned { word_reach_below 32 x ≤ length gates.old.nodes.keys }
    requires old_owned { word_reach_below 32 old ≤ length gates.old.nodes.keys }
    ensures same { gates.new ≡ gates.old }
    ensures makes { result ≡ replaced_term ⟦<Gates as Alg>⟧.ops width x old }
    ensures owned { word_reach_below 32 result ≤ length gates.new.nodes.keys }
    ensures means { (w : ℕ → Bool) (n m : ℕ) → word_value 32 x w ≡ n → word_value 32 old w ≡ m → word_value 32 result w ≡ with_lowest width n m }
{
    let b3 = gates.byte(old, 3);
    let b2 = gates.byte(old, 2);
    let b0 = gates.byte(x, 0);
    if width == 1 {
        let b1 = gates.byte(old, 1);
        gates.join(b3, b2, b1, b0)
    } else if width == 2 {
        let b1 = gates.byte(x, 1);
        gates.join(b3, b2, b1, b0)
    } else {
        x
    }
}

fn put_bytes(gates: &mut Gates, first: u8, width: u8, x: [Lit; 32], places: &mut Places)
    requires bytes { AreBytes first width }
    requires x_owned { word_reach_below 32 x ≤ length gates.old.nodes.keys }
    requires places_owned { PlacesOwned (length gates.old.nodes.keys) places.old }
    ensures same { gates.new ≡ gates.old }
    ensures makes { places.new ≡ bytes_put_term ⟦<Gates as Alg>⟧.ops first width x places.old }
    ensures owned { PlacesOwned (length gates.new.nodes.keys) places.new }
    ensures means { (w : ℕ → Bool) (t : ℕ → ℕ) (n : ℕ) → HoldsPlaces w places.old t → word_value 32 x w ≡ n → HoldsPlaces w places.new (with_bytes first width n t) }
{
    let b0 = gates.byte(x, 0);
    places.put(first, b0);
    if width == 1 {
        return;
    }
    let b1 = gates.byte(x, 1);
    places.put(first + 1, b1);
    if width == 2 {
        return;
    }
    let b2 = gates.byte(x, 2);
    places.put(first + 2, b2);
    let b3 = gates.byte(x, 3);
    places.put(first + 3, b3);
}

/// Puts an op's result and its second one.
pub fn put_results(
    gates: &mut Gates,
    results: Results,
    x: [Lit; 32],
    high: [Lit; 32],
    places: &mut Places,
)
    requires results { AreResults results }
    requires x_owned { word_reach_below 32 x ≤ length gates.old.nodes.keys }
    requires high_owned { word_reach_below 32 high ≤ length gates.old.nodes.keys }
    requires places_owned { PlacesOwned (length gates.old.nodes.keys) places.old }
    ensures same { gates.new ≡ gates.old }
    ensures makes { places.new ≡ results_term ⟦<Gates as Alg>⟧.ops results x high places.old }
    ensures owned { PlacesOwned (length gates.new.nodes.keys) places.new }
    ensures means { (w : ℕ → Bool) (t : ℕ → ℕ) (n m : ℕ) → HoldsPlaces w places.old t → word_value 32 x w ≡ n → word_value 32 high w ≡ m → HoldsPlaces w places.new (put_values results n m t) }
{
    match results {
        Results::Nowhere | Results::Store(..) => {}
        Results::Into(place) => places.put(place, x),
        Results::Lowest(place, width) => {
            let replaced = lowest_replaced(gates, width, x, places.words[place as usize]);
            places.put(place, replaced);
        }
        Results::Bytes(first, width) => put_bytes(gates, first, width, x, places),
        Results::Both(place, second) => {
            places.put(place, x);
            places.put(second, high);
        }
        Results::High(second) => places.put(second, high),
    }
}
