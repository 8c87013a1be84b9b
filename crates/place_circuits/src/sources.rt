//! What rows and ops read.

ghost use Rattle.std.specs.Prelude.{◌≡◌, ◌<◌, ◌≤◌, ◌+◌, ℕ, Bool, IfOk, length};
ghost use Rattle.circuit.specs.Prelude.{word_value, word_reach_below, AllAgree, IsLater};
ghost use Rattle.row_runs.specs.Accesses.{little_number, cut};
ghost use Rattle.place_circuits.specs.Places.{HoldsPlaces, PlacesOwned};
ghost use Rattle.place_circuits.specs.Sources.{IsIndex, IsAddress, AreBytes, IsSource, indexed, address_value, source_value};
ghost use Rattle.place_circuits.specs.Terms.{indexed_term, address_term, lowest_term, joined_term, source_term};

use crate::constants::{Number, read_number};
use crate::places::Places;
use access_circuits::{bytes_of, little_word};
use circuit::{Gates, Lit};
use word_kit::{Alg, NoMemory};

/// A place's word, the word of another place shifted to the left by 0 to 3 bits, and a displacement, as a sum.
#[derive(Clone, Copy)]
pub struct Address {
    pub base: u8,
    pub index: Option<(u8, u8)>,
    pub displacement: Number,
}

/// What a row or an op reads: 0, a place's word, its lowest bytes, the bytes at so many places one after another, the lowest
/// first, a number of its own, or an address.
#[derive(Clone, Copy)]
pub enum Source {
    Zero,
    Place(u8),
    Lowest(u8, u8),
    Bytes(u8, u8),
    Own(Number),
    Sum(Address),
}

fn index_sum(
    gates: &mut Gates,
    base: u8,
    index: Option<(u8, u8)>,
    places: &Places,
) -> Result<[Lit; 32], NoMemory>
    requires base { base < 64 }
    requires index { IsIndex index }
    requires places_owned { PlacesOwned (length gates.old.nodes.keys) places.now }
    ensures later { IsLater gates.old.nodes.keys gates.new.nodes.keys }
    ensures makes { IfOk result (λ r. record { word = r; held = gates.new.nodes.keys } ≡ indexed_term ⟦<Gates as Alg>⟧.ops base index places.now gates.old.nodes.keys) }
    ensures owned { IfOk result (λ r. word_reach_below 32 r ≤ length gates.new.nodes.keys) }
    ensures means { IfOk result (λ r. (w : ℕ → Bool) (t : ℕ → ℕ) → AllAgree gates.new.nodes.keys w → HoldsPlaces w places.now t → word_value 32 r w ≡ indexed base index t) }
{
    let from = places.words[base as usize];
    match index {
        None => Ok(from),
        Some((place, shift)) => {
            let count = gates.lit(shift as u32);
            let shifted = gates.shift_left(places.words[place as usize], count)?;
            let no = gates.flag(false);
            let (sum, _) = gates.add(from, shifted, no)?;
            Ok(sum)
        }
    }
}

/// The word of an address.
pub fn read_address(
    gates: &mut Gates,
    address: &Address,
    places: &Places,
) -> Result<[Lit; 32], NoMemory>
    requires address { IsAddress address.now }
    requires places_owned { PlacesOwned (length gates.old.nodes.keys) places.now }
    ensures later { IsLater gates.old.nodes.keys gates.new.nodes.keys }
    ensures makes { IfOk result (λ r. record { word = r; held = gates.new.nodes.keys } ≡ address_term ⟦<Gates as Alg>⟧.ops address.now places.now gates.old.nodes.keys) }
    ensures owned { IfOk result (λ r. word_reach_below 32 r ≤ length gates.new.nodes.keys) }
    ensures means { IfOk result (λ r. (w : ℕ → Bool) (t : ℕ → ℕ) → AllAgree gates.new.nodes.keys w → HoldsPlaces w places.now t → word_value 32 r w ≡ address_value address.now t) }
{
    let displacement = read_number(gates, address.displacement, places)?;
    let from = index_sum(gates, address.base, address.index, places)?;
    let no = gates.flag(false);
    let (sum, _) = gates.add(from, displacement, no)?;
    Ok(sum)
}

/// The number that the lowest 4, 2 or else 1 bytes of a word are.
pub fn lowest(gates: &mut Gates, x: [Lit; 32], width: u8) -> [Lit; 32]
    requires x_owned { word_reach_below 32 x ≤ length gates.old.nodes.keys }
    ensures same { gates.new ≡ gates.old }
    ensures makes { result ≡ lowest_term ⟦<Gates as Alg>⟧.ops x width }
    ensures owned { word_reach_below 32 result ≤ length gates.new.nodes.keys }
    ensures means { (w : ℕ → Bool) (n : ℕ) → word_value 32 x w ≡ n → word_value 32 result w ≡ cut width n }
{
    let bytes = bytes_of(gates, x);
    little_word(gates, bytes, width)
}

// The bytes at places one after another, the lowest first.
fn joined_bytes(gates: &mut Gates, first: u8, width: u8, places: &Places) -> [Lit; 32]
    requires bytes { AreBytes first width }
    requires places_owned { PlacesOwned (length gates.old.nodes.keys) places.now }
    ensures same { gates.new ≡ gates.old }
    ensures makes { result ≡ joined_term ⟦<Gates as Alg>⟧.ops first width places.now }
    ensures owned { word_reach_below 32 result ≤ length gates.new.nodes.keys }
    ensures means { (w : ℕ → Bool) (t : ℕ → ℕ) → HoldsPlaces w places.now t → word_value 32 result w ≡ little_number width (λ k. t (first + k)) }
{
    let zero = gates.lit(0);
    let b0 = places.words[first as usize];
    if width == 1 {
        return gates.join(zero, zero, zero, b0);
    }
    let b1 = places.words[first as usize + 1];
    if width == 2 {
        return gates.join(zero, zero, b1, b0);
    }
    let b2 = places.words[first as usize + 2];
    let b3 = places.words[first as usize + 3];
    gates.join(b3, b2, b1, b0)
}

/// The word of a source.
pub fn read_source(
    gates: &mut Gates,
    source: Source,
    places: &Places,
) -> Result<[Lit; 32], NoMemory>
    requires source { IsSource source }
    requires places_owned { PlacesOwned (length gates.old.nodes.keys) places.now }
    ensures later { IsLater gates.old.nodes.keys gates.new.nodes.keys }
    ensures makes { IfOk result (λ r. record { word = r; held = gates.new.nodes.keys } ≡ source_term ⟦<Gates as Alg>⟧.ops source places.now gates.old.nodes.keys) }
    ensures owned { IfOk result (λ r. word_reach_below 32 r ≤ length gates.new.nodes.keys) }
    ensures means { IfOk result (λ r. (w : ℕ → Bool) (t : ℕ → ℕ) → AllAgree gates.new.nodes.keys w → HoldsPlaces w places.now t → word_value 32 r w ≡ source_value source t) }
{
    match source {
        Source::Zero => Ok(gates.lit(0)),
        Source::Place(place) => Ok(places.words[place as usize]),
        Source::Lowest(place, width) => Ok(lowest(gates, places.words[place as usize], width)),
        Source::Bytes(first, width) => Ok(joined_bytes(gates, first, width, places)),
        Source::Own(own) => read_number(gates, own, places),
        Source::Sum(sum) => read_address(gates, &sum, places),
    }
}
