//! Words by place.

ghost use Rattle.std.specs.Prelude.{◌≡◌, ◌<◌, ◌≤◌, ℕ, Bool};
ghost use Rattle.circuit.specs.Prelude.{word_value, word_reach_below};
ghost use Rattle.place_circuits.specs.Places.{HoldsPlaces, PlacesOwned, with_place};
ghost use Rattle.place_circuits.specs.Terms.{put_term};

use circuit::Lit;

/// The words of 64 places.
#[derive(Clone, Copy)]
pub struct Places {
    pub words: [[Lit; 32]; 64],
}

impl Places {
    /// Puts a word at a place.
    pub fn put(&mut self, place: u8, x: [Lit; 32])
        requires within { place < 64 }
        ensures makes { self.new ≡ put_term place x self.old }
        ensures means { (w : ℕ → Bool) (t : ℕ → ℕ) (n : ℕ) → HoldsPlaces w self.old t → word_value 32 x w ≡ n → HoldsPlaces w self.new (with_place place n t) }
        ensures owned { (m : ℕ) → PlacesOwned m self.old → word_reach_below 32 x ≤ m → PlacesOwned m self.new }
    {
        self.words[place as usize] = x;
    }
}
