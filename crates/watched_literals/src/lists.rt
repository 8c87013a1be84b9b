//! The clauses that watch a literal.
ghost use Rattle.std.specs.Prelude.{◌≡◌, ◌++◌, ◌∷◌, [], IfSome, IfNone, OnOk, option_to_list};

use std::alloc::Global;
use std::marker::Model;
use word_kit::NoMemory;

/// Places of clauses, in no order that matters. Contracts see the list of them.
#[derive(Drop)]
pub struct WatchList {
    places: Vec<usize>,
}

impl Model for WatchList {
    ghost use Rattle.std.specs.Prelude.{List, ℕ};

    ghost Value = { List ℕ };

    ghost view = { λ r. r.places.items };
}

impl WatchList {
    pub fn new(alloc: Global) -> WatchList
        ensures { result ≡ [] }
    {
        WatchList {
            places: Vec::new(alloc),
        }
    }

    pub fn push(&mut self, place: usize) -> Result<(), NoMemory>
        ensures { OnOk result (self.new ≡ self.old ++ place ∷ []) }
    {
        self.places.push(place)?;
        Ok(())
    }

    pub fn pop(&mut self) -> Option<usize>
        ensures items { self.old ≡ self.new ++ option_to_list result }
        ensures empty { IfNone result (self.old ≡ []) }
    {
        self.places.pop()
    }

    /// Moves the places of the other row behind these.
    pub fn append(&mut self, other: &mut WatchList) -> Result<(), NoMemory>
        ensures items { OnOk result (self.new ≡ self.old ++ other.old) }
        ensures other { OnOk result (other.new ≡ []) }
    {
        self.places.append(&mut other.places)?;
        Ok(())
    }
}
