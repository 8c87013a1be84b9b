//! Sets of locations, one for each code word.
ghost use Rattle.std.specs.Prelude.{◌≡◌, ◌<◌, length, slice_index};

use ppc_isa::Locs;
use std::marker::Model;

/// For each code word of a program the locations that are live before it. Contracts see the address of
/// the first code word and the list of the sets' bits.
#[derive(Drop)]
pub struct LiveSets {
    first: u32,
    bits: Vec<u64>,
}

impl Model for LiveSets {
    ghost use Rattle.liveness.specs.Live.{Sets};

    ghost Value = { Sets };

    ghost view = { λ s. record { first = s.first; bits = s.bits.items } };
}

impl LiveSets {
    /// Takes no memory.
    pub(crate) fn new(first: u32, bits: Vec<u64>) -> LiveSets
        ensures first { result.first ≡ first }
        ensures bits { result.bits ≡ bits.items }
    {
        LiveSets { first, bits }
    }

    /// The locations that are live before the code word at a place, counted from 0.
    pub fn at(&self, word: usize) -> Locs
        requires { word < length self.now.bits }
        ensures { result.bits ≡ slice_index self.now.bits word }
    {
        Locs {
            bits: self.bits[word],
        }
    }

    /// The address of the first code word.
    pub fn first(&self) -> u32
        ensures { result ≡ self.now.first }
    {
        self.first
    }

    /// The number of code words.
    pub fn len(&self) -> usize
        ensures { result ≡ length self.now.bits }
    {
        self.bits.len()
    }
}
