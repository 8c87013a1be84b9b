//! Where the parts of a written file stand.

ghost use Rattle.std.specs.Prelude.{◌≡◌, ◌≢◌, ◌≤◌, ◌<◌, ◌+◌, ◌*◌, ◌^◌, ℕ, MatchOption, length};
ghost use Rattle.block_find.specs.Prelude.{address_of as address};
ghost use Rattle.code_layout.specs.Places.{entry_of};

/// Where the code and what it reads stand on the host.
#[derive(Clone, Copy)]
pub struct Layout<'a> {
    /// The address of the home page.
    pub area: u32,
    /// The address of the code's first op, which is `hold`.
    pub code: u32,
    /// The address of the table.
    pub table: u32,
    /// The address of the guest's first code word.
    pub first: u32,
    /// The address of each code word's block.
    pub entries: &'a [u32],
    ghost few: { length entries.now ≤ 131072 },
    ghost room: { first + 4 * length entries.now ≤ 2 ^ 32 },
    ghost page: { area + 4096 ≤ 2 ^ 32 },
}

impl Layout<'_> {
    /// Where an edge to a guest address leads: to the block there, and outside the code to `hold`.
    pub fn target(&self, address: u32) -> u32
        ensures { result ≡ entry_of self.now.first self.now.entries.now self.now.code address }
    {
        match place_at(self.first, address, self.entries.len()) {
            Some(place) => self.entries[place],
            None => self.code,
        }
    }
}

/// The place of the code word at the address `at`, where one of `count` from `first` on stands there.
pub fn place_at(first: u32, at: u32, count: usize) -> Option<usize>
    requires few { count ≤ 131072 }
    requires room { first + 4 * count ≤ 2 ^ 32 }
    ensures { MatchOption result ((k : ℕ) → k < count → at ≢ address first k) (λ k. (k < count) × (at ≡ address first k)) }
{
    let offset = at.wrapping_sub(first);
    let place = (offset / 4) as usize;
    if offset % 4 == 0 && place < count {
        Some(place)
    } else {
        None
    }
}
