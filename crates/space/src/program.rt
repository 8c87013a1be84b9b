//! A program as its file lays it out: segments, where it starts and which of them is code.
ghost use Rattle.std.specs.Prelude.{◌≡◌, ◌<◌, length, slice_set};

use std::marker::Model;

/// The machine that a program is for.
#[derive(Clone, Copy, Debug, PartialEq, Eq)]
pub enum Kind {
    PowerPc,
    Ia32,
}

/// The bytes of a segment. Contracts see the list of them.
#[derive(Drop)]
pub struct Bytes {
    bytes: Vec<u8>,
}

impl Model for Bytes {
    ghost use Rattle.std.specs.Prelude.{List, ℕ};

    ghost Value = { List ℕ };

    ghost view = { λ b. b.bytes.items };
}

impl From<Vec<u8>> for Bytes {
    ghost from_gives = { λ vec bytes. bytes ≡ vec.items };

    /// Takes no memory.
    fn from(bytes: Vec<u8>) -> Bytes {
        Bytes { bytes }
    }
}

impl Bytes {
    pub fn as_slice(&self) -> &[u8]
        ensures { result.now ≡ self.now }
    {
        self.bytes.as_slice()
    }

    pub(crate) fn set(&mut self, place: usize, byte: u8)
        requires { place < length self.old }
        ensures { self.new ≡ slice_set self.old place byte }
    {
        self.bytes[place] = byte;
    }

    /// Takes no memory.
    pub fn into_vec(self) -> Vec<u8>
        ensures { result.items ≡ self }
    {
        self.bytes
    }
}

/// What a program has in memory from the address `at` on. Every segment may be read.
#[derive(Drop)]
pub struct Segment {
    pub at: u32,
    pub write: bool,
    pub exec: bool,
    pub bytes: Bytes,
}

/// The segments of a program, in the order of its headers. Contracts see the list of them.
#[derive(Drop)]
pub struct Segments {
    items: Vec<Segment>,
}

impl Model for Segments {
    ghost use Rattle.std.specs.Prelude.{List};
    ghost use Rattle.space.specs.declared.program.Segment.{Segment};

    ghost Value = { List Segment };

    ghost view = { λ s. s.items.items };
}

impl From<Vec<Segment>> for Segments {
    ghost from_gives = { λ vec segments. segments ≡ vec.items };

    /// Takes no memory.
    fn from(items: Vec<Segment>) -> Segments {
        Segments { items }
    }
}

impl Segments {
    pub fn as_slice(&self) -> &[Segment]
        ensures { result.now ≡ self.now }
    {
        self.items.as_slice()
    }

    /// Takes no memory.
    pub fn into_vec(self) -> Vec<Segment>
        ensures { result.items ≡ self }
    {
        self.items
    }
}

/// A program before its first step.
#[derive(Drop)]
pub struct Program {
    pub kind: Kind,
    /// The address of the first instruction.
    pub entry: u32,
    pub segments: Segments,
    /// The place of the code segment in `segments`.
    pub code: usize,
}
