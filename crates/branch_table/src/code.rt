//! The code of a translation.
ghost use Rattle.std.specs.Prelude.{◌≡◌};

use std::marker::Model;

/// The bytes of a translation's code. Contracts see the list of them.
#[derive(Drop)]
pub struct CodeBytes {
    bytes: Vec<u8>,
}

impl Model for CodeBytes {
    ghost use Rattle.std.specs.Prelude.{List, ℕ};

    ghost Value = { List ℕ };

    ghost view = { λ c. c.bytes.items };
}

impl From<Vec<u8>> for CodeBytes {
    ghost from_gives = { λ vec bytes. bytes ≡ vec.items };

    /// Takes no memory.
    fn from(bytes: Vec<u8>) -> CodeBytes {
        CodeBytes { bytes }
    }
}

impl CodeBytes {
    pub fn as_slice(&self) -> &[u8]
        ensures { result.now ≡ self.now }
    {
        self.bytes.as_slice()
    }

    /// Takes no memory.
    pub fn into_vec(self) -> Vec<u8>
        ensures { result.items ≡ self }
    {
        self.bytes
    }
}

/// The host address of the code of each code word of the guest, in their order. Contracts see the
/// list of them.
#[derive(Drop)]
pub struct Entries {
    addresses: Vec<u32>,
}

impl Model for Entries {
    ghost use Rattle.std.specs.Prelude.{List, ℕ};

    ghost Value = { List ℕ };

    ghost view = { λ e. e.addresses.items };
}

impl From<Vec<u32>> for Entries {
    ghost from_gives = { λ vec entries. entries ≡ vec.items };

    /// Takes no memory.
    fn from(addresses: Vec<u32>) -> Entries {
        Entries { addresses }
    }
}

impl Entries {
    pub fn as_slice(&self) -> &[u32]
        ensures { result.now ≡ self.now }
    {
        self.addresses.as_slice()
    }

    /// Takes no memory.
    pub fn into_vec(self) -> Vec<u32>
        ensures { result.items ≡ self }
    {
        self.addresses
    }
}

/// A translation's code, and where it begins for each code word of the guest.
#[derive(Drop)]
pub struct Code {
    /// The bytes of the code segment.
    pub bytes: CodeBytes,
    /// The branch table's words: for each code word of the guest the host address of its code.
    pub entries: Entries,
    /// The table's word of the guest's first instruction.
    pub start: u32,
}
