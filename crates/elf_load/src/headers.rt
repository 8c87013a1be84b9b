//! The program headers of a file.
ghost use Rattle.std.specs.Prelude.{◌≡◌, ◌↔◌, ◌+◌, ◌*◌, ◌≤◌, ◌<◌, length, IsTrue};
ghost use Rattle.elf_load.specs.Headers.{header, header_count, table_offset, HasTable, is_load, is_segment, is_writable, is_executable, is_code, IsWordOf, SharesAddress};

use crate::numbers::{half, word};
use space::Kind;

/// A program header, as far as it says what is loaded.
#[derive(Clone, Copy)]
pub struct ProgramHeader {
    /// What it describes.
    pub segment_type: u32,
    /// Where the segment's bytes begin in the file.
    pub offset: u32,
    /// Where the segment begins in memory.
    pub vaddr: u32,
    /// How many bytes the segment has in the file.
    pub filesz: u32,
    /// How many bytes the segment has in memory.
    pub memsz: u32,
    /// Its rights.
    pub flags: u32,
}

const LOAD: u32 = 1;

const EXECUTE: u32 = 1;

const WRITE: u32 = 2;

impl ProgramHeader {
    pub fn is_load(&self) -> bool
        ensures { result ≡ is_load self.now }
    {
        self.segment_type == LOAD
    }

    /// Whether the header puts something into memory.
    pub fn is_segment(&self) -> bool
        ensures { result ≡ is_segment self.now }
    {
        self.is_load() && self.memsz > 0
    }

    pub fn is_writable(&self) -> bool
        ensures { result ≡ is_writable self.now }
    {
        self.flags & WRITE != 0
    }

    pub fn is_executable(&self) -> bool
        ensures { result ≡ is_executable self.now }
    {
        self.flags & EXECUTE != 0
    }

    pub fn is_code(&self) -> bool
        ensures { result ≡ is_code self.now }
    {
        self.is_segment() && self.is_executable() && !self.is_writable()
    }

    /// Whether an aligned word stands at `address`, all of whose bytes lie in the segment.
    pub fn has_word(&self, address: u32) -> bool
        ensures { IsTrue result ↔ IsWordOf self.now address }
    {
        let begin = u64::from(self.vaddr);
        let end = begin + u64::from(self.memsz);
        let at = u64::from(address);
        at % 4 == 0 && begin <= at && at + 4 <= end
    }

    /// Whether an address of the segment is one of the `size` addresses from `at` on.
    pub fn meets(&self, at: u32, size: u32) -> bool
        ensures { IsTrue result ↔ SharesAddress self.now.vaddr self.now.memsz at size }
    {
        share_address(self.vaddr, self.memsz, at, size)
    }
}

/// Whether one address is among the `first_size` from `first` on and the `second_size` from
/// `second` on.
pub fn share_address(first: u32, first_size: u32, second: u32, second_size: u32) -> bool
    ensures { IsTrue result ↔ SharesAddress first first_size second second_size }
{
    let first_end = u64::from(first) + u64::from(first_size);
    let second_end = u64::from(second) + u64::from(second_size);
    u64::from(first.max(second)) < first_end.min(second_end)
}

/// How many program headers the file has.
pub fn count_headers(bytes: &[u8], kind: Kind) -> usize
    requires { 52 ≤ length bytes.now }
    ensures value { result ≡ header_count kind bytes.now }
    ensures bound { result < 65536 }
{
    usize::from(half(bytes, kind, 44))
}

/// Where the table of program headers begins in the file.
pub fn find_table(bytes: &[u8], kind: Kind) -> usize
    requires { 52 ≤ length bytes.now }
    ensures value { result ≡ table_offset kind bytes.now }
    ensures bound { result < 4294967296 }
{
    word(bytes, kind, 28) as usize
}

/// The program header of this number.
#[tactic(auto, unfolding(crate::specs::Headers::header))]
pub fn read_header(bytes: &[u8], kind: Kind, number: usize) -> ProgramHeader
    requires table { HasTable kind bytes.now }
    requires within { number < header_count kind bytes.now }
    ensures { result ≡ header kind bytes.now number }
{
    let at = find_table(bytes, kind) + 32 * number;
    ProgramHeader {
        segment_type: word(bytes, kind, at),
        offset: word(bytes, kind, at + 4),
        vaddr: word(bytes, kind, at + 8),
        filesz: word(bytes, kind, at + 16),
        memsz: word(bytes, kind, at + 20),
        flags: word(bytes, kind, at + 24),
    }
}
