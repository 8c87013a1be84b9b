//! The numbers in a file, in the byte order of its machine.
ghost use Rattle.std.specs.Prelude.{◌≡◌, ◌+◌, ◌≤◌, length};
ghost use Rattle.elf_load.specs.Numbers.{half_at, word_at};

use byteorder::{BigEndian, ByteOrder, LittleEndian};
use space::Kind;

/// The number in the two bytes from the offset `at` on.
#[tactic(auto, unfolding(crate::specs::Numbers::half_at))]
pub fn half(bytes: &[u8], kind: Kind, at: usize) -> u16
    requires { at + 2 ≤ length bytes.now }
    ensures { result ≡ half_at kind bytes.now at }
{
    match kind {
        Kind::PowerPc => BigEndian::read_u16(&bytes[at..]),
        Kind::Ia32 => LittleEndian::read_u16(&bytes[at..]),
    }
}

/// The number in the four bytes from the offset `at` on.
#[tactic(auto, unfolding(crate::specs::Numbers::word_at))]
pub fn word(bytes: &[u8], kind: Kind, at: usize) -> u32
    requires { at + 4 ≤ length bytes.now }
    ensures { result ≡ word_at kind bytes.now at }
{
    match kind {
        Kind::PowerPc => BigEndian::read_u32(&bytes[at..]),
        Kind::Ia32 => LittleEndian::read_u32(&bytes[at..]),
    }
}
