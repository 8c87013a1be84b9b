//! The aligned words of a program's code segment, which may begin at any address and have any length.
ghost use Rattle.std.specs.Prelude.{◌≡◌, ◌+◌, ◌*◌, ◌%◌, ◌<◌, ◌≤◌, ℕ, true, IfOk, List, Some, drop, length, take};
ghost use Rattle.machines.specs.Prelude.{PowerPc, code_in, code_of, is_code_word};
ghost use Rattle.byteorder.specs.Endian.{IsRead, big_number};
ghost use Rattle.elf_load.specs.Prelude.{IsProgramOf};
ghost use Rattle.code_words.specs.Words.{HasWords, first_of};

use byteorder::{BigEndian, ByteOrder};
use space::{Program, Segment};
use std::alloc::Global;
use word_kit::NoMemory;

/// The segment whose bytes are run.
fn code_segment(program: &Program) -> &Segment
    requires { (bytes : List ℕ) × IsProgramOf PowerPc bytes program.now }
    ensures code { code_of program.now ≡ code_in (Some result.now) }
    ensures low { result.now.at + length result.now.bytes ≤ 0xC0000000 }
    ensures short { length result.now.bytes ≤ 0x80000 }
    ensures entry { is_code_word (code_of program.now) program.now.entry ≡ true }
{
    &program.segments.as_slice()[program.code]
}

/// The address of the first code word: the least multiple of 4 that isn't below the address of the
/// code segment.
pub fn first(program: &Program) -> u32
    requires { (bytes : List ℕ) × IsProgramOf PowerPc bytes program.now }
    ensures { result ≡ first_of program.now }
{
    code_segment(program).at.next_multiple_of(4)
}

/// The bytes from a place on, as far as they are whole words.
fn whole_words(bytes: &[u8], place: usize) -> &[u8]
    requires { place ≤ length bytes.now }
    ensures words { length result.now % 4 ≡ 0 }
    ensures inside { place + length result.now ≤ length bytes.now }
    ensures all { length bytes.now < place + length result.now + 4 }
    ensures bytes { result.now ≡ take (length result.now) (drop place bytes.now) }
{
    let size = (bytes.len() - place) / 4 * 4;
    &bytes[place..place + size]
}

/// The words of four bytes each, the highest byte first.
fn read_words(alloc: Global, bytes: &[u8]) -> Result<Vec<u32>, NoMemory>
    requires { length bytes.now % 4 ≡ 0 }
    ensures count { IfOk result (λ words. 4 * length words.items ≡ length bytes.now) }
    ensures each { IfOk result (λ words. IsRead big_number 4 bytes.now words.items) }
{
    let mut words = vec![in alloc; 0; bytes.len() / 4]?;
    BigEndian::read_u32_into(bytes, &mut words);
    Ok(words)
}

/// The code words of a program in order, the highest byte first: the aligned words all of whose bytes
/// lie in the code segment (Power ISA Book I, "Instruction Fetches"). There are from 1 to 131072 of
/// them, and they stand one behind another from `first` on.
pub fn code_words(alloc: Global, program: &Program) -> Result<Vec<u32>, NoMemory>
    requires { (bytes : List ℕ) × IsProgramOf PowerPc bytes program.now }
    ensures words { IfOk result (λ words. HasWords program.now (first_of program.now) words.items) }
    ensures some { IfOk result (λ words. 1 ≤ length words.items) }
    ensures most { IfOk result (λ words. length words.items ≤ 131072) }
{
    let segment = code_segment(program);
    let before = (first(program) - segment.at) as usize;
    let whole = whole_words(segment.bytes.as_slice(), before);
    read_words(alloc, whole)
}

/// The place among the code words of the one at which the program starts.
pub fn entry_place(program: &Program) -> usize
    requires { (bytes : List ℕ) × IsProgramOf PowerPc bytes program.now }
    ensures address { program.now.entry ≡ first_of program.now + 4 * result }
    ensures within { (words : List ℕ) → HasWords program.now (first_of program.now) words → result < length words }
{
    ((program.entry - first(program)) / 4) as usize
}
