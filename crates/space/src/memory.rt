//! The memory of a running program.
ghost use Rattle.std.specs.Prelude.{◌≡◌, ◌+◌, ◌-◌, ◌%◌, ◌^◌, ◌<◌, ◌≤◌, ◌↔◌, ℕ, false, true, not, ◌&&◌, ◌||◌, IsTrue, IfOk, Some, slice_get, slice_index, length, EachIndex, position, option_copied};
ghost use Rattle.std.specs.Bool.{OnTrue, OnFalse};
ghost use Rattle.space.specs.Memory.{AreApart, ArePermitted, has_address, permits, is_permitted, byte_at, with_byte, code_word, put_byte, word_in, bytes_from, code_from};

use crate::{Bytes, Program, Segment};
use byteorder::{BigEndian, ByteOrder};
use std::alloc::Global;
use std::marker::Model;
use word_kit::NoMemory;

/// How many addresses there are.
const ADDRESSES: u64 = 0x1_0000_0000;

/// The bytes of a running program, and which of them it may write. Contracts see the segments, with
/// the bytes that stand in them now.
#[derive(Drop)]
pub struct Space {
    segments: Vec<Segment>,
    code: usize,
}

impl Model for Space {
    ghost use Rattle.space.specs.Memory.{Memory, AreApart};

    ghost Value = { Memory };

    ghost view = { λ s. record { segments = s.segments.items; code = s.code } };

    ghost invariant = { λ s. AreApart s.segments.items };
}

/// A segment with bytes of its own.
fn copy_segment(alloc: Global, s: &Segment) -> Result<Segment, NoMemory>
    ensures { IfOk result (λ copied. copied ≡ s.now) }
{
    let mut bytes = Vec::with_capacity(alloc, s.bytes.as_slice().len())?;
    bytes.extend_from_slice(s.bytes.as_slice())?;
    Ok(Segment {
        at: s.at,
        write: s.write,
        exec: s.exec,
        bytes: Bytes::from(bytes),
    })
}

/// Whether the address lies in the segment.
fn lies_in(at: u32, s: &Segment) -> bool
    ensures { result ≡ has_address at s.now }
{
    s.at <= at && u64::from(at) < u64::from(s.at) + s.bytes.as_slice().len() as u64
}

/// Whether the address lies in the segment, and may be written if that is asked.
fn permits_access(at: u32, writable: bool, s: &Segment) -> bool
    ensures { result ≡ permits writable at s.now }
{
    (!writable || s.write) && lies_in(at, s)
}

/// How many addresses from this one on lie in the segment, at most `most`.
fn count_from(at: u32, most: u32, s: &Segment) -> u32
    requires { IsTrue (has_address at s.now) }
    ensures most { result ≤ most }
    ensures some { 0 < most → 0 < result }
    ensures addresses { at + result ≤ 2 ^ 32 }
    ensures inside { at + result ≤ s.now.at + length s.now.bytes }
{
    let end = u64::from(s.at) + s.bytes.as_slice().len() as u64;
    let count = end.min(ADDRESSES) - u64::from(at);
    count.min(u64::from(most)) as u32
}

/// The byte at an address of the segment.
fn get(at: u32, s: &Segment) -> Option<u8>
    requires { IsTrue (has_address at s.now) }
    ensures { result ≡ slice_get s.now.bytes (at - s.now.at) }
{
    s.bytes.as_slice().get((at - s.at) as usize).copied()
}

/// Puts the byte at an address of the segment.
fn put(s: &mut Segment, at: u32, byte: u8)
    requires { IsTrue (has_address at s.old) }
    ensures { s.new ≡ put_byte at byte s.old }
{
    s.bytes.set((at - s.at) as usize, byte);
}

/// The word at an address of the segment.
fn read_word(at: u32, s: &Segment) -> Option<u32>
    ensures { result ≡ word_in at s.now }
{
    let end = u64::from(s.at) + s.bytes.as_slice().len() as u64;
    if at % 4 == 0 && s.at <= at && u64::from(at) + 4 <= end {
        let offset = (at - s.at) as usize;
        Some(BigEndian::read_u32(&s.bytes.as_slice()[offset..]))
    } else {
        None
    }
}

/// The bytes from an address of the segment on to its end.
fn read_from(at: u32, s: &Segment) -> Option<&[u8]>
    ensures { option_copied result ≡ bytes_from at s.now }
{
    if lies_in(at, s) {
        Some(&s.bytes.as_slice()[(at - s.at) as usize..])
    } else {
        None
    }
}

impl Space {
    /// The memory of a program before its first step, in bytes of its own. No two segments of the
    /// program share an address.
    pub fn of(alloc: Global, program: &Program) -> Result<Space, NoMemory>
        requires { AreApart program.now.segments }
        ensures { IfOk result (λ space. space ≡ record { segments = program.now.segments; code = program.now.code }) }
    {
        let mut segments = Vec::new(alloc);
        for s in program.segments.as_slice() {
            segments.push(copy_segment(alloc, s)?)?;
        }
        Ok(Space {
            segments,
            code: program.code,
        })
    }

    /// The memory of a program before its first step, in the program's own bytes. No two segments of
    /// the program share an address. Takes no memory.
    pub fn owning(program: Program) -> Space
        requires { AreApart program.segments }
        ensures { result ≡ record { segments = program.segments; code = program.code } }
    {
        Space {
            code: program.code,
            segments: program.segments.into_vec(),
        }
    }

    /// The place of the segment in which an address lies, of one that may be written if that is
    /// asked.
    fn place(&self, at: u32, writable: bool) -> Option<usize>
        ensures { result ≡ position (permits writable at) self.now.segments }
    {
        self.segments
            .iter()
            .position(|s| permits_access(at, writable, s))
    }

    /// The byte at an address, or None where that lies in no segment.
    pub fn read(&self, at: u32) -> Option<u8>
        ensures { result ≡ byte_at self.now at }
    {
        match self.place(at, false) {
            Some(place) => get(at, &self.segments[place]),
            None => None,
        }
    }

    /// Puts the byte at an address. The answer is false, and nothing is changed, where the address
    /// lies in no segment that may be written.
    pub fn write(&mut self, at: u32, byte: u8) -> bool
        ensures answer { result ≡ is_permitted self.old true at }
        ensures written { OnTrue result (self.new ≡ with_byte self.old at byte) }
        ensures kept { OnFalse result (self.new ≡ self.old) }
    {
        match self.place(at, true) {
            Some(place) => {
                put(&mut self.segments[place], at, byte);
                true
            }
            None => false,
        }
    }

    /// How many addresses from this one on lie in one segment, at most `most`, and may be written if
    /// that is asked.
    fn run(&self, at: u32, most: u32, writable: bool) -> u32
        ensures most { result ≤ most }
        ensures none { 0 < most → result ≡ 0 → is_permitted self.now writable at ≡ false }
        ensures addresses { at + result ≤ 2 ^ 32 }
        ensures given { (k : ℕ) → k < result → is_permitted self.now writable (at + k) ≡ true }
    {
        match self.place(at, writable) {
            Some(place) => count_from(at, most, &self.segments[place]),
            None => 0,
        }
    }

    /// Whether each of `count` addresses from `at` on lies in a segment, and in one that may be
    /// written if that is asked. Behind the last address they go on at 0.
    pub fn holds(&self, at: u32, count: u32, writable: bool) -> bool
        ensures { IsTrue result ↔ ArePermitted self.now writable at count }
    {
        let mut done = 0;
        while done < count {
            let run = self.run(at.wrapping_add(done), count - done, writable);
            if run == 0 {
                return false;
            }
            done += run;
        }
        true
    }

    /// Fills `into` with the bytes from `at` on, each of which lies in a segment.
    pub fn copy(&self, at: u32, into: &mut [u8])
        requires { ArePermitted self.now false at (length into.old) }
        ensures { EachIndex into.new (λ k. byte_at self.now ((at + k) % 2 ^ 32) ≡ Some (slice_index into.new k)) }
    {
        let mut address = at;
        for byte in into.iter_mut() {
            match self.read(address) {
                Some(found) => *byte = found,
                None => unreachable!(),
            }
            address = address.wrapping_add(1);
        }
    }

    /// The word at an address that is a multiple of 4, highest byte first, if all its bytes lie in
    /// the code segment.
    pub fn fetch(&self, at: u32) -> Option<u32>
        ensures { result ≡ code_word self.now at }
    {
        read_word(at, self.segments.get(self.code)?)
    }

    /// The bytes of the code from an address in it on to its end, or None where the address isn't in the code segment.
    pub fn code_from(&self, at: u32) -> Option<&[u8]>
        ensures { option_copied result ≡ code_from self.now at }
    {
        read_from(at, self.segments.get(self.code)?)
    }
}
