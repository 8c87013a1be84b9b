//! Memory before the first step, its rights, and the bytes of a buffer.
ghost use Rattle.std.specs.Prelude.{◌≡◌, ℕ, false, IfOk, length};
ghost use Rattle.machines.specs.Prelude.{Program as OfProgram, ArePermitted, each_byte, block, first_bytes};
ghost use Rattle.space.specs.Memory.{AreApart};
ghost use Rattle.access.specs.Kept.{Keeps, HasClosedCode, is_allowed};

use space::{Program, Space};
use std::alloc::Global;
use word_kit::NoMemory;

/// The memory of a program before its first step. No two segments share an address, and the code may
/// not be written.
pub fn first_memory(alloc: Global, program: &Program) -> Result<Space, NoMemory>
    requires apart { AreApart program.now.segments }
    requires closed { HasClosedCode program.now }
    ensures { IfOk result (λ space. Keeps program.now (first_bytes program.now.segments) space) }
{
    Space::of(alloc, program)
}

/// The same, in the program's own bytes. Takes no memory.
pub fn own_memory(program: Program) -> Space
    requires apart { AreApart program.segments }
    requires closed { HasClosedCode program }
    ensures { Keeps program (first_bytes program.segments) result }
{
    Space::owning(program)
}

/// Whether each of `count` addresses from `at` on lies in a segment, and in one that may be written
/// if that is asked. Behind the last address they go on at 0.
pub fn holds(space: &Space, at: u32, count: u32, writable: bool) -> bool
    ensures { (p : OfProgram) (bytes : ℕ → ℕ) → Keeps p bytes space.now
        → result ≡ each_byte (is_allowed p writable) count at }
{
    space.holds(at, count, writable)
}

/// Fills `into` with the bytes from `at` on, each of which lies in a segment.
pub fn copy(space: &Space, at: u32, into: &mut [u8])
    requires { ArePermitted space.now false at (length into.old) }
    ensures { (p : OfProgram) (bytes : ℕ → ℕ) → Keeps p bytes space.now
        → into.new ≡ block (length into.old) at bytes }
{
    space.copy(at, into);
}
