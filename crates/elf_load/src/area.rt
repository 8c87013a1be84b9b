//! Where a translation puts what it adds to a program.
ghost use Rattle.std.specs.Prelude.{◌≡◌, ◌+◌, ◌≤◌, ◌<◌, ◌-◌, ◌^◌, ℕ, ◌↔◌, IsTrue, List, length, MatchOption};
ghost use Rattle.std.specs.List.{All, Contains};
ghost use Rattle.space.specs.declared.program.Segment.{Segment};
ghost use Rattle.space.specs.declared.program.Kind.TheVariants.{PowerPc};
ghost use Rattle.elf_load.specs.Area.{IsArea, IsHostArea, MeetsArea};
ghost use Rattle.elf_load.specs.Faults.{IsProgramOf};

use space::{Program, Segment};

/// The lowest address that the area may have.
const LOWEST: u64 = 0x0804_8000;
/// The area ends at this address at most.
const CEILING: u64 = 0xbfff_0000;
/// How many addresses the area has.
const SIZE: u64 = 0x0a00_0000;

const PAGE: u64 = 4096;

/// Whether the segment has an address in the area from `at` on.
fn meets_area(s: &Segment, at: u64) -> bool
    requires { at ≤ 4294967296 }
    ensures { IsTrue result ↔ MeetsArea s.now at }
{
    let begin = u64::from(s.at);
    let end = begin + s.bytes.as_slice().len() as u64;
    begin.max(at) < end.min(at + SIZE)
}

/// The end of a segment that has an address in the area from `at` on, if one has.
fn end_of_meeting(segments: &[Segment], at: u64) -> Option<u64>
    requires { at ≤ 4294967296 }
    ensures { MatchOption result (All (λ s. ¬ MeetsArea s at) segments.now)
        (λ end. (s : Segment) × Contains segments.now s × MeetsArea s at × (end ≡ s.at + length s.bytes) × (end < 2 ^ 64 - 4096)) }
{
    for s in segments {
        if meets_area(s, at) {
            return Some(u64::from(s.at) + s.bytes.as_slice().len() as u64);
        }
    }
    None
}

/// The least address at which the area may stand beside these segments, if there is one.
pub fn find_area(segments: &[Segment]) -> Option<u32>
    ensures { MatchOption result ((at : ℕ) → ¬ IsArea segments.now at) (λ at. IsHostArea segments.now at) }
{
    let mut at = LOWEST;
    while at + SIZE <= CEILING {
        match end_of_meeting(segments, at) {
            None => return Some(at as u32),
            Some(end) => at = (end + PAGE - 1) / PAGE * PAGE,
        }
        if at > CEILING {
            return None;
        }
    }
    None
}

/// The least address at which a translation of the program may put what it adds. It is a multiple
/// of 4096 from 0x08048000 on, and the 0x0a000000 addresses from there on lie below 0xbfff0000 and
/// meet no segment and not the stack.
pub fn host_area(program: &Program) -> u32
    requires { (bytes : List ℕ) × IsProgramOf PowerPc bytes program.now }
    ensures { IsHostArea program.now.segments result }
{
    match find_area(program.segments.as_slice()) {
        Some(at) => at,
        None => unreachable!(),
    }
}
