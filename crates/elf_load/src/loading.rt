//! Programs from the bytes of ELF files.
ghost use Rattle.std.specs.Prelude.{◌≡◌, ◌↔◌, ◌+◌, ◌-◌, ◌≤◌, ◌<◌, ◌++◌, ℕ, length, IsTrue, IfOk, IfErr};
ghost use Rattle.std.specs.List.{position};
ghost use Rattle.space.specs.declared.program.Kind.TheVariants.{PowerPc};
ghost use Rattle.elf_load.specs.Headers.{header_count};
ghost use Rattle.elf_load.specs.Program.{zeros, segment_of, segments_before, segments_of, stack, is_code_segment};
ghost use Rattle.elf_load.specs.Area.{IsArea};
ghost use Rattle.elf_load.specs.Code.{HasLowCode};
ghost use Rattle.elf_load.specs.Faults.{PassesBelow, IsProgramOf, IsCause};

use crate::area::find_area;
use crate::faults::{STACK_AT, STACK_SIZE, first_fault};
use crate::headers::{ProgramHeader, count_headers, read_header};
use crate::numbers::word;
use crate::{ElfRefusal, LoadFault};
use space::{Bytes, Kind, Program, Segment, Segments};
use std::alloc::Global;
use word_kit::NoMemory;

/// These bytes, and then zeros, in all `size` bytes.
#[tactic(auto, unfolding(crate::specs::Program::zeros))]
fn zero_filled(alloc: Global, front: &[u8], size: usize) -> Result<Vec<u8>, NoMemory>
    requires { length front.now ≤ size }
    ensures { IfOk result (λ filled. filled.items ≡ front.now ++ zeros (size - length front.now)) }
{
    let mut filled = Vec::with_capacity(alloc, size)?;
    filled.extend_from_slice(front)?;
    filled.resize(size, 0)?;
    Ok(filled)
}

/// What the header puts into memory.
fn read_segment(alloc: Global, bytes: &[u8], h: &ProgramHeader) -> Result<Segment, NoMemory>
    requires inside { h.now.offset + h.now.filesz ≤ length bytes.now }
    requires sizes { h.now.filesz ≤ h.now.memsz }
    ensures { IfOk result (λ s. s ≡ segment_of bytes.now h.now) }
{
    let begin = h.offset as usize;
    let end = begin + h.filesz as usize;
    let filled = zero_filled(alloc, &bytes[begin..end], h.memsz as usize)?;
    Ok(Segment {
        at: h.vaddr,
        write: h.is_writable(),
        exec: h.is_executable(),
        bytes: Bytes::from(filled),
    })
}

fn make_stack(alloc: Global) -> Result<Segment, NoMemory>
    ensures { IfOk result (λ s. s ≡ stack) }
{
    let filled = zero_filled(alloc, &[], STACK_SIZE as usize)?;
    Ok(Segment {
        at: STACK_AT,
        write: true,
        exec: false,
        bytes: Bytes::from(filled),
    })
}

/// The segments of all headers, in their order.
#[tactic(auto, using(crate::proofs::Steps::segment_steps))]
fn read_segments(alloc: Global, bytes: &[u8], kind: Kind) -> Result<Vec<Segment>, NoMemory>
    requires { PassesBelow 21 kind bytes.now }
    ensures { IfOk result (λ segments. segments.items ≡ segments_before kind bytes.now (header_count kind bytes.now)) }
{
    let mut segments = Vec::new(alloc);
    for i in 0..count_headers(bytes, kind) {
        let h = read_header(bytes, kind, i);
        if h.is_segment() {
            segments.push(read_segment(alloc, bytes, &h)?)?;
        }
    }
    Ok(segments)
}

/// The segments of all headers, and for PowerPC the stack.
fn all_segments(alloc: Global, bytes: &[u8], kind: Kind) -> Result<Vec<Segment>, NoMemory>
    requires { PassesBelow 21 kind bytes.now }
    ensures { IfOk result (λ segments. segments.items ≡ segments_of kind bytes.now) }
{
    let mut segments = read_segments(alloc, bytes, kind)?;
    if kind == Kind::PowerPc {
        segments.push(make_stack(alloc)?)?;
    }
    Ok(segments)
}

/// Whether the program is for PowerPC, and leaves no room for what a translation adds.
fn lacks_room(segments: &[Segment], kind: Kind) -> bool
    ensures { IsTrue result ↔ ((kind ≡ PowerPc) × ((at : ℕ) → ¬ IsArea segments.now at)) }
{
    match kind {
        Kind::PowerPc => match find_area(segments) {
            None => true,
            Some(_) => false,
        },
        Kind::Ia32 => false,
    }
}

/// The place of the first code segment.
fn code_place(segments: &[Segment]) -> Option<usize>
    ensures { result ≡ position is_code_segment segments.now }
{
    segments.iter().position(|s| s.exec && !s.write)
}

/// The program of a file that breaks none of the first twenty rules.
fn lay_out(alloc: Global, bytes: &[u8], kind: Kind) -> Result<Program, LoadFault>
    requires { PassesBelow 21 kind bytes.now }
    ensures program { IfOk result (λ program. IsProgramOf kind bytes.now program) }
    ensures fault { IfErr result (λ fault. IsCause kind bytes.now fault) }
{
    let segments = match all_segments(alloc, bytes, kind) {
        Ok(segments) => segments,
        Err(error) => return Err(LoadFault::Memory(error)),
    };
    if lacks_room(segments.as_slice(), kind) {
        return Err(LoadFault::Refused(ElfRefusal::NoRoom, 44));
    }
    match code_place(segments.as_slice()) {
        Some(code) => Ok(Program {
            kind,
            entry: word(bytes, kind, 24),
            segments: Segments::from(segments),
            code,
        }),
        None => unreachable!(),
    }
}

/// The program that a file lays out, for a machine of this kind. Its code segment has addresses of user programs.
///
/// A file that breaks a rule is refused with the first rule that it breaks, and where.
#[tactic(auto, using(crate::proofs::LowCode::code_lies_low))]
pub fn load(alloc: Global, bytes: &[u8], kind: Kind) -> Result<Program, LoadFault>
    requires { length bytes.now < 4294967295 }
    ensures program { IfOk result (λ program. IsProgramOf kind bytes.now program) }
    ensures code { IfOk result (λ program. HasLowCode program) }
    ensures fault { IfErr result (λ fault. IsCause kind bytes.now fault) }
{
    match first_fault(bytes, kind) {
        Some((rule, offset)) => Err(LoadFault::Refused(rule, offset)),
        None => lay_out(alloc, bytes, kind),
    }
}
