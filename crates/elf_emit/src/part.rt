//! The segments of the file.
ghost use Rattle.std.specs.Prelude.{◌≡◌, ◌<◌, ◌-◌, ◌^◌, ◌==◌, false, IfOk, length, map, take};
ghost use Rattle.std.specs.List.{All, suffix_len};
ghost use Rattle.elf_emit.specs.Parts.{shown, all_shown, can_write, can_execute};
ghost use Rattle.elf_emit.specs.Translation.{kept, source};

use space::Segment;
use std::alloc::Global;
use word_kit::NoMemory;

/// What a program may do with a segment.
#[derive(Clone, Copy)]
pub enum Rights {
    Read,
    ReadWrite,
    ReadExecute,
}

/// A segment of the file. Its memory is its bytes, then zeros up to its size.
#[derive(Clone, Copy)]
pub struct Part<'a> {
    pub at: u32,
    pub size: u32,
    pub rights: Rights,
    pub bytes: &'a [u8],
}

// How many bytes there are before the zeros at the end.
fn count_before_zeros(bytes: &[u8]) -> usize
    ensures { result ≡ length bytes.now - suffix_len (λ b. b == 0) bytes.now }
{
    bytes.len() - bytes.iter().rev().take_while(|byte| **byte == 0).count()
}

// The bytes of a segment of the program that stand in the file.
fn kept_bytes(segment: &Segment) -> &[u8]
    ensures { result.now ≡ take (kept segment.now) segment.now.bytes }
{
    let bytes = segment.bytes.as_slice();
    if segment.exec && !segment.write {
        bytes
    } else {
        &bytes[..count_before_zeros(bytes)]
    }
}

// What a program may do with a segment that isn't executed.
fn data_rights(write: bool) -> Rights
    ensures write { can_write result ≡ write }
    ensures execute { can_execute result ≡ false }
{
    if write {
        Rights::ReadWrite
    } else {
        Rights::Read
    }
}

// A segment of the program in the file, where it can't be executed.
fn source_part(segment: &Segment) -> Part<'_>
    requires { length segment.now.bytes < 2 ^ 32 }
    ensures { shown result ≡ source segment.now }
{
    Part {
        at: segment.at,
        size: segment.bytes.as_slice().len() as u32,
        rights: data_rights(segment.write),
        bytes: kept_bytes(segment),
    }
}

/// The segments of the program in the file, in their order.
pub fn source_parts(alloc: Global, segments: &[Segment]) -> Result<Vec<Part<'_>>, NoMemory>
    requires { All (λ s. length s.bytes < 2 ^ 32) segments.now }
    ensures { IfOk result (λ v. all_shown v.items ≡ map source segments.now) }
{
    let mut parts = Vec::new(alloc);
    for segment in segments {
        parts.push(source_part(segment))?;
    }
    Ok(parts)
}
