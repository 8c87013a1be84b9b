//! The whole file of given segments.
ghost use Rattle.std.specs.Prelude.{◌≡◌, ◌≤◌, ◌<◌, ◌+◌, ◌*◌, ◌-◌, ◌^◌, ◌++◌, IfOk, OnOk, length, replicate, vec_len};
ghost use Rattle.elf_emit.specs.File.{elf_file as elf_of, program_headers, contents, headers_end, offset_of as least_offset, end_of};
ghost use Rattle.elf_emit.specs.Parts.{shown, all_shown, AreFew};

use crate::headers::{FILE_HEADER, PAGE, PROGRAM_HEADER, put_file_header, put_program_header};
use crate::part::Part;
use std::alloc::Global;
use word_kit::NoMemory;

/// The file of these segments, whose run begins at `entry`.
pub fn elf_file(alloc: Global, entry: u32, parts: &[Part<'_>]) -> Result<Vec<u8>, NoMemory>
    requires { AreFew (all_shown parts.now) }
    ensures { IfOk result (λ v. v.items ≡ elf_of entry (all_shown parts.now)) }
{
    let mut file = Vec::new(alloc);
    put_file_header(&mut file, entry, parts.len() as u16)?;
    put_program_headers(&mut file, parts)?;
    put_contents(&mut file, parts)?;
    Ok(file)
}

// Where the segment's bytes stand, behind all that stands before `end`: at the least offset that equals
// its address modulo the page, or at 0 where it has none.
fn offset_of(part: &Part<'_>, end: u32) -> u32
    requires room { end + 4096 < 2 ^ 32 }
    ensures value { result ≡ least_offset (shown part.now) end }
    ensures bound { result < end + 4096 }
{
    if part.bytes.is_empty() {
        0
    } else {
        end + part.at.wrapping_sub(end) % PAGE
    }
}

// Where the file ends behind the segment, whose bytes stand at `offset`, if it ended at `end` before it.
fn end_behind(part: &Part<'_>, offset: u32, end: u32) -> u32
    requires offset { offset ≡ least_offset (shown part.now) end }
    requires room { end + 4096 + length part.now.bytes.now < 2 ^ 32 }
    ensures value { result ≡ end_of (shown part.now) end }
    ensures bound { result < end + 4096 + length part.now.bytes.now }
{
    if part.bytes.is_empty() {
        end
    } else {
        offset + part.bytes.len() as u32
    }
}

fn put_program_headers(file: &mut Vec<u8>, parts: &[Part<'_>]) -> Result<(), NoMemory>
    requires { AreFew (all_shown parts.now) }
    ensures bytes { OnOk result (file.new.items ≡ file.old.items ++ program_headers (all_shown parts.now) (headers_end (length parts.now))) }
    ensures length { OnOk result (vec_len file.new ≡ vec_len file.old + 32 * length parts.now) }
{
    let mut end = FILE_HEADER + PROGRAM_HEADER * parts.len() as u32;
    for part in parts {
        let offset = offset_of(part, end);
        put_program_header(file, part, offset)?;
        end = end_behind(part, offset, end);
    }
    Ok(())
}

// Puts the segments' bytes behind the headers.
fn put_contents(file: &mut Vec<u8>, parts: &[Part<'_>]) -> Result<(), NoMemory>
    requires few { AreFew (all_shown parts.now) }
    requires headers { vec_len file.old ≡ headers_end (length parts.now) }
    ensures { OnOk result (file.new.items ≡ file.old.items ++ contents (all_shown parts.now) (vec_len file.old)) }
{
    for part in parts {
        put_bytes(file, part)?;
    }
    Ok(())
}

fn put_bytes(file: &mut Vec<u8>, part: &Part<'_>) -> Result<(), NoMemory>
    requires room { vec_len file.old + 4096 < 2 ^ 32 }
    ensures bytes { OnOk result (file.new.items ≡ file.old.items ++ (replicate (least_offset (shown part.now) (vec_len file.old) - vec_len file.old) 0 ++ part.now.bytes.now)) }
    ensures end { OnOk result (vec_len file.new ≡ end_of (shown part.now) (vec_len file.old)) }
    ensures bound { OnOk result (vec_len file.new < vec_len file.old + 4096 + length part.now.bytes.now) }
{
    if part.bytes.is_empty() {
        return Ok(());
    }
    let offset = offset_of(part, file.len() as u32);
    file.resize(offset as usize, 0)?;
    file.extend_from_slice(part.bytes)?;
    Ok(())
}
