//! The headers of the file: System V ABI, "ELF Header" and "Program Header".
ghost use Rattle.std.specs.Prelude.{◌≡◌, ◌+◌, ◌<◌, ◌^◌, ◌++◌, OnOk, length, vec_len};
ghost use Rattle.elf_emit.specs.File.{half, word, flags_of as flags, identification, no_sections, file_header, program_header};
ghost use Rattle.elf_emit.specs.Parts.{shown};

use crate::part::{Part, Rights};
use word_kit::NoMemory;

/// How many bytes the file header has.
pub const FILE_HEADER: u32 = 52;
/// How many bytes each program header has.
pub const PROGRAM_HEADER: u32 = 32;
/// What offsets and addresses are equal modulo.
pub const PAGE: u32 = 4096;

const EXECUTE: u32 = 1;

const WRITE: u32 = 2;

const READ: u32 = 4;

fn put_half(file: &mut Vec<u8>, value: u16) -> Result<(), NoMemory>
    ensures bytes { OnOk result (file.new.items ≡ file.old.items ++ half value) }
    ensures length { OnOk result (vec_len file.new ≡ vec_len file.old + 2) }
{
    file.extend_from_slice(&value.to_le_bytes())?;
    Ok(())
}

/// Puts a word, the lowest byte first.
pub fn put_word(file: &mut Vec<u8>, value: u32) -> Result<(), NoMemory>
    ensures bytes { OnOk result (file.new.items ≡ file.old.items ++ word value) }
    ensures length { OnOk result (vec_len file.new ≡ vec_len file.old + 4) }
{
    file.extend_from_slice(&value.to_le_bytes())?;
    Ok(())
}

#[tactic(auto, unfolding(crate::specs::File::identification))]
fn put_identification(file: &mut Vec<u8>) -> Result<(), NoMemory>
    ensures bytes { OnOk result (file.new.items ≡ file.old.items ++ identification) }
    ensures length { OnOk result (vec_len file.new ≡ vec_len file.old + 24) }
{
    file.extend_from_slice(b"\x7fELF\x01\x01\x01\0\0\0\0\0\0\0\0\0")?; // e_ident
    put_half(file, 2)?; // e_type
    put_half(file, 3)?; // e_machine
    put_word(file, 1)?; // e_version
    Ok(())
}

#[tactic(auto, unfolding(crate::specs::File::no_sections))]
fn put_no_sections(file: &mut Vec<u8>) -> Result<(), NoMemory>
    ensures bytes { OnOk result (file.new.items ≡ file.old.items ++ no_sections) }
    ensures length { OnOk result (vec_len file.new ≡ vec_len file.old + 6) }
{
    put_half(file, 0)?; // e_shentsize
    put_half(file, 0)?; // e_shnum
    put_half(file, 0)?; // e_shstrndx
    Ok(())
}

/// Puts the header of a file of so many segments, whose run begins at `entry`.
#[tactic(auto, unfolding(crate::specs::File::file_header))]
pub fn put_file_header(file: &mut Vec<u8>, entry: u32, count: u16) -> Result<(), NoMemory>
    ensures bytes { OnOk result (file.new.items ≡ file.old.items ++ file_header entry count) }
    ensures length { OnOk result (vec_len file.new ≡ vec_len file.old + 52) }
{
    put_identification(file)?;
    put_word(file, entry)?;
    put_word(file, FILE_HEADER)?; // e_phoff
    put_word(file, 0)?; // e_shoff
    put_word(file, 0)?; // e_flags
    put_half(file, FILE_HEADER as u16)?; // e_ehsize
    put_half(file, PROGRAM_HEADER as u16)?; // e_phentsize
    put_half(file, count)?; // e_phnum
    put_no_sections(file)?;
    Ok(())
}

fn flags_of(part: &Part<'_>) -> u32
    ensures { result ≡ flags (shown part.now) }
{
    match part.rights {
        Rights::Read => READ,
        Rights::ReadWrite => READ + WRITE,
        Rights::ReadExecute => READ + EXECUTE,
    }
}

/// Puts the program header of a segment whose bytes stand at `offset`.
#[tactic(auto, unfolding(crate::specs::File::program_header))]
pub fn put_program_header(file: &mut Vec<u8>, part: &Part<'_>, offset: u32) -> Result<(), NoMemory>
    requires { length part.now.bytes.now < 2 ^ 32 }
    ensures bytes { OnOk result (file.new.items ≡ file.old.items ++ program_header (shown part.now) offset) }
    ensures length { OnOk result (vec_len file.new ≡ vec_len file.old + 32) }
{
    put_word(file, 1)?; // p_type
    put_word(file, offset)?;
    put_word(file, part.at)?; // p_vaddr
    put_word(file, part.at)?; // p_paddr
    put_word(file, part.bytes.len() as u32)?; // p_filesz
    put_word(file, part.size)?; // p_memsz
    put_word(file, flags_of(part))?;
    put_word(file, PAGE)?; // p_align
    Ok(())
}
