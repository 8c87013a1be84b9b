//! The file of a translation: the program, and what its translation adds.
ghost use Rattle.std.specs.Prelude.{◌≡◌, List, ℕ, IfOk, vec_len};
ghost use Rattle.std.specs.List.{flat_map};
ghost use Rattle.byteorder.specs.Endian.{little_bytes};
ghost use Rattle.space.specs.declared.program.Kind.TheVariants.{PowerPc, Ia32};
ghost use Rattle.elf_load.specs.Prelude.{IsArea, IsProgramOf};
ghost use Rattle.elf_emit.specs.File.{elf_file as elf_of};
ghost use Rattle.elf_emit.specs.Parts.{all_shown};
ghost use Rattle.elf_emit.specs.Translation.{FitsArea, file_segments, translated, home_page as home_bytes};

use crate::headers::{PAGE, put_word};
use crate::part::{Part, Rights, source_parts};
use crate::writer::elf_file;
use branch_table::Code;
use space::Program;
use std::alloc::Global;
use word_kit::NoMemory;

/// Where the branch table stands in the host area.
const TABLE: u32 = 0x1000;
/// Where the code stands in the host area.
const CODE: u32 = 0x8_1000;
/// The guest's r1 at its start.
const STACK_POINTER: u32 = 0x7f0f_ffc0;

/// The ELF file (System V ABI) for IA-32 of the translation of a PowerPC program that `load` answers, by the
/// translation's code and the address at which its host area begins.
///
/// It has the program's segments in their order, its stack among them, none of which can be executed; and then, in
/// the host area, the home page, the branch table and the code, at which the run begins at `code.start`. Zeros at the
/// end of a segment of the program don't stand in the file, unless it is the program's code. Its only error is want
/// of memory.
pub fn file(alloc: Global, program: &Program, code: &Code, area: u32) -> Result<Vec<u8>, NoMemory>
    requires program { (bytes : List ℕ) × IsProgramOf PowerPc bytes program.now }
    requires area { IsArea program.now.segments area }
    requires code { FitsArea code.now }
    ensures bytes { IfOk result (λ v. v.items ≡ elf_of code.now.start (file_segments program.now code.now area)) }
    ensures loads { IfOk result (λ v. IsProgramOf Ia32 v.items (translated program.now code.now area)) }
{
    let home = home_page(alloc)?;
    let table = branch_table::table(alloc, code.entries.as_slice())?;
    let parts = file_parts(alloc, program, code, area, &home, &table)?;
    elf_file(alloc, code.start, &parts)
}

// The segments of the file, in the order of its headers.
fn file_parts<'a>(
    alloc: Global,
    program: &'a Program,
    code: &'a Code,
    area: u32,
    home: &'a [u8],
    table: &'a [u8],
) -> Result<Vec<Part<'a>>, NoMemory>
    requires program { (bytes : List ℕ) × IsProgramOf PowerPc bytes program.now }
    requires area { IsArea program.now.segments area }
    requires code { FitsArea code.now }
    requires home { home.now ≡ home_bytes }
    requires table { table.now ≡ flat_map (little_bytes 4) code.now.entries }
    ensures { IfOk result (λ v. all_shown v.items ≡ file_segments program.now code.now area) }
{
    let ops = code.bytes.as_slice();
    let mut parts = source_parts(alloc, program.segments.as_slice())?;
    parts.push(Part {
        at: area,
        size: PAGE,
        rights: Rights::ReadWrite,
        bytes: home,
    })?;
    parts.push(Part {
        at: area + TABLE,
        size: table.len() as u32,
        rights: Rights::Read,
        bytes: table,
    })?;
    parts.push(Part {
        at: area + CODE,
        size: ops.len() as u32,
        rights: Rights::ReadExecute,
        bytes: ops,
    })?;
    Ok(parts)
}

// The home page at the start: r1 holds the stack pointer, all else is 0.
fn home_page(alloc: Global) -> Result<Vec<u8>, NoMemory>
    ensures bytes { IfOk result (λ v. v.items ≡ home_bytes) }
    ensures length { IfOk result (λ v. vec_len v ≡ 4096) }
{
    let mut home = Vec::with_capacity(alloc, PAGE as usize)?;
    put_word(&mut home, 0)?; // r0
    put_word(&mut home, STACK_POINTER)?; // r1
    home.resize(PAGE as usize, 0)?;
    Ok(home)
}
