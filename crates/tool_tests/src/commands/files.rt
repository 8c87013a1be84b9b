// Small files of a header, program headers and bytes behind them.

use std::alloc::{AllocError, Global};
use std::test::Fail;

// The fields of a file's header that are read.
#[derive(Clone, Copy)]
pub struct Front {
    pub magic: u32,
    pub class: u8,
    pub order: u8,
    pub version: u8,
    pub file_type: u16,
    pub machine: u16,
    pub long_version: u32,
    pub entry: u32,
    pub table: u32,
    pub header_size: u16,
    pub count: u16,
}

// What the header of a PowerPC program with three program headers says.
pub const FRONT: Front = Front {
    magic: 0x7f45_4c46,
    class: 1,
    order: 2,
    version: 1,
    file_type: 2,
    machine: 20,
    long_version: 1,
    entry: 0x1000_0000,
    table: 52,
    header_size: 32,
    count: 3,
};

// A program header.
#[derive(Clone, Copy)]
pub struct Part {
    pub segment_type: u32,
    pub offset: u32,
    pub vaddr: u32,
    pub filesz: u32,
    pub memsz: u32,
    pub flags: u32,
}

// The place of the bytes behind three program headers.
pub const BEHIND: u32 = 148;

// A code segment of three words.
pub const CODE: Part = Part {
    segment_type: 1,
    offset: BEHIND,
    vaddr: 0x1000_0000,
    filesz: 12,
    memsz: 12,
    flags: 5,
};

// A header that is not loaded. As a segment it would break most rules.
pub const NOTE: Part = Part {
    segment_type: 4,
    offset: 0xffff_ffff,
    vaddr: 0xffff_ffff,
    filesz: 0xffff_ffff,
    memsz: 0xffff_fff0,
    flags: 7,
};

// The code `li r0,1`, `li r3,7`, `sc`.
pub const EXIT: &str = "380000013860000744000002";

// A segment of zeros.
pub fn zeros(vaddr: u32, memsz: u32, flags: u32) -> Part {
    Part {
        segment_type: 1,
        offset: BEHIND,
        vaddr,
        filesz: 0,
        memsz,
        flags,
    }
}

fn put_word(bytes: &mut Vec<u8>, number: u32) -> Result<(), AllocError> {
    bytes.extend_from_slice(&number.to_be_bytes())
}

fn put_half(bytes: &mut Vec<u8>, number: u16) -> Result<(), AllocError> {
    bytes.extend_from_slice(&number.to_be_bytes())
}

fn put_front(bytes: &mut Vec<u8>, front: &Front) -> Result<(), AllocError> {
    put_word(bytes, front.magic)?;
    bytes.extend_from_slice(&[front.class, front.order, front.version, 0])?;
    put_word(bytes, 0)?;
    put_word(bytes, 0)?;
    put_half(bytes, front.file_type)?;
    put_half(bytes, front.machine)?;
    for number in [front.long_version, front.entry, front.table, 0, 0] {
        put_word(bytes, number)?;
    }
    for number in [52, front.header_size, front.count, 0, 0, 0] {
        put_half(bytes, number)?;
    }
    Ok(())
}

// The file of this header, these program headers and the bytes behind them, in hexadecimal.
pub fn file(alloc: Global, front: &Front, parts: &[Part], behind: &str) -> Result<Vec<u8>, Fail> {
    let mut bytes = Vec::new(alloc);
    put_front(&mut bytes, front)?;
    for part in parts {
        for number in [
            part.segment_type,
            part.offset,
            part.vaddr,
            0,
            part.filesz,
            part.memsz,
            part.flags,
            4096,
        ] {
            put_word(&mut bytes, number)?;
        }
    }
    let tail = hex::decode(alloc, behind.as_bytes())?;
    bytes.extend_from_slice(&tail)?;
    Ok(bytes)
}
