// Small files: one that an outside assembler made, and others with one rule broken each.

use byteorder::{BigEndian, ByteOrder, LittleEndian};
use elf_load::{LoadFault, host_area, load};
use space::{Kind, Segment};
use std::alloc::{AllocError, Global};
use std::test::Fail;

// A program of three code words at 0x10000000, from an outside assembler.
const EXIT: &str = "7f454c4601020100000000000000000000020014000000011000000000000034\
0000000000000000003400200001000000000000000000010000005410000000\
100000000000000c0000000c000000050000100038000001386000074400\
0002";

// What loading a file gave: 0 where it was accepted, or the number of the rule that it breaks; and
// the offset.
fn verdict(alloc: Global, bytes: &[u8], kind: Kind) -> (u8, u32) {
    if bytes.len() >= 0xffff_ffff {
        return (255, 0);
    }
    match load(alloc, bytes, kind) {
        Ok(_) => (0, 0),
        Err(LoadFault::Refused(rule, offset)) => (rule.number(), offset),
        Err(LoadFault::Memory(_)) => (255, 0),
    }
}

// The verdict on the assembler's file with this number of one, two or four bytes put in at an offset.
fn patched(alloc: Global, at: usize, width: u8, number: u32) -> Result<(u8, u32), Fail> {
    let mut bytes = hex::decode(alloc, EXIT.as_bytes())?;
    if at <= 92 && bytes.len() == 96 {
        match width {
            1 => bytes[at] = (number % 256) as u8,
            2 => BigEndian::write_u16(&mut bytes[at..], (number % 65536) as u16),
            _ => BigEndian::write_u32(&mut bytes[at..], number),
        }
    }
    Ok(verdict(alloc, &bytes, Kind::PowerPc))
}

fn put_half(bytes: &mut Vec<u8>, kind: Kind, number: u16) -> Result<(), AllocError> {
    let mut part = [0u8; 2];
    match kind {
        Kind::PowerPc => BigEndian::write_u16(&mut part, number),
        Kind::Ia32 => LittleEndian::write_u16(&mut part, number),
    }
    bytes.extend_from_slice(&part)
}

fn put_word(bytes: &mut Vec<u8>, kind: Kind, number: u32) -> Result<(), AllocError> {
    let mut part = [0u8; 4];
    match kind {
        Kind::PowerPc => BigEndian::write_u32(&mut part, number),
        Kind::Ia32 => LittleEndian::write_u32(&mut part, number),
    }
    bytes.extend_from_slice(&part)
}

// A program header, by its type, address, size in memory and flags. It has no bytes in the file.
#[derive(Clone, Copy)]
struct Header {
    segment_type: u32,
    vaddr: u32,
    memsz: u32,
    flags: u32,
}

fn described(vaddr: u32, memsz: u32, flags: u32) -> Header {
    Header {
        segment_type: 1,
        vaddr,
        memsz,
        flags,
    }
}

// A file of these program headers.
fn file(alloc: Global, kind: Kind, entry: u32, headers: &[Header]) -> Result<Vec<u8>, AllocError> {
    let order = match kind {
        Kind::PowerPc => 2u8,
        Kind::Ia32 => 1,
    };
    let machine = match kind {
        Kind::PowerPc => 20u16,
        Kind::Ia32 => 3,
    };
    let mut bytes = Vec::new(alloc);
    bytes.extend_from_slice(&[
        0x7f, 0x45, 0x4c, 0x46, 1, order, 1, 0, 0, 0, 0, 0, 0, 0, 0, 0,
    ])?;
    put_half(&mut bytes, kind, 2)?;
    put_half(&mut bytes, kind, machine)?;
    for number in [1, entry, 52, 0, 0] {
        put_word(&mut bytes, kind, number)?;
    }
    let count = (headers.len() % 65536) as u16;
    for number in [52, 32, count, 0, 0, 0] {
        put_half(&mut bytes, kind, number)?;
    }
    for h in headers {
        for number in [h.segment_type, 0, h.vaddr, 0, 0, h.memsz, h.flags, 4096] {
            put_word(&mut bytes, kind, number)?;
        }
    }
    Ok(bytes)
}

const CODE: Header = Header {
    segment_type: 1,
    vaddr: 0x1000_0000,
    memsz: 12,
    flags: 5,
};

// A header of a type that is not loaded.
const NOTE: Header = Header {
    segment_type: 4,
    vaddr: 0x1000_0000,
    memsz: 12,
    flags: 5,
};

fn is_like(segment: &Segment, at: u32, write: bool, exec: bool, bytes: &[u8]) -> bool {
    segment.at == at
        && segment.write == write
        && segment.exec == exec
        && segment.bytes.as_slice() == bytes
}

#[test]
fn an_assembled_program_is_laid_out(rt: HostRuntime) -> Result<(), Fail> {
    let alloc = rt.alloc();
    let bytes = hex::decode(alloc, EXIT.as_bytes())?;
    if bytes.len() != 96 {
        panic!(rt; "another length");
    }
    let Ok(program) = load(alloc, &bytes, Kind::PowerPc) else {
        panic!(rt; "refused");
    };
    assert!(rt; program.entry == 0x1000_0000 && program.code == 0);
    assert!(rt; host_area(&program) == 0x1000_1000);
    let zeros = vec![in alloc; 0u8; 0x10_0000]?;
    match program.segments.as_slice() {
        [code, stack] => {
            assert!(rt; is_like(code, 0x1000_0000, false, true, &bytes[84..]));
            assert!(rt; is_like(stack, 0x7f00_0000, true, false, &zeros));
        }
        _ => panic!(rt; "not two segments"),
    }
    Ok(())
}

#[test]
fn short_files_are_refused(rt: HostRuntime) -> Result<(), Fail> {
    let alloc = rt.alloc();
    let bytes = hex::decode(alloc, EXIT.as_bytes())?;
    for (size, wanted) in [
        (0, (1, 0)),
        (51, (1, 0)),
        (52, (10, 28)),
        (83, (10, 28)),
        (84, (12, 52)),
        (95, (12, 52)),
        (96, (0, 0)),
    ] {
        let front = bytes.get(..size).unwrap_or(&[]);
        assert_eq!(rt;
            verdict(alloc, front, Kind::PowerPc),
            wanted,
            "{size} bytes"
        );
    }
    Ok(())
}

#[test]
fn fields_of_the_file_header_are_tried(rt: HostRuntime) -> Result<(), Fail> {
    let alloc = rt.alloc();
    for (at, width, number, wanted) in [
        (0, 1, 0x7e, (2, 0)),
        (3, 1, 0x47, (2, 0)),
        (4, 1, 2, (3, 4)),
        (5, 1, 1, (4, 5)),
        (6, 1, 0, (5, 6)),
        (20, 4, 2, (5, 20)),
        (16, 2, 3, (6, 16)),
        (18, 2, 3, (7, 18)),
        (42, 2, 40, (8, 42)),
        (44, 2, 0, (9, 44)),
        (44, 2, 65, (9, 44)),
        (44, 2, 64, (10, 28)),
        (28, 4, 65, (10, 28)),
        (28, 4, 0xffff_ffff, (10, 28)),
        (24, 4, 0x1000_0002, (19, 24)),
        (24, 4, 0x1000_0008, (0, 0)),
        (24, 4, 0x1000_000c, (19, 24)),
    ] {
        assert_eq!(rt;
            patched(alloc, at, width, number)?,
            wanted,
            "{number} at {at}"
        );
    }
    Ok(())
}

#[test]
fn fields_of_a_program_header_are_tried(rt: HostRuntime) -> Result<(), Fail> {
    let alloc = rt.alloc();
    for (at, number, wanted) in [
        (52, 2, (11, 52)),
        (52, 3, (11, 52)),
        (52, 4, (17, 44)),
        (56, 85, (12, 52)),
        (56, 0xffff_ffff, (12, 52)),
        (72, 11, (13, 52)),
        (60, 0xbfff_fff8, (14, 52)),
        (60, 0xbfff_fff4, (19, 24)),
        (72, 0x400_0001, (16, 52)),
        (76, 7, (17, 44)),
        (76, 4, (17, 44)),
        (72, 0x8_0000, (0, 0)),
        (72, 0x8_0004, (18, 52)),
    ] {
        assert_eq!(rt; patched(alloc, at, 4, number)?, wanted, "{number} at {at}");
    }
    Ok(())
}

#[test]
fn segments_are_tried_against_each_other(rt: HostRuntime) -> Result<(), Fail> {
    let alloc = rt.alloc();
    for (headers, wanted) in [
        ([CODE, NOTE], (0, 0)),
        ([described(0x2000_0000, 4096, 6), CODE], (0, 0)),
        ([CODE, described(0xc000_0001, 0, 6)], (14, 84)),
        ([CODE, described(0x1000_000b, 4, 6)], (15, 84)),
        ([CODE, described(0x1000_000c, 4, 6)], (0, 0)),
        ([CODE, described(0x1000_0004, 0, 6)], (0, 0)),
        ([CODE, described(0x2000_0000, 0x3ff_fff5, 6)], (16, 84)),
        ([CODE, described(0x2000_0000, 4, 5)], (17, 44)),
        (
            [described(0x1000_0000, 12, 7), described(0x2000_0000, 4, 5)],
            (19, 24),
        ),
        ([CODE, described(0x7eff_ff00, 0x101, 6)], (20, 84)),
        ([CODE, described(0x7eff_ff00, 0x100, 6)], (0, 0)),
        ([CODE, described(0x7f10_0000, 4, 6)], (0, 0)),
    ] {
        let bytes = file(alloc, Kind::PowerPc, 0x1000_0000, &headers)?;
        assert_eq!(rt; verdict(alloc, &bytes, Kind::PowerPc), wanted);
    }
    Ok(())
}

#[test]
fn a_program_without_room_is_refused(rt: HostRuntime) -> Result<(), Fail> {
    let alloc = rt.alloc();
    let mut headers = Vec::new(alloc);
    headers.push(CODE)?;
    for number in 0u32..18 {
        headers.push(described(0x1204_7fff + number * 0x0a00_0000, 1, 6))?;
    }
    let bytes = file(alloc, Kind::PowerPc, 0x1000_0000, &headers)?;
    assert_eq!(rt; verdict(alloc, &bytes, Kind::PowerPc), (21, 44));
    headers.truncate(18);
    let bytes = file(alloc, Kind::PowerPc, 0x1000_0000, &headers)?;
    assert_eq!(rt; verdict(alloc, &bytes, Kind::PowerPc), (0, 0));
    Ok(())
}

#[test]
fn a_file_for_the_host_is_read_low_byte_first(rt: HostRuntime) -> Result<(), Fail> {
    let alloc = rt.alloc();
    let stack = described(0x7f00_0000, 0x10_0000, 6);
    let bytes = file(alloc, Kind::Ia32, 7, &[stack, CODE])?;
    if bytes.len() != 116 {
        panic!(rt; "another length");
    }
    let Ok(program) = load(alloc, &bytes, Kind::Ia32) else {
        panic!(rt; "refused");
    };
    assert!(rt; program.entry == 7 && program.code == 1);
    assert!(rt; program.segments.as_slice().len() == 2);
    assert_eq!(rt; verdict(alloc, &bytes, Kind::PowerPc), (4, 5));
    Ok(())
}

#[test]
fn a_file_for_the_host_has_up_to_96_headers(rt: HostRuntime) -> Result<(), Fail> {
    let alloc = rt.alloc();
    let mut headers = Vec::new(alloc);
    headers.push(described(0x1000, 4, 5))?;
    for number in 2u32..98 {
        headers.push(described(number * 4096, 4, 6))?;
    }
    let bytes = file(alloc, Kind::Ia32, 0, &headers)?;
    assert_eq!(rt; verdict(alloc, &bytes, Kind::Ia32), (9, 44));
    headers.truncate(96);
    let bytes = file(alloc, Kind::Ia32, 0, &headers)?;
    assert_eq!(rt; verdict(alloc, &bytes, Kind::Ia32), (0, 0));
    Ok(())
}
