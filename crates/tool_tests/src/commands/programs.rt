// Programs that are translated: the file of a translation holds what it is to.

use super::files::{BEHIND, CODE, EXIT, FRONT, Front, NOTE, Part, file, zeros};
use super::{TRANSLATE, run_over};
use elf_load::load;
use space::{Kind, Program, Segment};
use std::alloc::Global;
use std::process::Abort;
use std::test::Fail;
use trans_tool::{Cause, Status};

// The program of the file that a translation of this one writes. It starts here, and has so many segments.
fn translated(
    rt: &impl Abort,
    alloc: Global,
    bytes: &[u8],
    entry: u32,
    segments: usize,
) -> Result<Program, Fail> {
    let run = run_over(alloc, TRANSLATE, bytes, &[], &[], &[])?;
    assert!(rt;
        run.status
            == Status {
                code: 0,
                cause: Cause::Done
            }
    );
    assert!(rt; run.errors.shown().is_empty() && run.output.shown().is_empty());
    assert!(rt; run.files.held("in") == Some(bytes));
    let written = run.files.held("out").unwrap_or(&[]);
    if written.len() > 0x100_0000 {
        panic!(rt; "a long file");
    }
    let Ok(program) = load(alloc, written, Kind::Ia32) else {
        panic!(rt; "refused");
    };
    assert_eq!(rt; program.entry, entry);
    assert_eq!(rt; program.segments.as_slice().len(), segments);
    Ok(program)
}

// The segment of this number lies here, cannot be executed, and holds these bytes.
fn has(rt: &impl Abort, program: &Program, number: usize, at: u32, write: bool, bytes: &[u8]) {
    match program.segments.as_slice().get(number) {
        Some(segment) => assert!(rt; is_like(segment, at, write, bytes), "segment {number}"),
        None => panic!(rt; "no segment {number}"),
    }
}

fn is_like(segment: &Segment, at: u32, write: bool, bytes: &[u8]) -> bool {
    segment.at == at && segment.write == write && !segment.exec && segment.bytes.as_slice() == bytes
}

// Bytes behind the code, in a segment that has zeros behind them.
const DATA: Part = Part {
    segment_type: 1,
    offset: BEHIND + 12,
    vaddr: 0x1001_0001,
    filesz: 3,
    memsz: 5,
    flags: 6,
};

const EXIT_AND_DATA: &str = "380000013860000744000002112233";

#[test]
fn data_is_kept(rt: HostRuntime) -> Result<(), Fail> {
    let alloc = rt.alloc();
    let shown = [0x11u8, 0x22, 0x33, 0, 0];
    let bytes = file(
        alloc,
        &FRONT,
        &[CODE, DATA, zeros(0x2000_0000, 2, 4)],
        EXIT_AND_DATA,
    )?;
    let program = translated(&rt, alloc, &bytes, 0x1009_2005, 7)?;
    has(&rt, &program, 1, 0x1001_0001, true, &shown);
    has(&rt, &program, 2, 0x2000_0000, false, &[0, 0]);
    let bytes = file(
        alloc,
        &FRONT,
        &[DATA, zeros(0x2000_0000, 2, 7), CODE],
        EXIT_AND_DATA,
    )?;
    let program = translated(&rt, alloc, &bytes, 0x1009_2005, 7)?;
    has(&rt, &program, 0, 0x1001_0001, true, &shown);
    has(&rt, &program, 1, 0x2000_0000, true, &[0, 0]);
    Ok(())
}

// Headers of other types and segments without a byte leave nothing in the file.
#[test]
fn other_headers_leave_nothing(rt: HostRuntime) -> Result<(), Fail> {
    let alloc = rt.alloc();
    let code = [0x38u8, 0, 0, 1, 0x38, 0x60, 0, 7, 0x44, 0, 0, 2];
    let empty = zeros(0x1000_0004, 0, 5);
    let bytes = file(alloc, &FRONT, &[NOTE, empty, CODE], EXIT)?;
    let program = translated(&rt, alloc, &bytes, 0x1008_2005, 5)?;
    has(&rt, &program, 0, 0x1000_0000, false, &code);
    Ok(())
}

// Bytes around the aligned words are no code words, but stay.
#[test]
fn code_begins_anywhere(rt: HostRuntime) -> Result<(), Fail> {
    let alloc = rt.alloc();
    let part = Part {
        vaddr: 0x1000_0ffe,
        filesz: 17,
        memsz: 17,
        ..CODE
    };
    let front = Front {
        entry: 0x1000_1000,
        ..FRONT
    };
    let bytes = file(
        alloc,
        &front,
        &[part, NOTE, NOTE],
        "ffff380000013860000744000002ffffff",
    )?;
    let program = translated(&rt, alloc, &bytes, 0x1008_3005, 5)?;
    let shown = bytes.get(148..).unwrap_or(&[]);
    has(&rt, &program, 0, 0x1000_0ffe, false, shown);
    Ok(())
}

// The block of the first word stands before the entry: two ops of 5 and 6 bytes, and the jump that ends it.
#[test]
fn a_program_starts_at_its_entry(rt: HostRuntime) -> Result<(), Fail> {
    let alloc = rt.alloc();
    let code = Part {
        filesz: 16,
        memsz: 16,
        ..CODE
    };
    let front = Front {
        entry: 0x1000_0004,
        ..FRONT
    };
    let bytes = file(
        alloc,
        &front,
        &[code, NOTE, NOTE],
        "38600001380000013860000744000002",
    )?;
    translated(&rt, alloc, &bytes, 0x1008_2015, 5)?;
    Ok(())
}

#[test]
fn a_name_begins_with_one_dash(rt: HostRuntime) -> Result<(), Fail> {
    let alloc = rt.alloc();
    let bytes = file(alloc, &FRONT, &[CODE, NOTE, NOTE], EXIT)?;
    let run = run_over(alloc, &["translate", "in", "-out"], &bytes, &[], &[], &[])?;
    assert!(&rt;
        run.status
            == Status {
                code: 0,
                cause: Cause::Done
            }
    );
    assert!(&rt; run.files.held("-out") != None && run.files.held("out") == None);
    Ok(())
}
