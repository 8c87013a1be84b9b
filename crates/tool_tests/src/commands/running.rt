// Programs that are run, through the top call. Ends and bytes are worked out by hand from the manuals.

use super::files::{BEHIND, CODE, EXIT, FRONT, Front, NOTE, Part, file, zeros};
use super::{TRANSLATE, program, run_over, words_of};
use outside::{MemFiles, MemSink, MemSource};
use std::alloc::Global;
use std::process::Abort;
use std::test::Fail;
use trans_tool::{Cause, Status, top};

const HELLO: &str = "38000004386000013c8010003884002438a0000544000002\
38000001386000004400000268656c6c6f000000";

// hello, and then a store to the code at the seventh instruction
const STORES: &str = "38000004386000013c8010003884002838a00005440000029064ffd8\
38000001386000004400000268656c6c6f000000";

// hello as an error, and then a trap
const FAILS: &str = "38000004386000023c8010003884001c38a00005440000027fe0000868656c6c6f000000";

const ECHO: &str = "38000003386000007c240b7838a00004440000027c651b78\
380000043860000144000002380000013860000044000002";

// a function that is called 1000 times
const CALLS: &str = "3be003e8386000004800001937ffffff4082fff85463063e3800000144000002\
9421fff07c0802a69001001438630003800100147c0803a6382100104e800020";

// a bctr to the fifth word of a block of ten
const MIDDLE: &str = "3c801000608400207c8903a64e800420\
38630001386300013863000138630001386300013863000138630001386300013800000144000002";

const MANY: &str = "--steps=1000000";

// Each has its code, how many steps it may make, its input, how it ends and what it puts to the output. Its translation
// may make a million.
const RUNS: &[(&str, &str, &str, Cause, &str)] = &[
    (EXIT, "--steps=3", "", Cause::GuestExit(7), ""),
    (HELLO, MANY, "", Cause::GuestExit(0), "hello"),
    (ECHO, MANY, "hi", Cause::GuestExit(0), "hi"),
    (ECHO, MANY, "", Cause::GuestExit(0), ""),
    (
        "38000063440000023800000144000002",
        MANY,
        "",
        Cause::GuestExit(38),
        "",
    ),
    (STORES, "--steps=7", "", Cause::Outside, "hello"),
    ("00000000", MANY, "", Cause::Illegal, ""),
    ("7c0004ac00000000", MANY, "", Cause::Illegal, ""),
    ("7fe00008", MANY, "", Cause::Trap, ""),
    (
        "380000013860000744000002000000007fe00008",
        MANY,
        "",
        Cause::GuestExit(7),
        "",
    ),
    (
        "4800000838600001386000073800000144000002",
        MANY,
        "",
        Cause::GuestExit(7),
        "",
    ),
    (CALLS, "--steps=11005", "", Cause::GuestExit(184), ""),
    (MIDDLE, MANY, "", Cause::GuestExit(4), ""),
];

// Programs with one step too few.
const SPENT: &[(&str, &str, &str)] = &[
    (STORES, "--steps=6", "hello"),
    (CALLS, "--steps=11004", ""),
];

// The words that load r4 and r5, the word that gives r3, and what it gives.
const RESULTS: &[(&str, &str, u32)] = &[
    // slw by 31, 32, 63 and 64
    ("3880ffff38a0001f", "7c832830", 0x8000_0000),
    ("3880ffff38a00020", "7c832830", 0),
    ("3880ffff38a0003f", "7c832830", 0),
    ("3880ffff38a00040", "7c832830", 0xffff_ffff),
    // sraw, and XER behind it
    ("3880ffff38a00021", "7c832e30", 0xffff_ffff),
    ("3880ffff38a00021", "7c832e307c6102a6", 0x2000_0000),
    ("3880000138a00021", "7c832e30", 0),
    ("3880000138a00021", "7c832e307c6102a6", 0),
    ("3c80800038a00020", "7c832e30", 0xffff_ffff),
    ("3c80800038a00000", "7c832e307c6102a6", 0),
    // subfc, and XER behind it
    ("3880000538a00005", "7c6428107c6102a6", 0x2000_0000),
    ("3880000638a00005", "7c642810", 0xffff_ffff),
    ("3880000638a00005", "7c6428107c6102a6", 0),
    // cntlzw of 0, 1 and the top bit; rlwinm with a mask that wraps
    ("3880000038a00000", "7c830034", 32),
    ("3880000138a00000", "7c830034", 31),
    ("3c80800038a00000", "7c830034", 0),
    ("3880ffff38a00000", "54830782", 0xc000_0003),
    // divw by 0, of the least number by -1, of -7 by 2
    ("3880000738a00000", "7c642bd6", 0),
    ("3c80800038a0ffff", "7c642bd6", 0),
    ("3880fff938a00002", "7c642bd6", 0xffff_fffd),
];

// How a run ended, and what it put to the output and the errors.
#[derive(Drop)]
struct Ran {
    status: Status,
    output: MemSink,
    errors: MemSink,
}

fn run_file(
    alloc: Global,
    bytes: &[u8],
    steps: &str,
    input: &[u8],
    failing: &[u64],
) -> Result<Ran, Fail> {
    let mut held = Vec::new(alloc);
    held.push((String::from_str(alloc, "in")?, bytes.to_vec(alloc)?))?;
    let mut files = MemFiles::of(alloc, held, Vec::new(alloc));
    let mut source = MemSource::of(input.to_vec(alloc)?, failing.to_vec(alloc)?);
    let mut output = MemSink::of(alloc, 100, Vec::new(alloc))?;
    let mut errors = MemSink::of(alloc, 100, Vec::new(alloc))?;
    let words = words_of(alloc, &["run", steps, "in"])?;
    let status = top(
        alloc,
        &words,
        &mut files,
        &mut source,
        &mut output,
        &mut errors,
    );
    Ok(Ran {
        status,
        output,
        errors,
    })
}

// The translation of a file.
fn translated(rt: &impl Abort, alloc: Global, bytes: &[u8]) -> Result<Vec<u8>, Fail> {
    let run = run_over(alloc, TRANSLATE, bytes, &[], &[], &[])?;
    assert!(rt; run.status.cause == Cause::Done);
    match run.files.held("out") {
        Some(written) => Ok(written.to_vec(alloc)?),
        None => panic!(rt; "no file"),
    }
}

#[test]
fn programs_are_run(rt: HostRuntime) -> Result<(), Fail> {
    let alloc = rt.alloc();
    for (code, steps, input, cause, output) in RUNS {
        let bytes = program(alloc, *code)?;
        let ran = run_file(alloc, &bytes, *steps, input.as_bytes(), &[])?;
        assert!(&rt; ran.status.cause == *cause, "{code}");
        assert!(&rt; ran.output.shown() == output.as_bytes(), "{code}");
    }
    for (code, steps, output) in SPENT {
        let bytes = program(alloc, *code)?;
        let ran = run_file(alloc, &bytes, *steps, &[], &[])?;
        assert!(&rt; ran.status.cause == Cause::StepsSpent, "{code}");
        assert!(&rt; ran.output.shown() == output.as_bytes(), "{code}");
    }
    Ok(())
}

#[test]
fn results_are_those_of_the_manual(rt: HostRuntime) -> Result<(), Fail> {
    let alloc = rt.alloc();
    for (loads, op, result) in RESULTS {
        let code = format!(in alloc; "{loads}{op}3800000144000002")?;
        let bytes = program(alloc, code.as_str())?;
        let ran = run_file(alloc, &bytes, MANY, &[], &[])?;
        assert!(&rt; ran.status.cause == Cause::GuestExit(*result), "{op}");
    }
    Ok(())
}

// A failing input gives error 5; the program then writes five bytes of its stack. So does its translation.
#[test]
fn a_failed_read_is_an_error(rt: HostRuntime) -> Result<(), Fail> {
    let alloc = rt.alloc();
    let bytes = program(alloc, ECHO)?;
    let written = translated(&rt, alloc, &bytes)?;
    for file in [bytes, written] {
        let ran = run_file(alloc, &file, MANY, b"hi", &[1])?;
        assert!(&rt; ran.status.cause == Cause::GuestExit(0) && ran.status.code == 0);
        assert!(&rt; ran.output.shown() == [0u8, 0, 0, 0, 0].as_slice());
    }
    Ok(())
}

// What a program puts stands before the tool's own line, and its number is the status modulo 256.
#[test]
fn ends_are_told(rt: HostRuntime) -> Result<(), Fail> {
    let alloc = rt.alloc();
    let bytes = program(alloc, FAILS)?;
    let ran = run_file(alloc, &bytes, MANY, &[], &[])?;
    assert!(&rt; ran.status.code == 76 && ran.errors.shown() == b"hellotrans: trap\n".as_slice());
    let bytes = program(alloc, "380000013860010744000002")?;
    let ran = run_file(alloc, &bytes, MANY, &[], &[])?;
    assert!(&rt; ran.status.cause == Cause::GuestExit(0x107) && ran.status.code == 7);
    assert!(&rt; ran.errors.shown().is_empty());
    Ok(())
}

// What a translation wrote is run as IA-32: it puts what the program puts, and ends as the program does, unless that went
// outside.
#[test]
fn translations_are_run(rt: HostRuntime) -> Result<(), Fail> {
    let alloc = rt.alloc();
    for (code, _, input, cause, output) in RUNS {
        let written = translated(&rt, alloc, &program(alloc, *code)?)?;
        let ran = run_file(alloc, &written, MANY, input.as_bytes(), &[])?;
        assert!(&rt;
            ran.status.cause == *cause || *cause == Cause::Outside,
            "{code}"
        );
        assert!(&rt; ran.output.shown() == output.as_bytes(), "{code}");
    }
    Ok(())
}

// The headers of an IA-32 file with one segment, up to the size of its code and behind that.
const HOST_BEFORE: &str = "7f454c46010101000000000000000000020003000100000000800408340000000000\
0000000000003400200001000000000000000100000054000000008004080080\
0408";

// How the first op of a program for IA-32 ends it: div by 0, int3, ud2, no op, and a jump behind the code.
#[test]
fn host_programs_end(rt: HostRuntime) -> Result<(), Fail> {
    let alloc = rt.alloc();
    for (code, cause) in [
        ("f7f1", Cause::DivideFault),
        ("cc", Cause::Trap),
        ("0f0b", Cause::Illegal),
        ("90", Cause::Illegal),
        ("e900000000", Cause::Outside),
    ] {
        let size = code.len() / 2;
        let text = format!(in alloc;
            "{HOST_BEFORE}{size:02x}000000{size:02x}0000000500000000100000{code}"
        )?;
        let bytes = hex::decode(alloc, text.as_bytes())?;
        let ran = run_file(alloc, &bytes, MANY, &[], &[])?;
        assert!(&rt; ran.status.cause == cause, "{code}");
    }
    Ok(())
}

// A file as a linker writes it: the code segment begins with the headers, whose words are never reached.
#[test]
fn linked_files_are_run(rt: HostRuntime) -> Result<(), Fail> {
    let alloc = rt.alloc();
    let size = BEHIND + 64;
    let code = Part {
        offset: 0,
        filesz: size,
        memsz: size,
        ..CODE
    };
    let front = Front {
        entry: 0x1000_0000 + BEHIND,
        ..FRONT
    };
    let parts = [code, zeros(0x1001_0000, 4096, 6), NOTE];
    let bytes = file(alloc, &front, &parts, CALLS)?;
    let ran = run_file(alloc, &bytes, MANY, &[], &[])?;
    assert!(&rt; ran.status.cause == Cause::GuestExit(184));
    Ok(())
}

// Two segments one behind the other, in front of which the code stands.
const LOW: Part = Part {
    segment_type: 1,
    offset: BEHIND + 16,
    vaddr: 0x1001_0000,
    filesz: 3,
    memsz: 3,
    flags: 4,
};

const HIGH: Part = Part {
    segment_type: 1,
    offset: BEHIND + 19,
    vaddr: 0x1001_0003,
    filesz: 2,
    memsz: 2,
    flags: 4,
};

const LOADS: Part = Part {
    segment_type: 1,
    offset: BEHIND,
    vaddr: 0x1000_0000,
    filesz: 16,
    memsz: 16,
    flags: 5,
};

// A load that crosses from one segment to another, and one that ends behind the last byte.
#[test]
fn accesses_cross_segments(rt: HostRuntime) -> Result<(), Fail> {
    let alloc = rt.alloc();
    let crossing = "3c8010018064000138000001440000020011223344";
    let bytes = file(alloc, &FRONT, &[LOADS, LOW, HIGH], crossing)?;
    let ran = run_file(alloc, &bytes, MANY, &[], &[])?;
    assert!(&rt; ran.status.cause == Cause::GuestExit(0x1122_3344));
    let beyond = "3c8010018064000238000001440000020011223344";
    let bytes = file(alloc, &FRONT, &[LOADS, LOW, HIGH], beyond)?;
    let ran = run_file(alloc, &bytes, MANY, &[], &[])?;
    assert!(&rt; ran.status.cause == Cause::Outside);
    Ok(())
}

// A segment that may be written and executed is data: a store to it is no fault, a jump into it is. There the translation
// goes nowhere.
#[test]
fn code_that_may_be_written_is_data(rt: HostRuntime) -> Result<(), Fail> {
    let alloc = rt.alloc();
    let data = Part {
        segment_type: 1,
        offset: BEHIND,
        vaddr: 0x1001_0000,
        filesz: 16,
        memsz: 16,
        flags: 7,
    };
    let stores = "3c801001906400003800000144000002";
    let bytes = file(alloc, &FRONT, &[LOADS, data, NOTE], stores)?;
    let ran = run_file(alloc, &bytes, MANY, &[], &[])?;
    assert!(&rt; ran.status.cause == Cause::GuestExit(0));
    let jumps = "3c8010017c8903a64e80042044000002";
    let bytes = file(alloc, &FRONT, &[LOADS, data, NOTE], jumps)?;
    let ran = run_file(alloc, &bytes, MANY, &[], &[])?;
    assert!(&rt; ran.status.cause == Cause::Outside);
    let written = translated(&rt, alloc, &bytes)?;
    let ran = run_file(alloc, &written, MANY, &[], &[])?;
    assert!(&rt; ran.status.cause == Cause::StepsSpent);
    Ok(())
}
