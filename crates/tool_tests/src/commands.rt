// Runs of the top call over files, a source and sinks in memory.

use elf_load::ElfRefusal;
use outside::{MemFiles, MemSink, MemSource};
use std::alloc::{AllocError, Global};
use std::process::Abort;
use std::test::Fail;
use trans_tool::{Cause, Status, top};

// The headers of a file, as an outside assembler makes them, around the size of its segment.
const BEFORE_SIZE: &str = "7f454c4601020100000000000000000000020014000000011000000000000034\
0000000000000000003400200001000000000000000000010000005410000000\
10000000";

const BEHIND_SIZE: &str = "0000000500001000";

mod files;
mod listings;
mod programs;
mod refusals;
mod running;

const TRANSLATE: &[&str] = &["translate", "in", "out"];

// How many bytes the output takes.
const ROOM: usize = 100_000;

// How a run ended, what it put to the output and to the errors, and the files behind it.
#[derive(Drop)]
struct Run {
    status: Status,
    output: MemSink,
    errors: MemSink,
    files: MemFiles,
}

fn words_of(alloc: Global, words: &[&str]) -> Result<Vec<String>, AllocError> {
    let mut all = Vec::new(alloc);
    for word in words {
        all.push(String::from_str(alloc, word)?)?;
    }
    Ok(all)
}

// The file of a program with this code.
fn program(alloc: Global, code: &str) -> Result<Vec<u8>, Fail> {
    let size = code.len() / 2;
    let text = format!(in alloc; "{BEFORE_SIZE}{size:08x}{size:08x}{BEHIND_SIZE}{code}")?;
    Ok(hex::decode(alloc, text.as_bytes())?)
}

// The first bytes of a file.
fn first(file: &[u8], count: usize) -> &[u8] {
    file.get(..count).unwrap_or(&[])
}

fn run_over(
    alloc: Global,
    words: &[&str],
    input: &[u8],
    failing: &[u64],
    output_failing: &[u64],
    errors_failing: &[u64],
) -> Result<Run, Fail> {
    let mut held = Vec::new(alloc);
    held.push((String::from_str(alloc, "in")?, input.to_vec(alloc)?))?;
    let mut files = MemFiles::of(alloc, held, failing.to_vec(alloc)?);
    let mut source = MemSource::of(Vec::new(alloc), Vec::new(alloc));
    let mut output = MemSink::of(alloc, ROOM, output_failing.to_vec(alloc)?)?;
    let mut errors = MemSink::of(alloc, 100, errors_failing.to_vec(alloc)?)?;
    let words = words_of(alloc, words)?;
    let status = top(
        alloc,
        &words,
        &mut files,
        &mut source,
        &mut output,
        &mut errors,
    );
    Ok(Run {
        status,
        output,
        errors,
        files,
    })
}

// The file of this code is translated to one of this length, which has these bytes from some places on.
fn is_translated(
    rt: &impl Abort,
    alloc: Global,
    code: &str,
    length: usize,
    parts: &[(usize, &str)],
) -> Result<(), Fail> {
    let file = program(alloc, code)?;
    let run = run_over(alloc, TRANSLATE, &file, &[], &[], &[])?;
    assert!(rt;
        run.status
            == Status {
                code: 0,
                cause: Cause::Done
            }
    );
    assert!(rt; run.errors.shown().is_empty() && run.output.shown().is_empty());
    assert!(rt; run.files.held("in") == Some(file.as_slice()));
    let written = run.files.held("out").unwrap_or(&[]);
    assert_eq!(rt; written.len(), length, "{code}");
    for (at, bytes) in parts {
        let text = hex::encode(alloc, written.get(*at..).unwrap_or(&[]))?;
        assert!(rt; text.as_str().starts_with(*bytes), "{bytes} at {at}");
    }
    Ok(())
}

// The run ends so, and leaves the files as they were.
fn is_refused(
    rt: &impl Abort,
    alloc: Global,
    words: &[&str],
    input: &[u8],
    failing: &[u64],
    errors_failing: &[u64],
    end: (Cause, u8, &str),
) -> Result<(), Fail> {
    let (cause, code, line) = end;
    let run = run_over(alloc, words, input, failing, &[], errors_failing)?;
    assert!(rt; run.status == Status { code, cause }, "{line}");
    assert!(rt; run.errors.shown() == line.as_bytes(), "{line}");
    assert!(rt; run.output.shown().is_empty());
    assert!(rt; run.files.held("out") == None && run.files.held("in") == Some(input));
    Ok(())
}

// The entry, the table and the first ops of the code stand where they are to.
#[test]
fn plain_files_are_translated(rt: HostRuntime) -> Result<(), Fail> {
    let alloc = rt.alloc();
    let exit = [
        (24, "05200810"),
        (0x3000, "05200810cc200810dc200810"),
        (0x4000, "e9fbffffff"),
        (0x4005, "b801000000890500100010b80700000089050c100010"),
    ];
    is_translated(&rt, alloc, "380000013860000744000002", 16781, &exit)?;
    let jump = "4800000838600001386000073800000144000002";
    is_translated(&rt, alloc, jump, 16802, &[(24, "05200810")])?;
    is_translated(&rt, alloc, "38000063440000023800000144000002", 17119, &[])?;
    is_translated(&rt, alloc, "00000000", 16391, &[(0x4005, "0f0b")])?;
    is_translated(&rt, alloc, "7fe00008", 16437, &[])
}

#[test]
fn other_files_are_refused(rt: HostRuntime) -> Result<(), Fail> {
    let alloc = rt.alloc();
    let file = program(alloc, "380000013860000744000002")?;
    let end = (
        Cause::BadElf(ElfRefusal::TableOutside, 28),
        65,
        "trans: elf refusal 10 at offset 28\n",
    );
    is_refused(&rt, alloc, TRANSLATE, first(&file, 83), &[], &[], end)?;
    let end = (
        Cause::BadElf(ElfRefusal::SegmentOutside, 52),
        65,
        "trans: elf refusal 12 at offset 52\n",
    );
    is_refused(&rt, alloc, TRANSLATE, first(&file, 95), &[], &[], end)
}

// A file that was touched would be a fault, since both first calls fail.
#[test]
fn bad_words_touch_no_file(rt: HostRuntime) -> Result<(), Fail> {
    let alloc = rt.alloc();
    let end = (Cause::Usage, 64, "trans: bad words\n");
    is_refused(&rt, alloc, &[], b"", &[1, 2], &[], end)?;
    is_refused(&rt, alloc, &["translate", "a"], b"", &[1, 2], &[], end)?;
    let option: &[&str] = &["translate", "in", "--out"];
    is_refused(&rt, alloc, option, b"", &[1, 2], &[], end)?;
    let end = (Cause::ErrFault, 73, "");
    is_refused(&rt, alloc, &["translate", "a"], b"", &[], &[1], end)
}

#[test]
fn faults_are_told(rt: HostRuntime) -> Result<(), Fail> {
    let alloc = rt.alloc();
    let file = program(alloc, "380000013860000744000002")?;
    let end = (Cause::FileRead(0), 70, "trans: cannot read file 0\n");
    let absent: &[&str] = &["translate", "no", "out"];
    is_refused(&rt, alloc, absent, &file, &[], &[], end)?;
    is_refused(&rt, alloc, TRANSLATE, &file, &[1], &[], end)?;
    let end = (Cause::FileWrite(1), 71, "trans: cannot write file 1\n");
    is_refused(&rt, alloc, TRANSLATE, &file, &[2], &[], end)?;
    let end = (Cause::ErrFault, 73, "");
    is_refused(&rt, alloc, TRANSLATE, &file, &[1], &[1], end)
}
