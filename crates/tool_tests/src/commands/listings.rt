// Listings, through the top call.

use super::{Run, TRANSLATE, first, is_refused, program, run_over};
use elf_load::ElfRefusal;
use std::alloc::Global;
use std::process::Abort;
use std::test::Fail;
use trans_tool::{Cause, Status};

const LIST: &[&str] = &["list", "in"];

// The listing of a file was put, whole, and begins with this text.
fn is_listed(rt: &impl Abort, alloc: Global, file: &[u8], text: &str) -> Result<Run, Fail> {
    let run = run_over(alloc, LIST, file, &[], &[], &[])?;
    assert!(rt;
        run.status
            == Status {
                code: 0,
                cause: Cause::Done
            }
    );
    assert!(rt; run.errors.shown().is_empty() && run.files.held("in") == Some(file));
    assert!(rt; run.output.shown().starts_with(text.as_bytes()), "{text}");
    Ok(run)
}

#[test]
fn words_are_listed(rt: HostRuntime) -> Result<(), Fail> {
    let alloc = rt.alloc();
    let file = program(alloc, "380000013860000744000002")?;
    let text = "10000000 38000001 addi\n10000004 38600007 addi\n10000008 44000002 sc\n";
    let run = is_listed(&rt, alloc, &file, text)?;
    assert!(rt; run.output.shown() == text.as_bytes());
    let text = "10000000 00000000 illegal\n";
    let run = is_listed(&rt, alloc, &program(alloc, "00000000")?, text)?;
    assert!(rt; run.output.shown() == text.as_bytes());
    Ok(())
}

// The file that a translation wrote is listed as IA-32.
#[test]
fn ops_are_listed(rt: HostRuntime) -> Result<(), Fail> {
    let alloc = rt.alloc();
    let file = program(alloc, "380000013860000744000002")?;
    let run = run_over(alloc, TRANSLATE, &file, &[], &[], &[])?;
    let written = run.files.held("out").unwrap_or(&[]);
    let text = "10082000 e9fbffffff jmp\n10082005 b801000000 mov\n";
    is_listed(&rt, alloc, written, text)?;
    Ok(())
}

// What is too short for a byte 5 is read as PowerPC.
#[test]
fn files_that_are_no_program_are_refused(rt: HostRuntime) -> Result<(), Fail> {
    let alloc = rt.alloc();
    let end = (
        Cause::BadElf(ElfRefusal::Short, 0),
        65,
        "trans: elf refusal 1 at offset 0\n",
    );
    is_refused(&rt, alloc, LIST, b"", &[], &[], end)?;
    let file = program(alloc, "380000013860000744000002")?;
    is_refused(&rt, alloc, LIST, first(&file, 51), &[], &[], end)?;
    let mut small_order = file.to_vec(alloc)?;
    if let Some(order) = small_order.get_mut(5) {
        *order = 1;
    }
    let end = (
        Cause::BadElf(ElfRefusal::Version, 20),
        65,
        "trans: elf refusal 5 at offset 20\n",
    );
    is_refused(&rt, alloc, LIST, &small_order, &[], &[], end)?;
    let end = (
        Cause::BadElf(ElfRefusal::SegmentOutside, 52),
        65,
        "trans: elf refusal 12 at offset 52\n",
    );
    is_refused(&rt, alloc, LIST, first(&file, 95), &[], &[], end)
}

#[test]
fn faults_end_a_listing(rt: HostRuntime) -> Result<(), Fail> {
    let alloc = rt.alloc();
    let file = program(alloc, "380000013860000744000002")?;
    let end = (Cause::FileRead(0), 70, "trans: cannot read file 0\n");
    is_refused(&rt, alloc, &["list", "no"], &file, &[], &[], end)?;
    is_refused(&rt, alloc, LIST, &file, &[1], &[], end)?;
    let run = run_over(alloc, LIST, &file, &[], &[2], &[])?;
    assert!(&rt;
        run.status
            == Status {
                code: 72,
                cause: Cause::OutFault
            }
    );
    assert!(&rt; run.errors.shown() == b"trans: output failed\n".as_slice());
    assert!(&rt; run.output.shown() == b"10000000 38000001 addi\n".as_slice());
    Ok(())
}

#[test]
fn bad_words_list_no_file(rt: HostRuntime) -> Result<(), Fail> {
    let alloc = rt.alloc();
    let end = (Cause::Usage, 64, "trans: bad words\n");
    is_refused(&rt, alloc, &["list"], b"", &[1], &[], end)?;
    is_refused(&rt, alloc, &["list", ""], b"", &[1], &[], end)?;
    is_refused(&rt, alloc, &["list", "in", "out"], b"", &[1], &[], end)?;
    is_refused(&rt, alloc, &["list", "--in"], b"", &[1], &[], end)?;
    let option: &[&str] = &["list", "in", "--steps=1"];
    is_refused(&rt, alloc, option, b"", &[1], &[], end)
}
