// Files that are refused: the first rule that they break, through the top call.

use super::files::{CODE, EXIT, FRONT, Front, NOTE, Part, file, zeros};
use super::{TRANSLATE, first, is_refused, run_over};
use elf_load::ElfRefusal;
use std::alloc::Global;
use std::process::Abort;
use std::test::Fail;
use trans_tool::Cause;

// A rule, its number, and the offset of what breaks it.
type Broken = (ElfRefusal, u8, u32);

// The file is refused with this rule.
fn breaks(rt: &impl Abort, alloc: Global, bytes: &[u8], broken: Broken) -> Result<(), Fail> {
    let (rule, number, offset) = broken;
    let line = format!(in alloc; "trans: elf refusal {number} at offset {offset}\n")?;
    let end = (Cause::BadElf(rule, offset), 65, line.as_str());
    is_refused(rt, alloc, TRANSLATE, bytes, &[], &[], end)
}

// The file of these program headers, whose entry is this, is refused with this rule.
fn parts_break(
    rt: &impl Abort,
    alloc: Global,
    entry: u32,
    parts: &[Part],
    broken: Broken,
) -> Result<(), Fail> {
    let front = Front { entry, ..FRONT };
    breaks(rt, alloc, &file(alloc, &front, parts, EXIT)?, broken)
}

// The program is accepted and translated, whatever its words are.
fn is_accepted(rt: &impl Abort, alloc: Global, entry: u32, parts: &[Part]) -> Result<(), Fail> {
    let front = Front { entry, ..FRONT };
    let bytes = file(alloc, &front, parts, "000000007fe0000844000002")?;
    let run = run_over(alloc, TRANSLATE, &bytes, &[], &[], &[])?;
    assert!(rt; run.status.cause == Cause::Done && run.files.held("out") != None);
    Ok(())
}

#[test]
fn short_files_are_refused(rt: HostRuntime) -> Result<(), Fail> {
    let alloc = rt.alloc();
    let bytes = file(alloc, &FRONT, &[CODE, NOTE, NOTE], EXIT)?;
    for (size, broken) in [
        (0, (ElfRefusal::Short, 1, 0)),
        (51, (ElfRefusal::Short, 1, 0)),
        (52, (ElfRefusal::TableOutside, 10, 28)),
        (147, (ElfRefusal::TableOutside, 10, 28)),
        (148, (ElfRefusal::SegmentOutside, 12, 52)),
        (159, (ElfRefusal::SegmentOutside, 12, 52)),
    ] {
        breaks(&rt, alloc, first(&bytes, size), broken)?;
    }
    Ok(())
}

#[test]
fn programs_of_another_form_are_refused(rt: HostRuntime) -> Result<(), Fail> {
    let alloc = rt.alloc();
    let at = 0x1000_0000u32;
    let other = zeros(0x2000_0000, 12, 7);
    let entry = (ElfRefusal::Entry, 19, 24);
    for (start, parts, broken) in [
        (
            at,
            [zeros(at, 0x8_0004, 5), NOTE, NOTE],
            (ElfRefusal::CodeLong, 18, 52),
        ),
        (0x2000_0000, [CODE, other, NOTE], entry),
        (at + 2, [CODE, NOTE, NOTE], entry),
        (at + 12, [CODE, NOTE, NOTE], entry),
        (at - 4, [CODE, NOTE, NOTE], entry),
        (
            at,
            [CODE, NOTE, zeros(0x2000_0000, 12, 5)],
            (ElfRefusal::CodeCount, 17, 44),
        ),
        (at, [NOTE, NOTE, NOTE], (ElfRefusal::CodeCount, 17, 44)),
        (
            at,
            [CODE, NOTE, zeros(0x7eff_ff00, 0x101, 6)],
            (ElfRefusal::StackOverlap, 20, 116),
        ),
    ] {
        parts_break(&rt, alloc, start, &parts, broken)?;
    }
    Ok(())
}

// Each is at the bound that a file above goes past.
#[test]
fn programs_at_the_bounds_are_accepted(rt: HostRuntime) -> Result<(), Fail> {
    let alloc = rt.alloc();
    let at = 0x1000_0000u32;
    for (start, parts) in [
        (at, [zeros(at, 0x8_0000, 5), NOTE, NOTE]),
        (at + 8, [CODE, NOTE, NOTE]),
        (at, [CODE, zeros(0x7eff_ff00, 0x100, 6), NOTE]),
        (at, [zeros(0x7f10_0000, 4, 7), NOTE, CODE]),
    ] {
        is_accepted(&rt, alloc, start, &parts)?;
    }
    Ok(())
}

// The header of each file breaks two rules.
#[test]
fn the_earlier_rule_of_a_file_header_is_told(rt: HostRuntime) -> Result<(), Fail> {
    let alloc = rt.alloc();
    let magic = 0x7f45_4c47u32;
    for (front, broken) in [
        (
            Front {
                magic,
                class: 2,
                ..FRONT
            },
            (ElfRefusal::Magic, 2, 0),
        ),
        (
            Front {
                class: 2,
                order: 1,
                ..FRONT
            },
            (ElfRefusal::Class, 3, 4),
        ),
        (
            Front {
                order: 1,
                version: 2,
                ..FRONT
            },
            (ElfRefusal::Order, 4, 5),
        ),
        (
            Front {
                version: 0,
                long_version: 2,
                ..FRONT
            },
            (ElfRefusal::Version, 5, 6),
        ),
        (
            Front {
                long_version: 2,
                file_type: 3,
                ..FRONT
            },
            (ElfRefusal::Version, 5, 20),
        ),
        (
            Front {
                file_type: 3,
                machine: 3,
                ..FRONT
            },
            (ElfRefusal::Type, 6, 16),
        ),
        (
            Front {
                machine: 21,
                header_size: 40,
                ..FRONT
            },
            (ElfRefusal::Machine, 7, 18),
        ),
        (
            Front {
                header_size: 40,
                count: 0,
                ..FRONT
            },
            (ElfRefusal::HeaderSize, 8, 42),
        ),
        (
            Front {
                count: 65,
                table: 65,
                ..FRONT
            },
            (ElfRefusal::HeaderCount, 9, 44),
        ),
        (
            Front {
                table: 65,
                entry: 0,
                ..FRONT
            },
            (ElfRefusal::TableOutside, 10, 28),
        ),
    ] {
        let bytes = file(alloc, &front, &[CODE, NOTE, NOTE], EXIT)?;
        breaks(&rt, alloc, &bytes, broken)?;
    }
    let short = file(alloc, &Front { magic, ..FRONT }, &[], "")?;
    breaks(&rt, alloc, first(&short, 51), (ElfRefusal::Short, 1, 0))
}

// The program headers of each file break two rules, of which the later stands at an earlier header where it can.
#[test]
fn the_earlier_rule_of_program_headers_is_told(rt: HostRuntime) -> Result<(), Fail> {
    let alloc = rt.alloc();
    let at = 0x1000_0000u32;
    let outside = Part {
        filesz: 13,
        memsz: 16,
        ..CODE
    };
    let crossed = Part { memsz: 11, ..CODE };
    let interpreter = Part {
        segment_type: 3,
        ..CODE
    };
    let dynamic = Part {
        segment_type: 2,
        ..NOTE
    };
    let high = zeros(0xc000_0000, 1, 6);
    let large = zeros(0x2000_0000, 0x400_0000, 6);
    let long = zeros(0x1000_0000, 0x8_0004, 5);
    let other_code = zeros(0x2000_0000, 4, 5);
    let on_stack = zeros(0x7f0f_ffff, 1, 6);
    for (entry, parts, broken) in [
        (
            at,
            [outside, interpreter, NOTE],
            (ElfRefusal::Dynamic, 11, 84),
        ),
        (at, [crossed, NOTE, dynamic], (ElfRefusal::Dynamic, 11, 116)),
        (
            at,
            [crossed, outside, NOTE],
            (ElfRefusal::SegmentOutside, 12, 84),
        ),
        (
            at,
            [high, crossed, NOTE],
            (ElfRefusal::SizesCrossed, 13, 84),
        ),
        (at, [CODE, CODE, high], (ElfRefusal::HighSegment, 14, 116)),
        (
            at,
            [CODE, large, zeros(at + 11, 4, 6)],
            (ElfRefusal::Overlap, 15, 116),
        ),
        (
            at,
            [CODE, zeros(at - 4, 5, 6), large],
            (ElfRefusal::Overlap, 15, 84),
        ),
        (
            at,
            [other_code, CODE, zeros(0x3000_0000, 0x400_0000, 6)],
            (ElfRefusal::TooMuchMemory, 16, 116),
        ),
        (
            at,
            [long, other_code, NOTE],
            (ElfRefusal::CodeCount, 17, 44),
        ),
        (at - 4, [NOTE, long, NOTE], (ElfRefusal::CodeLong, 18, 84)),
        (at + 2, [on_stack, CODE, NOTE], (ElfRefusal::Entry, 19, 24)),
    ] {
        parts_break(&rt, alloc, entry, &parts, broken)?;
    }
    Ok(())
}

// One byte at each place keeps the program without room; one more meets the stack.
#[test]
fn the_stack_is_tried_before_room(rt: HostRuntime) -> Result<(), Fail> {
    let alloc = rt.alloc();
    let mut parts = Vec::new(alloc);
    parts.push(CODE)?;
    for number in 0u32..18 {
        parts.push(zeros(0x1204_7fff + number * 0x0a00_0000, 1, 6))?;
    }
    let front = Front { count: 19, ..FRONT };
    let bytes = file(alloc, &front, &parts, EXIT)?;
    breaks(&rt, alloc, &bytes, (ElfRefusal::NoRoom, 21, 44))?;
    parts.push(zeros(0x7f00_0000, 1, 6))?;
    let front = Front { count: 20, ..FRONT };
    let bytes = file(alloc, &front, &parts, EXIT)?;
    breaks(&rt, alloc, &bytes, (ElfRefusal::StackOverlap, 20, 660))
}

// Commands, options and values that the tool has not, and more words than a command has.
#[test]
fn other_words_are_refused(rt: HostRuntime) -> Result<(), Fail> {
    let alloc = rt.alloc();
    for line in [
        "translate in out more",
        "translate --rules=r in out",
        "translate in out --plan=out",
        "translate in --",
        "Translate in out",
        "translate  out",
        "translate in ",
        "list --x in",
        "list in --plan=p",
        "run",
        "run in in",
        "run --steps=1",
        "run in --steps",
        "run in --steps=",
        "run in --steps=01",
        "run in --steps=1000000000001",
        "run in --plan=p",
        "run in --steps=1 --steps=1",
        "learn in out",
        "learn in out --length=5",
        "audit in",
        "verify in r p",
        "demo 1",
        "upgrade in out",
        "--help",
        "in out",
    ] {
        are_refused(&rt, alloc, line)?;
    }
    Ok(())
}

// The words between the spaces of a line spell no command.
fn are_refused(rt: &impl Abort, alloc: Global, line: &str) -> Result<(), Fail> {
    let mut words = Vec::new(alloc);
    for word in line.split(' ') {
        words.push(word)?;
    }
    let end = (Cause::Usage, 64, "trans: bad words\n");
    is_refused(rt, alloc, &words, b"", &[1, 2], &[], end)
}

// No call on the file of OUT is made, and a line that cannot be put is a fault of the errors.
#[test]
fn refused_files_meet_faults(rt: HostRuntime) -> Result<(), Fail> {
    let alloc = rt.alloc();
    let end = (Cause::ErrFault, 73, "");
    is_refused(&rt, alloc, TRANSLATE, b"", &[], &[1], end)?;
    let end = (Cause::FileRead(0), 70, "trans: cannot read file 0\n");
    is_refused(&rt, alloc, TRANSLATE, b"", &[1], &[], end)?;
    let end = (
        Cause::BadElf(ElfRefusal::Short, 0),
        65,
        "trans: elf refusal 1 at offset 0\n",
    );
    is_refused(&rt, alloc, TRANSLATE, b"", &[2], &[2], end)
}

#[test]
fn files_over_16_mebibytes_are_too_long(rt: HostRuntime) -> Result<(), Fail> {
    let alloc = rt.alloc();
    let mut bytes = vec![in alloc; 0u8; 0x100_0001]?;
    let end = (Cause::TooLong(0), 69, "trans: file 0 is too long\n");
    is_refused(&rt, alloc, TRANSLATE, &bytes, &[], &[], end)?;
    bytes.truncate(0x100_0000);
    breaks(&rt, alloc, &bytes, (ElfRefusal::Magic, 2, 0))
}
