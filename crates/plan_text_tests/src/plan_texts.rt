//! Texts of plans both ways, and texts with one fault each.

use plan_form::{BlockPlan, Step, TextFault, Tile, parse, print};
use std::alloc::Global;
use std::test::Fail;

// The first line that is bad, and the lines.
type Case = (u32, &'static [u8]);

// Two blocks, with every kind of step.
const GOOD: &[u8] =
    b"plan 1\nblock 10000000 3 r3,-,r31 -,-,-\ntake ebx 3\nbase\nrule 4294967295\ndrop ebx\nat 0 0 17 4294967295\nat 1\nend\nblock ffffffff 0 -,-,- -,-,-\nend\n";

// The plan of a block of two words with a rule, and its labels.
const RULE: &[u8] =
    b"plan 1\nblock 10000028 2 -,-,- r3,-,-\ntake ebx 3\nrule 0\nat 0 0 3 3 3\nat 1 16 17 17 17\nat 2 4\nend\n";

// Titles, line feeds and ends.
fn frame_case(k: usize) -> Option<Case> {
    let case: Case = match k {
        // no line
        0 => (1, b""),
        // no line feed
        1 => (1, b"plan 1"),
        // another version
        2 => (1, b"plan 2\n"),
        // no title
        3 => (1, b"block 10000000 0 -,-,- -,-,-\nend\n"),
        // two spaces
        4 => (2, b"plan 1\nblock  10000000 0 -,-,- -,-,-\nend\n"),
        // a carriage return
        5 => (3, b"plan 1\nblock 10000000 0 -,-,- -,-,-\nend\r\n"),
        // no end
        6 => (4, b"plan 1\nblock 10000000 1 -,-,- -,-,-\nbase\n"),
        // an end without a line feed
        7 => (4, b"plan 1\nblock 10000000 1 -,-,- -,-,-\nbase\nend"),
        // bytes behind the end
        8 => (4, b"plan 1\nblock 10000000 0 -,-,- -,-,-\nend\nx"),
        // a step without a block
        9 => (2, b"plan 1\nbase\n"),
        _ => return None,
    };
    Some(case)
}

// Lines of blocks.
fn block_case(k: usize) -> Option<Case> {
    let case: Case = match k {
        // seven digits
        0 => (2, b"plan 1\nblock 1000000 0 -,-,- -,-,-\nend\n"),
        // an upper-case digit
        1 => (2, b"plan 1\nblock 1000000A 0 -,-,- -,-,-\nend\n"),
        // a leading zero
        2 => (2, b"plan 1\nblock 10000000 03 -,-,- -,-,-\nend\n"),
        // a number that is too large
        3 => (2, b"plan 1\nblock 10000000 4294967296 -,-,- -,-,-\nend\n"),
        // one GPR in two slots
        4 => (2, b"plan 1\nblock 10000000 0 r3,-,r3 -,-,-\nend\n"),
        // no GPR
        5 => (2, b"plan 1\nblock 10000000 0 r32,-,- -,-,-\nend\n"),
        // two slots
        6 => (2, b"plan 1\nblock 10000000 0 -,- -,-,-\nend\n"),
        // a fourth slot
        7 => (2, b"plan 1\nblock 10000000 0 -,-,-,- -,-,-\nend\n"),
        _ => return None,
    };
    Some(case)
}

// Steps and labels.
fn step_case(k: usize) -> Option<Case> {
    let case: Case = match k {
        // no slot
        0 => (3, b"plan 1\nblock 10000000 0 -,-,- -,-,-\ndrop eax\nend\n"),
        // no GPR
        1 => (
            3,
            b"plan 1\nblock 10000000 0 -,-,- -,-,-\ntake ebx 32\nend\n",
        ),
        // a step behind labels
        2 => (
            4,
            b"plan 1\nblock 10000000 0 -,-,- -,-,-\nat 0 0\nbase\nend\n",
        ),
        // a place that is left out
        3 => (3, b"plan 1\nblock 10000000 0 -,-,- -,-,-\nat 1 0\nend\n"),
        // a label that is too large
        4 => (
            3,
            b"plan 1\nblock 10000000 0 -,-,- -,-,-\nat 0 4294967296\nend\n",
        ),
        // a space behind a label
        5 => (3, b"plan 1\nblock 10000000 0 -,-,- -,-,-\nat 0 0 \nend\n"),
        _ => return None,
    };
    Some(case)
}

// Whether the line is told as the first bad one.
fn is_told(alloc: Global, line: u32, text: &[u8]) -> bool {
    match parse(alloc, text) {
        Err(TextFault::BadLine(n)) => n == line,
        _ => false,
    }
}

#[test]
fn a_bad_frame_is_told(rt: HostRuntime) {
    for k in 0..10 {
        let (line, text) = frame_case(k).expect(&rt, "a case");
        assert!(rt; is_told(rt.alloc(), line, text));
    }
}

#[test]
fn a_bad_block_is_told(rt: HostRuntime) {
    for k in 0..8 {
        let (line, text) = block_case(k).expect(&rt, "a case");
        assert!(rt; is_told(rt.alloc(), line, text));
    }
}

#[test]
fn a_bad_step_is_told(rt: HostRuntime) {
    for k in 0..6 {
        let (line, text) = step_case(k).expect(&rt, "a case");
        assert!(rt; is_told(rt.alloc(), line, text));
    }
}

// The plans of a text are printed as it.
fn is_printed_again(alloc: Global, text: &[u8]) -> Result<bool, TextFault> {
    let plans = parse(alloc, text)?;
    match print(alloc, &plans) {
        Ok(printed) => Ok(printed.as_slice() == text),
        Err(error) => Err(TextFault::Memory(error)),
    }
}

#[test]
fn a_text_is_printed_again(rt: HostRuntime) -> Result<(), Fail> {
    assert!(rt; is_printed_again(rt.alloc(), b"plan 1\n")?);
    assert!(rt; is_printed_again(rt.alloc(), GOOD)?);
    assert!(rt; is_printed_again(rt.alloc(), RULE)?);
    Ok(())
}

// The block of the text with a rule: its bounds, its steps and its last label.
fn is_as_written(block: &BlockPlan) -> bool {
    let bounds = block.at == 0x1000_0028
        && block.words == 2
        && block.entry.ebx.is_none()
        && block.exit.ebx == Some(3);
    let [_, step] = block.plan.steps.as_slice() else {
        return false;
    };
    let [_, labels, end] = block.labels.values.as_slice() else {
        return false;
    };
    bounds
        && matches!(*step, Step::Lay(Tile::Rule(0)))
        && matches!(labels.as_slice(), [16, 17, 17, 17])
        && matches!(end.as_slice(), [4])
}

#[test]
fn a_plan_is_read(rt: HostRuntime) -> Result<(), Fail> {
    let plans = parse(rt.alloc(), RULE)?;
    assert_eq!(rt; plans.len(), 1);
    assert!(rt; is_as_written(&plans[0]));
    Ok(())
}
