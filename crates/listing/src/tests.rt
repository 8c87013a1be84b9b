// Listings of code that lies in memory.

ghost use Rattle.std.specs.Prelude.{◌+◌, ◌^◌, ◌≤◌, IfOk, length};

use crate::ops::list_ops;
use crate::words::list_words;
use outside::{Failed, MemSink};
use space::{Bytes, Segment};
use std::alloc::Global;
use std::test::Fail;

// Code of these bytes at a low address.
fn code(alloc: Global, at: u16, text: &str) -> Result<Segment, Fail>
    ensures { IfOk result (λ code. code.at + length code.bytes ≤ 2 ^ 32) }
{
    let mut bytes = hex::decode(alloc, text)?;
    bytes.truncate(100);
    Ok(Segment {
        at: u32::from(at),
        write: false,
        exec: true,
        bytes: Bytes::from(bytes),
    })
}

fn sink(alloc: Global, failing: u64) -> Result<MemSink, Fail> {
    let mut calls = Vec::new(alloc);
    calls.push(failing)?;
    Ok(MemSink::of(alloc, 1000, calls)?)
}

// Bytes before the first multiple of 4 and behind the last whole word have no line.
#[test]
fn words_have_lines(rt: HostRuntime) -> Result<(), Fail> {
    let alloc = rt.alloc();
    let mut output = sink(alloc, 0)?;
    let words = code(alloc, 0x1002, "ffff3800000100000000388000")?;
    assert!(rt; list_words(&words, &mut output) == Ok(()));
    let lines = "00001004 38000001 addi\n00001008 00000000 illegal\n";
    assert!(rt; output.shown() == lines.as_bytes());
    Ok(())
}

// The op that stands last is cut short.
#[test]
fn ops_have_lines(rt: HostRuntime) -> Result<(), Fail> {
    let alloc = rt.alloc();
    let mut output = sink(alloc, 0)?;
    let ops = code(alloc, 0x1001, "e9fbffffff90ccb801")?;
    assert!(rt; list_ops(&ops, &mut output) == Ok(()));
    let lines =
        "00001001 e9fbffffff jmp\n00001006 90 bad\n00001007 cc int3\n00001008 b8 bad\n00001009 01 bad\n";
    assert!(rt; output.shown() == lines.as_bytes());
    Ok(())
}

#[test]
fn a_fault_ends_the_listing(rt: HostRuntime) -> Result<(), Fail> {
    let alloc = rt.alloc();
    let mut output = sink(alloc, 2)?;
    let words = code(alloc, 0x1000, "7c642a1544000002")?;
    assert!(rt; list_words(&words, &mut output) == Err(Failed));
    assert!(rt; output.shown() == b"00001000 7c642a15 add.\n".as_slice());
    Ok(())
}
