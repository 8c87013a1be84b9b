ghost use Rattle.std.specs.Prelude.{◌≤◌, IfOk, length};
ghost use Rattle.space.specs.Memory.{AreApart};
ghost use Rattle.access.specs.Kept.{HasClosedCode};

use ia_step::{Choice, Machine};
use space::{Answer, Bytes, CallKind, End, Event, Kind, Program, Segment, Segments};
use std::alloc::{AllocError, Global};
use word_kit::NoMemory;

// A program with this code, and 16 bytes that may be written.
fn program(alloc: Global, code: &[u8]) -> Result<Program, NoMemory>
    requires { length code.now ≤ 4096 }
    ensures apart { IfOk result (λ p. AreApart p.segments) }
    ensures closed { IfOk result (λ p. HasClosedCode p) }
{
    let code = Segment {
        at: 0x1000_0000,
        write: false,
        exec: true,
        bytes: Bytes::from(Vec::from_slice(alloc, code)?),
    };
    let data = Segment {
        at: 0x2000_0000,
        write: true,
        exec: false,
        bytes: Bytes::from(Vec::from_array(alloc, [0u8; 16])?),
    };
    let mut segments = Vec::new(alloc);
    segments.push(code)?;
    segments.push(data)?;
    Ok(Program {
        kind: Kind::Ia32,
        entry: 0x1000_0000,
        segments: Segments::from(segments),
        code: 0,
    })
}

#[test]
fn a_program_exits(rt: HostRuntime) -> Result<(), NoMemory> {
    let alloc = rt.alloc();
    // mov eax,1; mov ebx,7; int 0x80
    let program = program(alloc, b"\xb8\x01\x00\x00\x00\xbb\x07\x00\x00\x00\xcd\x80")?;
    let mut machine = Machine::boot(alloc, &program, Vec::new(alloc))?;
    assert!(rt; machine.step() == Event::Went);
    assert!(rt; machine.step() == Event::Went);
    assert!(rt; machine.reg(3) == 7);
    assert!(rt; machine.step() == Event::Ended(End::Exit(7)));
    assert!(rt; machine.step() == Event::Ended(End::Exit(7)));
    Ok(())
}
