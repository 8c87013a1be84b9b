ghost use Rattle.std.specs.Prelude.{IfOk};
ghost use Rattle.space.specs.Memory.{AreApart};
ghost use Rattle.access.specs.Kept.{HasClosedCode};
ghost use Rattle.machine_calls.specs.Phases.{IsWaiting};

use ppc_step::Machine;
use space::{Bytes, End, Event, Kind, Program, Segment, Segments};
use std::alloc::Global;
use word_kit::NoMemory;

// li r0,1; li r3,7; sc
fn exits_with_seven(alloc: Global) -> Result<Program, NoMemory>
    ensures apart { IfOk result (λ program. AreApart program.segments) }
    ensures closed { IfOk result (λ program. HasClosedCode program) }
{
    let code = Segment {
        at: 0x1000_0000,
        write: false,
        exec: true,
        bytes: Bytes::from(Vec::from_array(
            alloc,
            [0x38u8, 0, 0, 1, 0x38, 0x60, 0, 7, 0x44, 0, 0, 2],
        )?),
    };
    let mut segments = Vec::new(alloc);
    segments.push(code)?;
    Ok(Program {
        kind: Kind::PowerPc,
        entry: 0x1000_0000,
        segments: Segments::from(segments),
        code: 0,
    })
}

// Two steps that go on, and what the third does.
fn third_step(machine: &mut Machine) -> Option<Event>
    requires { IsWaiting machine.old.phase → ⊥ }
{
    let Event::Went = machine.step() else {
        return None;
    };
    let Event::Went = machine.step() else {
        return None;
    };
    Some(machine.step())
}

#[test]
fn a_program_exits(rt: HostRuntime) -> Result<(), NoMemory> {
    let mut machine = Machine::boot(rt.alloc(), &exits_with_seven(rt.alloc())?)?;
    assert!(rt; machine.gpr(1) == 0x7f0f_ffc0);
    assert!(rt; third_step(&mut machine) == Some(Event::Ended(End::Exit(7))));
    assert!(rt; machine.gpr(3) == 7);
    Ok(())
}
