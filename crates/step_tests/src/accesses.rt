ghost use Rattle.std.specs.Prelude.{IfOk};
ghost use Rattle.space.specs.Memory.{AreApart};
ghost use Rattle.access.specs.Kept.{HasClosedCode};

use access::{first_memory, holds, load_big, load_little, store_big, store_little};
use space::{Bytes, Kind, Program, Segment, Segments, Space};
use std::alloc::Global;
use word_kit::NoMemory;

// Code, and behind it a segment that may be written.
fn sample(alloc: Global) -> Result<Program, NoMemory>
    ensures apart { IfOk result (λ program. AreApart program.segments) }
    ensures closed { IfOk result (λ program. HasClosedCode program) }
{
    let code = Segment {
        at: 0x1000_0000,
        write: false,
        exec: true,
        bytes: Bytes::from(Vec::from_array(alloc, [0x44u8, 0, 0, 2])?),
    };
    let data = Segment {
        at: 0x1000_0004,
        write: true,
        exec: false,
        bytes: Bytes::from(Vec::from_array(alloc, [0x11u8, 0x22, 0x33, 0x44])?),
    };
    let mut segments = Vec::new(alloc);
    segments.push(code)?;
    segments.push(data)?;
    Ok(Program {
        kind: Kind::PowerPc,
        entry: 0x1000_0000,
        segments: Segments::from(segments),
        code: 0,
    })
}

fn memory(alloc: Global) -> Result<Space, NoMemory> {
    first_memory(alloc, &sample(alloc)?)
}

#[test]
fn numbers_are_read_in_both_orders(rt: HostRuntime) -> Result<(), NoMemory> {
    let space = memory(rt.alloc())?;
    assert!(rt; load_big(&space, 0x1000_0003, 4) == Some(0x0211_2233));
    assert!(rt; load_little(&space, 0x1000_0005, 2) == Some(0x3322));
    assert!(rt; load_big(&space, 0x1000_0007, 2) == None);
    assert!(rt; !holds(&space, 0x1000_0003, 2, true));
    Ok(())
}

#[test]
fn numbers_are_stored_whole_or_not_at_all(rt: HostRuntime) -> Result<(), NoMemory> {
    let mut space = memory(rt.alloc())?;
    assert!(rt; !store_big(&mut space, 0x1000_0003, 2, 0xffff));
    assert!(rt; load_big(&space, 0x1000_0004, 4) == Some(0x1122_3344));
    assert!(rt; store_big(&mut space, 0x1000_0004, 2, 0xabcd));
    assert!(rt; load_big(&space, 0x1000_0004, 4) == Some(0xabcd_3344));
    assert!(rt; store_little(&mut space, 0x1000_0004, 4, 0x0102_0304));
    assert!(rt; load_big(&space, 0x1000_0004, 4) == Some(0x0403_0201));
    Ok(())
}
