ghost use Rattle.std.specs.Prelude.{IfOk};
ghost use Rattle.space.specs.Memory.{AreApart};

use space::{Bytes, Kind, Program, Segment, Segments, Space};
use std::alloc::{AllocError, Global};
use word_kit::NoMemory;

#[test]
fn a_program_gives_its_parts_back(rt: HostRuntime) -> Result<(), AllocError> {
    let alloc = rt.alloc();
    let code = Segment {
        at: 0x1000_0000,
        write: false,
        exec: true,
        bytes: Bytes::from(Vec::from_array(alloc, [0x44u8, 0, 0, 2])?),
    };
    let mut segments = Vec::new(alloc);
    segments.push(code)?;
    let program = Program {
        kind: Kind::PowerPc,
        entry: 0x1000_0000,
        segments: Segments::from(segments),
        code: 0,
    };
    assert!(rt; program.segments.as_slice().len() == 1);
    let mut given_back = program.segments.into_vec();
    if let Some(segment) = given_back.pop() {
        assert!(rt; segment.bytes.as_slice() == [0x44u8, 0, 0, 2].as_slice());
        assert!(rt; segment.bytes.into_vec().len() == 4);
    }
    Ok(())
}

// A code segment, and behind it two segments side by side, of which the first may be written.
fn sample(alloc: Global) -> Result<Program, NoMemory>
    ensures { IfOk result (λ program. AreApart program.segments) }
{
    let code = Segment {
        at: 0x1000_0000,
        write: false,
        exec: true,
        bytes: Bytes::from(Vec::from_array(alloc, [0x44u8, 0, 0, 2, 0x60])?),
    };
    let first = Segment {
        at: 0x1001_0000,
        write: true,
        exec: false,
        bytes: Bytes::from(Vec::from_array(alloc, [0x00u8, 0x11, 0x22])?),
    };
    let second = Segment {
        at: 0x1001_0003,
        write: false,
        exec: false,
        bytes: Bytes::from(Vec::from_array(alloc, [0x33u8, 0x44])?),
    };
    let mut segments = Vec::new(alloc);
    segments.push(code)?;
    segments.push(first)?;
    segments.push(second)?;
    Ok(Program {
        kind: Kind::PowerPc,
        entry: 0x1000_0000,
        segments: Segments::from(segments),
        code: 0,
    })
}

#[test]
fn bytes_are_read_over_segments_side_by_side(rt: HostRuntime) -> Result<(), NoMemory> {
    let space = Space::of(rt.alloc(), &sample(rt.alloc())?)?;
    assert!(rt; space.read(0x1000_ffff) == None);
    assert!(rt; space.read(0x1001_0000) == Some(0x00));
    assert!(rt; space.read(0x1001_0004) == Some(0x44));
    assert!(rt; space.read(0x1001_0005) == None);
    assert!(rt; !space.holds(0x1001_0002, 4, false));
    assert!(rt; space.holds(0x1001_0005, 0, true));
    assert!(rt; space.holds(0x1001_0001, 4, false));
    let mut bytes = [0u8; 4];
    space.copy(0x1001_0001, &mut bytes);
    assert!(rt; bytes == [0x11, 0x22, 0x33, 0x44]);
    Ok(())
}

#[test]
fn a_program_gives_its_own_bytes(rt: HostRuntime) -> Result<(), NoMemory> {
    let space = Space::owning(sample(rt.alloc())?);
    assert!(rt; space.read(0x1001_0004) == Some(0x44));
    assert!(rt; space.fetch(0x1000_0000) == Some(0x4400_0002));
    Ok(())
}

#[test]
fn only_bytes_that_may_be_written_are_changed(rt: HostRuntime) -> Result<(), NoMemory> {
    let mut space = Space::of(rt.alloc(), &sample(rt.alloc())?)?;
    assert!(rt; space.write(0x1001_0001, 0xaa));
    assert!(rt; !space.write(0x1001_0003, 0xbb));
    assert!(rt; !space.write(0x1000_0000, 0xcc));
    assert!(rt; space.read(0x1001_0000) == Some(0x00));
    assert!(rt; space.read(0x1001_0001) == Some(0xaa));
    assert!(rt; space.read(0x1001_0003) == Some(0x33));
    assert!(rt; space.holds(0x1001_0001, 2, true));
    assert!(rt; !space.holds(0x1001_0001, 3, true));
    assert!(rt; space.fetch(0x1000_0000) == Some(0x4400_0002));
    Ok(())
}

#[test]
fn words_are_fetched_from_code_alone(rt: HostRuntime) -> Result<(), NoMemory> {
    let space = Space::of(rt.alloc(), &sample(rt.alloc())?)?;
    assert!(rt; space.fetch(0x1000_0000) == Some(0x4400_0002));
    assert!(rt; space.fetch(0x1000_0001) == None);
    assert!(rt; space.fetch(0x1000_0004) == None);
    assert!(rt; space.fetch(0x1001_0000) == None);
    assert!(rt; space.code_from(0x1000_0003) == Some([2u8, 0x60].as_slice()));
    assert!(rt; space.code_from(0x1001_0000).is_none());
    Ok(())
}
