// A loop that calls a function, whose blocks were read off by hand.

use block_find::{Block, blocks};
use elf_load::load;
use space::Kind;
use std::alloc::Global;
use std::process::Abort;
use std::test::Fail;

// A file whose one segment is code: li r31,1000; li r3,0; bl to the ninth word; addic. r31,r31,-1; bne to the third word;
// clrlwi r3,r3,24; li r0,1; sc; and a function of eight words up to its blr.
fn file(alloc: Global) -> Result<Vec<u8>, Fail> {
    let front = "7f454c46010201000000000000000000000200140000000110000000";
    let header = "000000340000000000000000003400200001000000000000";
    let segment = "0000000100000054100000001000000000000040000000400000000500001000";
    let before = "3be003e8386000004800001937ffffff4082fff85463063e3800000144000002";
    let behind = "9421fff07c0802a69001001438630003800100147c0803a6382100104e800020";
    let text = format!(in alloc; "{front}{header}{segment}{before}{behind}")?;
    Ok(hex::decode(alloc, text.as_bytes())?)
}

// The blocks have these addresses and numbers of words.
fn are(rt: &impl Abort, blocks: &[Block], wanted: &[(u32, usize)]) {
    assert_eq!(rt; blocks.len(), wanted.len());
    for (block, (at, count)) in blocks.iter().zip(wanted) {
        assert_eq!(rt; block.at, *at);
        assert_eq!(rt; block.words.as_slice().len(), *count);
    }
}

#[test]
fn a_loop_that_calls_a_function(rt: HostRuntime) -> Result<(), Fail> {
    let alloc = rt.alloc();
    let file = file(alloc)?;
    if file.len() >= 1000 {
        panic!(&rt; "long file");
    }
    let Ok(program) = load(alloc, &file, Kind::PowerPc) else {
        panic!(&rt; "refused");
    };
    let blocks = blocks(alloc, &program)?;
    let leaders = [
        (0x1000_0000, 2),
        (0x1000_0008, 1),
        (0x1000_000c, 2),
        (0x1000_0014, 3),
        (0x1000_0020, 8),
    ];
    are(&rt, blocks.leaders.as_slice(), &leaders);
    let singles = [
        (0x1000_0004, 1),
        (0x1000_0010, 1),
        (0x1000_0018, 1),
        (0x1000_001c, 1),
        (0x1000_0024, 1),
        (0x1000_0028, 1),
        (0x1000_002c, 1),
        (0x1000_0030, 1),
        (0x1000_0034, 1),
        (0x1000_0038, 1),
        (0x1000_003c, 1),
    ];
    are(&rt, blocks.singles.as_slice(), &singles);
    Ok(())
}
