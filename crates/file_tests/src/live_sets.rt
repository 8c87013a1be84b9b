// A small program whose live sets were worked out by hand.

use elf_load::load;
use liveness::live;
use space::Kind;
use std::alloc::Global;
use std::test::Fail;

// A file whose one segment is code: cmpwi r3,0; beq to the fourth word; nop; cmpwi r4,0; li r0,1; sc.
fn file(alloc: Global) -> Result<Vec<u8>, Fail> {
    let front = "7f454c46010201000000000000000000000200140000000110000000";
    let header = "000000340000000000000000003400200001000000000000";
    let segment = "0000000100000054100000001000000000000018000000180000000500001000";
    let code = "2c03000041820008600000002c0400003800000144000002";
    let text = format!(in alloc; "{front}{header}{segment}{code}")?;
    Ok(hex::decode(alloc, text.as_bytes())?)
}

// CR0 is dead before the nop, since the second compare writes it; r0 is live there, since the nop is ori r0,r0,0.
#[test]
fn a_condition_is_live_up_to_its_branch(rt: HostRuntime) -> Result<(), Fail> {
    let alloc = rt.alloc();
    let file = file(alloc)?;
    if file.len() >= 1000 {
        panic!(&rt; "long file");
    }
    let Ok(program) = load(alloc, &file, Kind::PowerPc) else {
        panic!(&rt; "refused");
    };
    let sets = live(alloc, &program)?;
    assert_eq!(rt; sets.first(), 0x1000_0000);
    let wanted = [
        0x3ffb_ffff_ffff,
        0x3fff_ffff_ffff,
        0x3ffb_ffff_ffff,
        0x3ffb_ffff_fffe,
        0x3fff_ffff_fffe,
        0x3fff_ffff_ffff,
    ];
    assert_eq!(rt; sets.len(), wanted.len());
    for (word, bits) in wanted.iter().enumerate() {
        assert_eq!(rt; sets.at(word).bits, *bits);
    }
    Ok(())
}
