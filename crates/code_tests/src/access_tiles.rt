//! Tiles as bytes, by hand from the table of tiles.

use crate::tile_bytes::{price, spelled};
use base_mem::{emit, is_built};
use ppc_isa::{Map, decode};
use std::test::Fail;

// Each line: a word, its tile's bytes with r4 in ebx and r5 in esi, and their price.
const TILES: &str = "80640008 89da81c2080000008b82000000000fc889050c000000 9
8880fffc bafcffffff0fb6820000000089c3 5
ac650006 89f281c2060000000fb782000000000fc8c1f81089050c00000089d6 11
7c832a6e 8b150c00000001f20fb782000000000fc8c1e81089c389150c000000 13
7ca0242c 89da8b820000000089c6 5
7c642e2c 89da01f20fb7820000000089050c000000 8
9424fff0 89da81c2f0ffffff8b05040000000fc889820000000089d3 10
98a40003 89da81c20300000089f0888200000000 6
7c832b6e 8b150c00000001f289d80fc8c1e8106689820000000089150c000000 13
7c60272c 89da8b050c00000066898200000000 7
bba40004 89da81c2040000008b82000000000fc88905740000008b82040000000fc88905780000008b82080000000fc889057c000000 23
bfc00008 ba080000008b05780000000fc88982000000008b057c0000000fc8898204000000 15";

#[test]
fn tiles_are_the_tables(rt: HostRuntime) -> Result<(), Fail> {
    let map = Map {
        ebx: Some(4),
        esi: Some(5),
        edi: None,
    };
    for line in TILES.lines() {
        let (word, rest) = line.split_once(' ').expect(&rt, "a word");
        let (tile, sum) = rest.split_once(' ').expect(&rt, "bytes");
        let instr = decode(u32::from_str_radix(word, 16)?).expect(&rt, "an instruction");
        if !is_built(&instr) {
            panic!(rt; "not built: {line}");
        }
        let Ok(ops) = emit(rt.alloc(), &instr, &map) else {
            panic!(rt; "no memory");
        };
        let bytes = spelled(rt.alloc(), &ops)?;
        let by_hand = hex::decode(rt.alloc(), tile.as_bytes())?;
        assert_eq!(rt; bytes.as_slice(), by_hand.as_slice(), "at {line}");
        assert_eq!(rt; price(&ops), sum.parse::<u32>()?, "at {line}");
    }
    Ok(())
}

#[test]
fn lwz_reads_its_base_at_home(rt: HostRuntime) -> Result<(), Fail> {
    let map = Map {
        ebx: None,
        esi: None,
        edi: None,
    };
    let instr = decode(0x8064_0008).expect(&rt, "lwz r3,8(r4)");
    if !is_built(&instr) {
        panic!(rt; "not built");
    }
    let Ok(ops) = emit(rt.alloc(), &instr, &map) else {
        panic!(rt; "no memory");
    };
    let by_hand = hex::decode(
        rt.alloc(),
        b"8b151000000081c2080000008b82000000000fc889050c000000",
    )?;
    assert_eq!(rt; spelled(rt.alloc(), &ops)?.as_slice(), by_hand.as_slice());
    assert_eq!(rt; price(&ops), 11);
    Ok(())
}
