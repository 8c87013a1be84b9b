// Programs of small files, whose words were read off by hand.

use code_words::{code_words, entry_place, first};
use elf_load::load;
use space::Kind;
use std::alloc::Global;
use std::process::Abort;
use std::test::Fail;

// A file whose one segment is code of so many bytes, of which the file has these first.
fn file(alloc: Global, at: u32, size: u32, entry: u32, code: &str) -> Result<Vec<u8>, Fail> {
    let held = code.len() / 2;
    let front = format!(in alloc;
        "7f454c4601020100000000000000000000020014{:08x}{entry:08x}",
        1
    )?;
    let behind = "00000034000000000000000000340020000100000000000000000001";
    let text = format!(in alloc;
        "{front}{behind}00000054{at:08x}{at:08x}{held:08x}{size:08x}0000000500001000{code}"
    )?;
    Ok(hex::decode(alloc, text.as_bytes())?)
}

// The file's program has these words from an address on, and starts at the one of this place.
fn has_words(
    rt: &impl Abort,
    alloc: Global,
    file: &[u8],
    begin: u32,
    words: &[u32],
    place: usize,
) -> Result<(), Fail> {
    if file.len() >= 1000 {
        panic!(rt; "long file");
    }
    let Ok(program) = load(alloc, file, Kind::PowerPc) else {
        panic!(rt; "refused");
    };
    assert!(rt; first(&program) == begin);
    assert!(rt; code_words(alloc, &program)?.as_slice() == words);
    assert!(rt; entry_place(&program) == place);
    Ok(())
}

#[test]
fn words_stand_at_the_start_of_the_segment(rt: HostRuntime) -> Result<(), Fail> {
    let alloc = rt.alloc();
    let file = file(
        alloc,
        0x1000_0000,
        12,
        0x1000_0000,
        "380000013860000744000002",
    )?;
    has_words(
        &rt,
        alloc,
        &file,
        0x1000_0000,
        &[0x3800_0001, 0x3860_0007, 0x4400_0002],
        0,
    )
}

#[test]
fn three_bytes_before_the_first_word_are_none(rt: HostRuntime) -> Result<(), Fail> {
    let alloc = rt.alloc();
    let file = file(
        alloc,
        0x1000_0001,
        11,
        0x1000_0008,
        "aabbcc3800000144000002",
    )?;
    has_words(
        &rt,
        alloc,
        &file,
        0x1000_0004,
        &[0x3800_0001, 0x4400_0002],
        1,
    )
}

// Two bytes stand before the only word, and three of 0 that the file doesn't have behind it.
#[test]
fn three_bytes_behind_the_last_word_are_none(rt: HostRuntime) -> Result<(), Fail> {
    let alloc = rt.alloc();
    let file = file(alloc, 0x1000_0002, 9, 0x1000_0004, "aabb44000002")?;
    has_words(&rt, alloc, &file, 0x1000_0004, &[0x4400_0002], 0)
}
