use branch_table::{Code, CodeBytes, Entries, table};
use word_kit::NoMemory;

#[test]
fn words_stand_lowest_byte_first(rt: HostRuntime) -> Result<(), NoMemory> {
    let bytes = table(rt.alloc(), &[0x0804_9000, 0x1020_3040])?;
    assert!(rt; bytes.as_slice() == [0x00u8, 0x90, 0x04, 0x08, 0x40, 0x30, 0x20, 0x10].as_slice());
    assert!(rt; table(rt.alloc(), &[])?.len() == 0);
    Ok(())
}

#[test]
fn code_gives_its_parts_back(rt: HostRuntime) -> Result<(), NoMemory> {
    let alloc = rt.alloc();
    let code = Code {
        bytes: CodeBytes::from(Vec::from_array(alloc, [0xccu8, 0x90])?),
        entries: Entries::from(Vec::from_array(alloc, [0x0804_9001u32])?),
        start: 0x0804_9001,
    };
    assert!(rt; code.bytes.as_slice() == [0xccu8, 0x90].as_slice());
    assert!(rt; code.entries.as_slice() == [0x0804_9001u32].as_slice());
    assert!(rt; code.start == 0x0804_9001);
    assert!(rt; code.bytes.into_vec().len() == 2);
    assert!(rt; code.entries.into_vec().len() == 1);
    Ok(())
}
