// A program of three segments, and its file, whose headers and places an outside script laid out.
ghost use Rattle.std.specs.Prelude.{IfOk};
ghost use Rattle.elf_emit.specs.Prelude.{FitsArea};

use branch_table::{Code, CodeBytes, Entries};
use elf_emit::file;
use elf_load::{host_area, load};
use space::{Kind, Segment};
use std::alloc::{AllocError, Global};
use std::process::Abort;
use std::test::Fail;

// Two code words at 0x10000000, which start at the second; 32 writable bytes at 0x10010000, six of them in
// the file, of which the last three are 0; and four more bytes at 0x10020123.
const SOURCE: &str = "7f454c460102010000000000000000000002001400000001100000040000003400000000\
000000000034002000030000000000000000000100000094100000001000000000000008\
000000080000000500001000000000010000009c10010000100100000000000600000020\
000000060000100000000001000000a21002012310020123000000040000000400000004\
00001000380000014400000201020300000009080706";

// The headers of its file.
const HEADERS: &str = "7f454c46010101000000000000000000020003000100000000200a103400000000000000\
000000003400200007000000000000000100000000100000000000100000001008000000\
080000000400000000100000010000000020000000000110000001100300000020000000\
060000000010000001000000232100002301021023010210040000000400000004000000\
0010000001000000000000000000007f0000007f00000000000010000600000000100000\
010000000030000000100210001002100010000000100000060000000010000001000000\
004000000020021000200210080000000800000004000000001000000100000000500000\
00200a1000200a1006000000060000000500000000100000";

// Code of six bytes, with an entry for each of the two words.
fn small_code(alloc: Global) -> Result<Code, AllocError>
    ensures { IfOk result (λ code. FitsArea code) }
{
    let bytes = Vec::from_array(alloc, [0xe9u8, 0xfb, 0xff, 0xff, 0xff, 0xcc])?;
    let entries = Vec::from_array(alloc, [0x100a_2005u32, 0x100a_2000])?;
    Ok(Code {
        bytes: CodeBytes::from(bytes),
        entries: Entries::from(entries),
        start: 0x100a_2000,
    })
}

// The file of the program's translation.
fn translated(rt: &impl Abort, alloc: Global) -> Result<Vec<u8>, Fail> {
    let source = hex::decode(alloc, SOURCE.as_bytes())?;
    if source.len() >= 0xffff_ffff {
        panic!(rt; "too long");
    }
    let Ok(program) = load(alloc, &source, Kind::PowerPc) else {
        panic!(rt; "refused");
    };
    let code = small_code(alloc)?;
    Ok(file(alloc, &program, &code, host_area(&program))?)
}

fn is_like(segment: &Segment, at: u32, write: bool, exec: bool) -> bool {
    segment.at == at && segment.write == write && segment.exec == exec
}

fn has_bytes(segment: &Segment, bytes: &[u8], size: usize) -> bool {
    let all = segment.bytes.as_slice();
    all.len() == size
        && all.starts_with(bytes)
        && all.iter().skip(bytes.len()).all(|byte| *byte == 0)
}

#[test]
fn headers_are_those_of_an_outside_script(rt: HostRuntime) -> Result<(), Fail> {
    let alloc = rt.alloc();
    let bytes = translated(&rt, alloc)?;
    let headers = hex::decode(alloc, HEADERS.as_bytes())?;
    assert!(rt; bytes.starts_with(&headers) && bytes.len() == 20486);
    Ok(())
}

fn part(bytes: &[u8], from: usize, to: usize) -> &[u8] {
    bytes.get(from..to).unwrap_or(&[])
}

#[test]
fn bytes_stand_where_the_headers_say(rt: HostRuntime) -> Result<(), Fail> {
    let bytes = translated(&rt, rt.alloc())?;
    assert!(rt; part(&bytes, 0x1000, 0x1008) == [0x38u8, 0, 0, 1, 0x44, 0, 0, 2].as_slice());
    assert!(rt; part(&bytes, 0x2000, 0x2004) == [1u8, 2, 3, 0].as_slice());
    assert!(rt; part(&bytes, 0x2123, 0x2128) == [9u8, 8, 7, 6, 0].as_slice());
    assert!(rt;
        part(&bytes, 0x3000, 0x300a) == [0u8, 0, 0, 0, 0xc0, 0xff, 0x0f, 0x7f, 0, 0].as_slice()
    );
    assert!(rt;
        part(&bytes, 0x4000, 0x4009) == [5u8, 0x20, 0x0a, 0x10, 0, 0x20, 0x0a, 0x10, 0].as_slice()
    );
    assert!(rt; part(&bytes, 0x5000, 0x5006) == [0xe9u8, 0xfb, 0xff, 0xff, 0xff, 0xcc].as_slice());
    Ok(())
}

#[test]
fn the_file_is_loaded_for_the_host(rt: HostRuntime) -> Result<(), Fail> {
    let alloc = rt.alloc();
    let bytes = translated(&rt, alloc)?;
    if bytes.len() >= 0xffff_ffff {
        panic!(rt; "too long");
    }
    let Ok(program) = load(alloc, &bytes, Kind::Ia32) else {
        panic!(rt; "refused");
    };
    assert!(rt; program.entry == 0x100a_2000 && program.code == 6);
    match program.segments.as_slice() {
        [words, data, more, stack, home, table, code] => {
            assert!(rt;
                is_like(words, 0x1000_0000, false, false)
                    && has_bytes(words, &[0x38, 0, 0, 1, 0x44, 0, 0, 2], 8)
            );
            assert!(rt; is_like(data, 0x1001_0000, true, false) && has_bytes(data, &[1, 2, 3], 32));
            assert!(rt;
                is_like(more, 0x1002_0123, false, false) && has_bytes(more, &[9, 8, 7, 6], 4)
            );
            assert!(rt;
                is_like(stack, 0x7f00_0000, true, false) && has_bytes(stack, &[], 0x10_0000)
            );
            assert!(rt;
                is_like(home, 0x1002_1000, true, false)
                    && has_bytes(home, &[0, 0, 0, 0, 0xc0, 0xff, 0x0f, 0x7f], 4096)
            );
            assert!(rt;
                is_like(table, 0x1002_2000, false, false)
                    && has_bytes(table, &[5, 0x20, 0x0a, 0x10, 0, 0x20, 0x0a, 0x10], 8)
            );
            assert!(rt;
                is_like(code, 0x100a_2000, false, true)
                    && has_bytes(code, &[0xe9, 0xfb, 0xff, 0xff, 0xff, 0xcc], 6)
            );
        }
        _ => panic!(rt; "not seven segments"),
    }
    Ok(())
}
