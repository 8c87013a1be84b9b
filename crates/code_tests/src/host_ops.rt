//! Against other programs' bytes: a reference implementation's, and a disassembler's reading of ops.

use ia_codec::Operand::{Abs, Base, Pair, Reg};
use ia_codec::{
    AluOp, Condition, ExtendOp, Op, ShiftOp, UnaryOp, cost, decode, encode, in_profile, mnemonic,
};
use std::alloc::Global;
use std::test::Fail;

// Each line: the bytes of an op, its name and its price.
const OPS: &str = "110d80000000 adc 3
111580000000 adc 3
11da adc 1
11f7 adc 1
131d80000000 adc 3
811580000000399a0bac adc 3
8115840000006fa2fe69 adc 3
81d32e4a603d adc 1
81d76100de4e adc 1
010d84000000 add 3
011584000000 add 3
01cf add 1
01d0 add 1
030d80000000 add 3
033584000000 add 3
81058000000001000000 add 3
810580000000f5620e4b add 3
81c3c8e5ef48 add 1
81c761465e34 add 1
213580000000 and 3
213d80000000 and 3
21c8 and 1
21da and 1
230580000000 and 3
233580000000 and 3
81258000000000000080 and 3
812584000000a038b765 and 3
81e06e1251d6 and 1
81e0e0e94d27 and 1
0fbd1d80000000 bsr 3
0fbd3584000000 bsr 3
0fbdd9 bsr 1
0fbdda bsr 1
0fc9 bswap 1
0fcb bswap 1
99 cdq 1
0f420d80000000 cmovcc 3
0f421d80000000 cmovcc 3
0f42c6 cmovcc 1
0f42c9 cmovcc 1
0f430584000000 cmovcc 3
0f431d80000000 cmovcc 3
0f43c8 cmovcc 1
0f43ca cmovcc 1
0f440d80000000 cmovcc 3
0f443d84000000 cmovcc 3
0f44c0 cmovcc 1
0f44c2 cmovcc 1
0f450584000000 cmovcc 3
0f450d80000000 cmovcc 3
0f45ce cmovcc 1
0f45f2 cmovcc 1
0f460d80000000 cmovcc 3
0f463d80000000 cmovcc 3
0f46de cmovcc 1
0f46f2 cmovcc 1
0f470d84000000 cmovcc 3
0f471d84000000 cmovcc 3
0f47c7 cmovcc 1
0f47d6 cmovcc 1
0f480d84000000 cmovcc 3
0f481584000000 cmovcc 3
0f48c3 cmovcc 1
0f48d3 cmovcc 1
0f490d80000000 cmovcc 3
0f493584000000 cmovcc 3
0f49c6 cmovcc 1
0f49da cmovcc 1
0f4c0584000000 cmovcc 3
0f4c1584000000 cmovcc 3
0f4cd3 cmovcc 1
0f4cf0 cmovcc 1
0f4d0d80000000 cmovcc 3
0f4d1d80000000 cmovcc 3
0f4dca cmovcc 1
0f4dd2 cmovcc 1
0f4e1580000000 cmovcc 3
0f4e3d84000000 cmovcc 3
0f4ed3 cmovcc 1
0f4ef2 cmovcc 1
0f4f0d84000000 cmovcc 3
0f4f3584000000 cmovcc 3
0f4fdf cmovcc 1
0f4ffb cmovcc 1
391584000000 cmp 3
393d80000000 cmp 3
39c8 cmp 1
39ca cmp 1
3b0d84000000 cmp 3
3b1584000000 cmp 3
813d8400000080000000 cmp 3
81fabb81cb56 cmp 1
81ff02000000 cmp 1
f73510100010 div 22
f7f1 div 20
f7f9 idiv 20
0faf1d80000000 imul 5
0faf3584000000 imul 5
0fafc0 imul 3
0faffa imul 3
f72d80000000 imul1 5
f72d84000000 imul1 5
f7e8 imul1 3
f7e9 imul1 3
cc int3 1
cd80 int80 1
0f82918dc559 jcc 1
0f83143650e7 jcc 1
0f843cb60921 jcc 1
0f858d0e1080 jcc 1
0f8664b5feb2 jcc 1
0f8708c9074c jcc 1
0f88fa72bb35 jcc 1
0f89dbc5ba7e jcc 1
0f8c5c07c0b7 jcc 1
0f8d4098dbbb jcc 1
0f8eeb6a3694 jcc 1
0f8fd98d3fd1 jcc 1
e9fbffffff jmp 1
ffa000200010 jmpi 3
8d8cde08000000 lea 1
8d947708000000 lea 1
8d9fffffffff lea 1
8db8ffffffff lea 1
668988ffffffff mov 3
66898c1308000000 mov 3
66899804000000 mov 3
6689bc4308000000 mov 3
880d8a000000 mov 3
88158e000000 mov 3
8883ffffffff mov 3
888b00000000 mov 3
888c0200000000 mov 3
888c8808000000 mov 3
893584000000 mov 3
8981ffffffff mov 3
8984d000000000 mov 3
898e00000000 mov 3
89b4b008000000 mov 3
89d1 mov 1
89f7 mov 1
8a0589000000 mov 3
8a058c000000 mov 3
8a8104000000 mov 3
8a844f00000000 mov 3
8a845700000000 mov 3
8a8fffffffff mov 3
8b3d84000000 mov 3
8b8700000000 mov 3
8b8b00000000 mov 3
8b9cbf00000000 mov 3
8b9cfb08000000 mov 3
b8d006b94f mov 1
bea4738026 mov 1
c70584000000166e7376 mov 3
c70584000000feffffff mov 3
0fbe1d8f000000 movsx 3
0fbe3589000000 movsx 3
0fbe84d600000000 movsx 3
0fbe91ffffffff movsx 3
0fbeb47b00000000 movsx 3
0fbeb600000000 movsx 3
0fbed0 movsx 1
0fbed8 movsx 1
0fbf8c0e08000000 movsx 3
0fbf90ffffffff movsx 3
0fbfb304000000 movsx 3
0fbfbcd700000000 movsx 3
0fbfc9 movsx 1
0fbff3 movsx 1
0fb61d93000000 movzx 3
0fb6358c000000 movzx 3
0fb686ffffffff movzx 3
0fb6b704000000 movzx 3
0fb6bc1708000000 movzx 3
0fb6bc7a08000000 movzx 3
0fb6d0 movzx 1
0fb6da movzx 1
0fb78104000000 movzx 3
0fb78700000000 movzx 3
0fb78c7f00000000 movzx 3
0fb7949100000000 movzx 3
0fb7c0 movzx 1
0fb7d8 movzx 1
f72580000000 mul 5
f72584000000 mul 5
f7e3 mul 3
f7e7 mul 3
f71d80000000 neg 3
f71d84000000 neg 3
f7db neg 1
f71580000000 not 3
f7d2 not 1
f7d7 not 1
091584000000 or 3
093d80000000 or 3
09ca or 1
09db or 1
0b0584000000 or 3
0b3d84000000 or 3
810d80000000ca8851bf or 3
810d840000006719e554 or 3
81ce7b602916 or 1
81cf21000000 or 1
c1c300 rol 1
c1c31f rol 1
d30580000000 rol 3
d30584000000 rol 3
c10d8000000000 ror 3
c10d840000001f ror 3
c1c800 ror 1
c1c900 ror 1
c13d800000001f sar 3
c1ff01 sar 1
d33d80000000 sar 3
d3f9 sar 1
193584000000 sbb 3
193d80000000 sbb 3
19cf sbb 1
19f0 sbb 1
1b0584000000 sbb 3
1b3584000000 sbb 3
811d8000000000000080 sbb 3
811d8000000020000000 sbb 3
81d8e307b5aa sbb 1
81d90fdcafbc sbb 1
0f92058e000000 setcc 3
0f920593000000 setcc 3
0f92c0 setcc 1
0f92c2 setcc 1
0f93058d000000 setcc 3
0f930592000000 setcc 3
0f93c0 setcc 1
0f93c2 setcc 1
0f94058b000000 setcc 3
0f94058e000000 setcc 3
0f94c1 setcc 1
0f94c2 setcc 1
0f95058b000000 setcc 3
0f950592000000 setcc 3
0f95c0 setcc 1
0f95c2 setcc 1
0f96058b000000 setcc 3
0f96058d000000 setcc 3
0f96c0 setcc 1
0f97058a000000 setcc 3
0f97058d000000 setcc 3
0f97c0 setcc 1
0f97c2 setcc 1
0f980590000000 setcc 3
0f98c1 setcc 1
0f98c2 setcc 1
0f99058e000000 setcc 3
0f990593000000 setcc 3
0f99c0 setcc 1
0f99c1 setcc 1
0f9c058c000000 setcc 3
0f9c058f000000 setcc 3
0f9cc1 setcc 1
0f9d0590000000 setcc 3
0f9d0593000000 setcc 3
0f9dc1 setcc 1
0f9e058e000000 setcc 3
0f9e0592000000 setcc 3
0f9ec1 setcc 1
0f9ec2 setcc 1
0f9f058c000000 setcc 3
0f9f058f000000 setcc 3
0f9fc0 setcc 1
0f9fc1 setcc 1
c1e11f shl 1
c1e601 shl 1
d32584000000 shl 3
c12d8000000011 shr 3
c12d800000001c shr 3
c1eb01 shr 1
d3ef shr 1
291580000000 sub 3
291584000000 sub 3
29ca sub 1
29cf sub 1
2b0d84000000 sub 3
2b1d80000000 sub 3
812d80000000ff7f0000 sub 3
812d8400000000000000 sub 3
81e92fdcbeb7 sub 1
81efc298ad36 sub 1
850d84000000 test 3
851580000000 test 3
85c2 test 1
85db test 1
f7058000000096c50670 test 3
f70584000000ff000000 test 3
f7c2b176fb02 test 1
f7c720000000 test 1
0f0b ud2 1
311584000000 xor 3
313d80000000 xor 3
31f1 xor 1
31fb xor 1
331580000000 xor 3
331584000000 xor 3
813580000000968f5b91 xor 3
813584000000ffffffff xor 3
81f17f000000 xor 1
81f201000000 xor 1";

// Each line: bytes that begin with no op of the profile.
const NONE: &str = "04
90
eb00
7400
05
8904
890424
0f8012345678
0f9100
8bc3
03c3
89
c1e020
0fbec6
8a00
8804
01
e9000000
0f80
8b4304
8b03
ff20
f4
6689c3
88c3
c700";

fn bytes_of(alloc: Global, text: &str) -> Result<Vec<u8, Global>, Fail> {
    let mut bytes = Vec::new(alloc);
    for i in 0..text.len() / 2 {
        let pair = text.get(2 * i..2 * i + 2).unwrap_or("");
        bytes.push(u8::from_str_radix(pair, 16)?)?;
    }
    Ok(bytes)
}

#[test]
fn reads_names_prices_and_spells_again(rt: HostRuntime) -> Result<(), Fail> {
    for line in OPS.lines() {
        let (text, rest) = line.split_once(' ').expect(&rt, "bytes");
        let (name, price) = rest.split_once(' ').expect(&rt, "a name");
        let bytes = bytes_of(rt.alloc(), text)?;
        let (op, len) = decode(&bytes).expect(&rt, "an op");
        assert_eq!(rt; len, bytes.len(), "at {line}");
        assert_eq!(rt; mnemonic(&op), name, "at {line}");
        assert_eq!(rt; cost(&op), price.parse::<u32>()?, "at {line}");
        let spelled = encode(&op);
        assert_eq!(rt;
            &spelled.bytes[..spelled.len as usize],
            bytes.as_slice(),
            "at {line}"
        );
    }
    Ok(())
}

#[test]
fn reads_no_op(rt: HostRuntime) -> Result<(), Fail> {
    for line in NONE.lines() {
        let bytes = bytes_of(rt.alloc(), line)?;
        assert!(rt; decode(&bytes).is_none(), "at {line}");
    }
    Ok(())
}

#[test]
fn spells_what_a_disassembler_reads(rt: HostRuntime) -> Result<(), Fail> {
    let cases = [
        (
            "019f08000000",
            "add [edi+8],ebx",
            Op::AluTo {
                op: AluOp::Add,
                to: Base(7, 8),
                from: 3,
            },
        ),
        (
            "2b0d78563412",
            "sub ecx,[0x12345678]",
            Op::AluFrom {
                op: AluOp::Sub,
                to: 1,
                from: Abs(0x12345678),
            },
        ),
        (
            "81f2efbeadde",
            "xor edx,0xdeadbeef",
            Op::AluImm {
                op: AluOp::Xor,
                to: Reg(2),
                imm: 0xdeadbeef,
            },
        ),
        ("85fe", "test esi,edi", Op::TestReg { a: Reg(6), b: 7 }),
        (
            "f7831000000002000000",
            "test dword [ebx+0x10],2",
            Op::TestImm {
                a: Base(3, 16),
                imm: 2,
            },
        ),
        (
            "f7f9",
            "idiv ecx",
            Op::Unary {
                op: UnaryOp::Idiv,
                on: Reg(1),
            },
        ),
        (
            "f71504000000",
            "not dword [4]",
            Op::Unary {
                op: UnaryOp::Not,
                on: Abs(4),
            },
        ),
        (
            "0faf8e20000000",
            "imul ecx,[esi+0x20]",
            Op::Imul {
                to: 1,
                from: Base(6, 32),
            },
        ),
        (
            "89d8",
            "mov eax,ebx",
            Op::MovTo {
                to: Reg(0),
                from: 3,
            },
        ),
        (
            "8b9e00000000",
            "mov ebx,[esi]",
            Op::MovFrom {
                to: 3,
                from: Base(6, 0),
            },
        ),
        (
            "bf78563412",
            "mov edi,0x12345678",
            Op::MovImm {
                to: 7,
                imm: 0x12345678,
            },
        ),
        (
            "c7058000000005000000",
            "mov dword [0x80],5",
            Op::MovToImm {
                to: Abs(128),
                imm: 5,
            },
        ),
        (
            "6689ba00000000",
            "mov [edx],di",
            Op::MovHalfTo {
                to: Base(2, 0),
                from: 7,
            },
        ),
        (
            "888a01000000",
            "mov [edx+1],cl",
            Op::MovByteTo {
                to: Base(2, 1),
                from: 1,
            },
        ),
        (
            "8a9304000000",
            "mov dl,[ebx+4]",
            Op::MovByteFrom {
                to: 2,
                from: Base(3, 4),
            },
        ),
        (
            "c1e005",
            "shl eax,5",
            Op::Shift {
                op: ShiftOp::Shl,
                to: Reg(0),
                by: 5,
            },
        ),
        (
            "d3fa",
            "sar edx,cl",
            Op::ShiftByCl {
                op: ShiftOp::Sar,
                to: Reg(2),
            },
        ),
        (
            "8d9cbe10000000",
            "lea ebx,[esi+edi*4+0x10]",
            Op::Lea {
                to: 3,
                from: Pair(6, 7, 2, 16),
            },
        ),
        (
            "8d94c8f0ffffff",
            "lea edx,[eax+ecx*8-0x10]",
            Op::Lea {
                to: 2,
                from: Pair(0, 1, 3, 0xfffffff0),
            },
        ),
        (
            "0fb6c1",
            "movzx eax,cl",
            Op::Extend {
                op: ExtendOp::MovzxByte,
                to: 0,
                from: Reg(1),
            },
        ),
        (
            "0fb7fb",
            "movzx edi,bx",
            Op::Extend {
                op: ExtendOp::MovzxHalf,
                to: 7,
                from: Reg(3),
            },
        ),
        (
            "0fbe8600000000",
            "movsx eax,byte [esi]",
            Op::Extend {
                op: ExtendOp::MovsxByte,
                to: 0,
                from: Base(6, 0),
            },
        ),
        (
            "0fbf0d00100000",
            "movsx ecx,word [0x1000]",
            Op::Extend {
                op: ExtendOp::MovsxHalf,
                to: 1,
                from: Abs(4096),
            },
        ),
        ("0fcb", "bswap ebx", Op::Bswap { reg: 3 }),
        (
            "0f92c0",
            "setb al",
            Op::Set {
                condition: Condition::Below,
                to: Reg(0),
            },
        ),
        (
            "0f9c0522000000",
            "setl byte [0x22]",
            Op::Set {
                condition: Condition::Less,
                to: Abs(34),
            },
        ),
        (
            "0f4fca",
            "cmovg ecx,edx",
            Op::Cmov {
                condition: Condition::Greater,
                to: 1,
                from: Reg(2),
            },
        ),
        (
            "0fbdc6",
            "bsr eax,esi",
            Op::Bsr {
                to: 0,
                from: Reg(6),
            },
        ),
        ("99", "cdq", Op::Cdq),
        (
            "0f8410000000",
            "je, 16 further",
            Op::Jcc {
                condition: Condition::Equal,
                rel: 16,
            },
        ),
        ("e9fbffffff", "jmp, 5 back", Op::Jmp { rel: 0xfffffffb }),
        (
            "ffa000100000",
            "jmp [eax+0x1000]",
            Op::JmpTo { to: Base(0, 4096) },
        ),
        ("cd80", "int 0x80", Op::Int80),
        ("cc", "int3", Op::Int3),
        ("0f0b", "ud2", Op::Ud2),
    ];
    for (text, meaning, op) in cases {
        assert!(rt; in_profile(&op), "{meaning}");
        let bytes = bytes_of(rt.alloc(), text)?;
        let spelled = encode(&op);
        assert_eq!(rt;
            &spelled.bytes[..spelled.len as usize],
            bytes.as_slice(),
            "{meaning}"
        );
    }
    Ok(())
}

// The second byte of each jump is as a disassembler names it: jb, jae, je, jne, jbe, ja, js, jns, jl, jge, jle, jg.
#[test]
fn conditions_have_their_numbers(rt: HostRuntime) {
    let jumps = [
        (0x82, Condition::Below, 0x83),
        (0x83, Condition::NotBelow, 0x82),
        (0x84, Condition::Equal, 0x85),
        (0x85, Condition::NotEqual, 0x84),
        (0x86, Condition::NotAbove, 0x87),
        (0x87, Condition::Above, 0x86),
        (0x88, Condition::Sign, 0x89),
        (0x89, Condition::NotSign, 0x88),
        (0x8c, Condition::Less, 0x8d),
        (0x8d, Condition::NotLess, 0x8c),
        (0x8e, Condition::NotGreater, 0x8f),
        (0x8f, Condition::Greater, 0x8e),
    ];
    for (byte, condition, opposite) in jumps {
        let code = byte & 15;
        assert_eq!(rt; encode(&Op::Jcc { condition, rel: 0 }).bytes[1], byte);
        assert_eq!(rt; condition.code(), code);
        assert_eq!(rt;
            Condition::from_code(code).map(|found| found.code()),
            Some(code)
        );
        assert_eq!(rt; condition.opposite().code(), opposite & 15);
    }
    for code in [0, 1, 10, 11, 16, 255] {
        assert!(rt; Condition::from_code(code).is_none(), "{code}");
    }
}
