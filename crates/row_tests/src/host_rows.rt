use ia_alu::*;
use ia_codec::{AluOp, Condition, ExtendOp, Op, Operand, ShiftOp, UnaryOp, in_profile};
use word_kit::Plain;

// Expected values are worked out by hand. Flags are CF 1, ZF 2, SF 4, OF 8; what is free is chosen as 99 and as flags
// that are on.

const CF: u8 = 1;

const ZF: u8 = 2;

const SF: u8 = 4;

const OF: u8 = 8;

fn given(x: u32, y: u32, high: u32, flags: u8) -> HostIn<Plain> {
    HostIn {
        x,
        y,
        high,
        cf: flags & CF != 0,
        zf: flags & ZF != 0,
        sf: flags & SF != 0,
        of: flags & OF != 0,
        free: 99,
        free_cf: true,
        free_zf: true,
        free_sf: true,
        free_of: true,
    }
}

fn packed(e: &HostEffect<Plain>) -> u8 {
    e.cf as u8 + 2 * e.zf as u8 + 4 * e.sf as u8 + 8 * e.of as u8
}

fn run(op: Op, from: HostIn<Plain>) -> Option<HostEffect<Plain>> {
    if !in_profile(&op) {
        return None;
    }
    match effect(&mut Plain, &op, &from) {
        Ok(e) => Some(e),
        Err(_) => None,
    }
}

// Whether the op gives this result, edx and flags.
fn gives(op: Op, from: HostIn<Plain>, want: u32, high: u32, flags: u8) -> bool {
    match run(op, from) {
        Some(e) => e.result == want && e.high == high && packed(&e) == flags && !e.faults,
        None => false,
    }
}

fn alu(op: AluOp) -> Op {
    Op::AluTo {
        op,
        to: Operand::Reg(0),
        from: 1,
    }
}

fn by_cl(op: ShiftOp) -> Op {
    Op::ShiftByCl {
        op,
        to: Operand::Reg(0),
    }
}

fn unary(op: UnaryOp) -> Op {
    Op::Unary {
        op,
        on: Operand::Reg(1),
    }
}

#[test]
fn sums_and_differences(rt: HostRuntime) {
    for &(op, x, y, before, want, after) in &SUMS {
        assert!(rt;
            gives(alu(op), given(x, y, 5, before), want, 5, after),
            "{x:x} {y:x}"
        );
    }
}

const SUMS: [(AluOp, u32, u32, u8, u32, u8); 11] = [
    (AluOp::Add, 0xffff_ffff, 1, 0, 0, CF + ZF),
    (AluOp::Add, 0x7fff_ffff, 1, 0, 0x8000_0000, SF + OF),
    (AluOp::Add, 0x8000_0000, 0x8000_0000, 0, 0, CF + ZF + OF),
    (AluOp::Adc, 0xffff_ffff, 0, CF, 0, CF + ZF),
    (AluOp::Adc, 0x7fff_ffff, 0, CF, 0x8000_0000, SF + OF),
    (AluOp::Sub, 0, 1, 0, 0xffff_ffff, CF + SF),
    (AluOp::Sub, 0x8000_0000, 1, 0, 0x7fff_ffff, OF),
    (AluOp::Sbb, 0, 0xffff_ffff, CF, 0, CF + ZF),
    (AluOp::Sbb, 5, 5, CF, 0xffff_ffff, CF + SF),
    (AluOp::Cmp, 1, 2, 0, 1, CF + SF),
    (AluOp::And, 0xf0, 0x0f, CF + OF, 0, ZF),
];

#[test]
fn shifts_by_cl(rt: HostRuntime) {
    for &(op, x, count, before, want, after) in &SHIFTS {
        assert!(rt;
            gives(by_cl(op), given(x, count, 5, before), want, 5, after),
            "{x:x} by {count}"
        );
    }
}

const SHIFTS: [(ShiftOp, u32, u32, u8, u32, u8); 25] = [
    (ShiftOp::Shl, 0x8000_0001, 0, ZF, 0x8000_0001, ZF),
    (ShiftOp::Shl, 0x8000_0001, 1, 0, 2, CF + OF),
    (ShiftOp::Shl, 0x8000_0001, 2, 0, 4, OF),
    (ShiftOp::Shl, 2, 31, 0, 0, CF + ZF + OF),
    (ShiftOp::Shl, 0x8000_0001, 32, ZF, 0x8000_0001, ZF),
    (ShiftOp::Shr, 0x8000_0001, 0, SF, 0x8000_0001, SF),
    (ShiftOp::Shr, 0x8000_0001, 1, 0, 0x4000_0000, CF + OF),
    (ShiftOp::Shr, 3, 2, 0, 0, CF + ZF + OF),
    (ShiftOp::Shr, 0x8000_0000, 31, 0, 1, OF),
    (ShiftOp::Shr, 0x8000_0001, 32, SF, 0x8000_0001, SF),
    (ShiftOp::Sar, 0x8000_0001, 0, ZF, 0x8000_0001, ZF),
    (ShiftOp::Sar, 0x8000_0001, 1, 0, 0xc000_0000, CF + SF),
    (ShiftOp::Sar, 0x8000_0001, 2, 0, 0xe000_0000, SF + OF),
    (ShiftOp::Sar, 0x8000_0000, 31, 0, 0xffff_ffff, SF + OF),
    (ShiftOp::Sar, 0x8000_0001, 32, ZF, 0x8000_0001, ZF),
    (ShiftOp::Rol, 0x8000_0001, 0, ZF, 0x8000_0001, ZF),
    (ShiftOp::Rol, 0x8000_0001, 1, ZF, 3, CF + ZF + OF),
    (ShiftOp::Rol, 0x8000_0001, 2, 0, 6, OF),
    (ShiftOp::Rol, 2, 31, SF, 1, CF + SF + OF),
    (ShiftOp::Rol, 0x8000_0001, 32, OF, 0x8000_0001, OF),
    (ShiftOp::Ror, 2, 0, CF, 2, CF),
    (ShiftOp::Ror, 1, 1, ZF, 0x8000_0000, CF + ZF + OF),
    (ShiftOp::Ror, 4, 2, 0, 1, OF),
    (ShiftOp::Ror, 1, 31, 0, 2, OF),
    (ShiftOp::Ror, 2, 32, CF, 2, CF),
];

#[test]
fn products_and_divisions(rt: HostRuntime) {
    for &(op, x, y, high, want, other, after) in &PRODUCTS {
        assert!(rt;
            gives(unary(op), given(x, y, high, 0), want, other, after),
            "{x:x} {y:x}"
        );
    }
}

const PRODUCTS: [(UnaryOp, u32, u32, u32, u32, u32, u8); 8] = [
    (UnaryOp::Neg, 7, 0, 5, 0, 5, ZF),
    (
        UnaryOp::Neg,
        7,
        0x8000_0000,
        5,
        0x8000_0000,
        5,
        CF + SF + OF,
    ),
    (UnaryOp::Mul, 0x8000_0000, 2, 5, 0, 1, CF + ZF + SF + OF),
    (UnaryOp::Mul, 3, 4, 5, 12, 0, ZF + SF),
    (UnaryOp::Imul1, 0xffff_ffff, 0xffff_ffff, 5, 1, 0, ZF + SF),
    (
        UnaryOp::Imul1,
        0x8000,
        0x10000,
        5,
        0x8000_0000,
        0,
        CF + ZF + SF + OF,
    ),
    (UnaryOp::Div, 0, 3, 1, 0x5555_5555, 1, CF + ZF + SF + OF),
    (
        UnaryOp::Idiv,
        0xffff_fff9,
        2,
        0xffff_ffff,
        0xffff_fffd,
        0xffff_ffff,
        CF + ZF + SF + OF,
    ),
];

fn faults(op: UnaryOp, x: u32, y: u32, high: u32) -> bool {
    match run(unary(op), given(x, y, high, 0)) {
        Some(e) => e.faults,
        None => false,
    }
}

#[test]
fn divisions_fault(rt: HostRuntime) {
    assert!(rt; faults(UnaryOp::Div, 7, 0, 0));
    assert!(rt; faults(UnaryOp::Div, 0, 1, 1));
    assert!(rt; faults(UnaryOp::Idiv, 0x8000_0000, 0xffff_ffff, 0xffff_ffff));
}

// The numbers of the flags under which a condition holds, as bits.
fn holding(condition: Condition) -> u16 {
    let op = Op::Jcc { condition, rel: 0 };
    let mut held = 0u16;
    for flags in 0u8..16 {
        if let Some(e) = run(op, given(1, 2, 3, flags)) {
            if e.holds {
                held |= 1u16 << flags;
            }
        }
    }
    held
}

#[test]
fn conditions_hold(rt: HostRuntime) {
    for &(condition, want) in &CONDITIONS {
        assert_eq!(rt; holding(condition), want);
    }
}

// Bit k stands for the flags whose number is k: CF is on in 0xaaaa, ZF in 0xcccc, SF in 0xf0f0, OF in 0xff00.
const CONDITIONS: [(Condition, u16); 12] = [
    (Condition::Below, 0xaaaa),
    (Condition::NotBelow, 0x5555),
    (Condition::Equal, 0xcccc),
    (Condition::NotEqual, 0x3333),
    (Condition::NotAbove, 0xeeee),
    (Condition::Above, 0x1111),
    (Condition::Sign, 0xf0f0),
    (Condition::NotSign, 0x0f0f),
    (Condition::Less, 0x0ff0),
    (Condition::NotLess, 0xf00f),
    (Condition::NotGreater, 0xcffc),
    (Condition::Greater, 0x3003),
];

#[test]
fn scans_and_short_products(rt: HostRuntime) {
    let bsr = Op::Bsr {
        to: 0,
        from: Operand::Reg(1),
    };
    let imul = Op::Imul {
        to: 0,
        from: Operand::Reg(1),
    };
    assert!(rt; gives(bsr, given(7, 0x0001_0001, 5, 0), 16, 5, CF + SF + OF));
    assert!(rt; gives(bsr, given(7, 0, 5, 0), 99, 5, CF + ZF + SF + OF));
    let other = HostIn {
        free: 3,
        free_cf: false,
        ..given(7, 0, 5, 0)
    };
    assert!(rt; gives(bsr, other, 3, 5, ZF + SF + OF));
    assert!(rt;
        gives(
            imul,
            given(0x8000, 0xffff_0000, 5, 0),
            0x8000_0000,
            5,
            ZF + SF
        )
    );
    assert!(rt;
        gives(
            imul,
            given(0x8000, 0x10000, 5, 0),
            0x8000_0000,
            5,
            CF + ZF + SF + OF
        )
    );
}

#[test]
fn logic(rt: HostRuntime) {
    for &(op, x, y, want, after) in &LOGIC {
        assert!(rt;
            gives(alu(op), given(x, y, 5, CF + OF), want, 5, after),
            "{x:x} {y:x}"
        );
    }
    let test = Op::TestReg {
        a: Operand::Reg(0),
        b: 1,
    };
    assert!(rt;
        gives(
            test,
            given(0x8000_00ff, 0x8000_0000, 5, CF + ZF + OF),
            0x8000_00ff,
            5,
            SF
        )
    );
    assert!(rt;
        gives(
            unary(UnaryOp::Not),
            given(7, 0xf0, 5, CF + SF),
            0xffff_ff0f,
            5,
            CF + SF
        )
    );
}

const LOGIC: [(AluOp, u32, u32, u32, u8); 4] = [
    (AluOp::Or, 0x8000_0000, 0x0f, 0x8000_000f, SF),
    (AluOp::Or, 0, 0, 0, ZF),
    (AluOp::Xor, 0xff, 0x0f, 0xf0, 0),
    (AluOp::Xor, 0xdead_beef, 0xdead_beef, 0, ZF),
];

// What an op makes of y, with all flags as they were.
fn moves(op: Op, y: u32) -> Option<u32> {
    match run(op, given(7, y, 5, CF + SF)) {
        Some(e) if e.high == 5 && packed(&e) == CF + SF && !e.faults => Some(e.result),
        _ => None,
    }
}

fn extend(op: ExtendOp) -> Op {
    Op::Extend {
        op,
        to: 0,
        from: Operand::Reg(1),
    }
}

#[test]
fn extensions_and_swaps(rt: HostRuntime) {
    assert_eq!(rt; moves(extend(ExtendOp::MovzxByte), 0x1234_5680), Some(0x80));
    assert_eq!(rt;
        moves(extend(ExtendOp::MovzxHalf), 0x1234_8081),
        Some(0x8081)
    );
    assert_eq!(rt;
        moves(extend(ExtendOp::MovsxByte), 0x1234_5680),
        Some(0xffff_ff80)
    );
    assert_eq!(rt; moves(extend(ExtendOp::MovsxByte), 0x1234_567f), Some(0x7f));
    assert_eq!(rt;
        moves(extend(ExtendOp::MovsxHalf), 0x1234_8081),
        Some(0xffff_8081)
    );
    assert_eq!(rt;
        moves(extend(ExtendOp::MovsxHalf), 0x1234_7f81),
        Some(0x7f81)
    );
    assert_eq!(rt; moves(Op::Bswap { reg: 0 }, 0x1122_3344), Some(0x4433_2211));
}

fn set(condition: Condition) -> Op {
    Op::Set {
        condition,
        to: Operand::Reg(0),
    }
}

fn cmov(condition: Condition) -> Op {
    Op::Cmov {
        condition,
        to: 0,
        from: Operand::Reg(1),
    }
}

#[test]
fn conditional_moves(rt: HostRuntime) {
    assert_eq!(rt; moves(set(Condition::Below), 3), Some(1));
    assert_eq!(rt; moves(set(Condition::NotBelow), 3), Some(0));
    assert_eq!(rt; moves(cmov(Condition::Sign), 3), Some(3));
    assert_eq!(rt; moves(cmov(Condition::NotSign), 3), Some(7));
}
