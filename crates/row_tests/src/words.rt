use word_kit::*;

// Expected values are worked out by hand.

fn holds(got: Result<u32, NoMemory>, want: u32) -> bool {
    match got {
        Ok(word) => word == want,
        Err(NoMemory) => false,
    }
}

#[test]
fn masks_wrap(rt: HostRuntime) {
    for &(mb, me, want) in &MASKS {
        assert_eq!(rt; mask(mb, me), want, "mask({mb}, {me})");
    }
}

const MASKS: [(u8, u8, u32); 9] = [
    (0, 31, 0xffff_ffff),
    (24, 31, 0xff),
    (0, 0, 0x8000_0000),
    (31, 31, 1),
    (5, 5, 0x0400_0000),
    (16, 23, 0xff00),
    (31, 0, 0x8000_0001),
    (30, 1, 0xc000_0003),
    (16, 15, 0xffff_ffff),
];

#[test]
fn sums_carry(rt: HostRuntime) {
    let mut alg = Plain;
    for &(x, y, carry, sum, out) in &SUMS {
        match alg.add(x, y, carry) {
            Ok(got) => assert!(rt; got == (sum, out), "{x:x} + {y:x}"),
            Err(_) => assert!(rt; false, "no memory"),
        }
    }
}

const SUMS: [(u32, u32, bool, u32, bool); 5] = [
    (1, 2, false, 3, false),
    (0xffff_ffff, 0, true, 0, true),
    (0xffff_ffff, 0xffff_ffff, true, 0xffff_ffff, true),
    (0x8000_0000, 0x7fff_ffff, false, 0xffff_ffff, false),
    (0x8000_0000, 0x8000_0000, false, 0, true),
];

#[test]
fn compares_with_and_without_sign(rt: HostRuntime) {
    let mut alg = Plain;
    for &(x, y, signed, want) in &ORDERS {
        match alg.less(x, y, signed) {
            Ok(got) => assert!(rt; got == want, "{x:x} < {y:x}"),
            Err(_) => assert!(rt; false, "no memory"),
        }
    }
}

const ORDERS: [(u32, u32, bool, bool); 5] = [
    (0xffff_ffff, 0, true, true),
    (0xffff_ffff, 0, false, false),
    (0x7fff_ffff, 0x8000_0000, true, false),
    (0x7fff_ffff, 0x8000_0000, false, true),
    (5, 5, true, false),
];

#[test]
fn shifts_and_turns(rt: HostRuntime) {
    let mut alg = Plain;
    for &(x, by, left, right, arith, turned) in &SHIFTS {
        assert!(rt; holds(alg.shift_left(x, by), left), "{x:x} << {by}");
        assert!(rt; holds(alg.shift_right(x, by), right), "{x:x} >> {by}");
        assert!(rt;
            holds(alg.shift_arith(x, by), arith),
            "signed {x:x} >> {by}"
        );
        assert!(rt; holds(alg.rotate(x, by), turned), "{x:x} turned by {by}");
    }
}

// With the words after a shift to the left, to the right, to the right with the sign, and a turn to the left. A count
// of 32 is one of 0.
const SHIFTS: [(u32, u32, u32, u32, u32, u32); 5] = [
    (0x8000_0001, 4, 0x10, 0x0800_0000, 0xf800_0000, 0x0000_0018),
    (
        0x7654_3210,
        8,
        0x5432_1000,
        0x0076_5432,
        0x0076_5432,
        0x5432_1076,
    ),
    (0xffff_fffe, 31, 0, 1, 0xffff_ffff, 0x7fff_ffff),
    (
        0x8765_4321,
        32,
        0x8765_4321,
        0x8765_4321,
        0x8765_4321,
        0x8765_4321,
    ),
    (
        0x8765_4321,
        36,
        0x7654_3210,
        0x0876_5432,
        0xf876_5432,
        0x7654_3218,
    ),
];

#[test]
fn logic_is_bit_by_bit(rt: HostRuntime) {
    let mut alg = Plain;
    assert!(rt;
        holds(alg.and(0xff00_ff00, 0x0ff0_0ff0), 0x0f00_0f00),
        "and"
    );
    assert!(rt; holds(alg.or(0xff00_ff00, 0x0ff0_0ff0), 0xfff0_fff0), "or");
    assert!(rt;
        holds(alg.xor(0xff00_ff00, 0x0ff0_0ff0), 0xf0f0_f0f0),
        "xor"
    );
    assert_eq!(rt; alg.not(0xff00_ff0f), 0x00ff_00f0, "not");
}

#[test]
fn bits_and_bytes_are_counted_from_the_right(rt: HostRuntime) {
    let mut alg = Plain;
    assert!(rt; alg.bit(0x10, 4), "bit 4");
    assert!(rt; !alg.bit(0x10, 27), "bit 27");
    assert_eq!(rt; alg.put_bit(0, 31, true), 0x8000_0000, "put");
    assert_eq!(rt; alg.put_bit(0xff, 0, false), 0xfe, "taken");
    assert_eq!(rt; alg.byte(0x1234_5678, 0), 0x78, "byte 0");
    assert_eq!(rt; alg.byte(0x1234_5678, 3), 0x12, "byte 3");
    assert_eq!(rt; alg.join(0x12, 0x134, 0x56, 0xff78), 0x1234_5678, "joined");
}

#[test]
fn products_have_two_halves(rt: HostRuntime) {
    let mut alg = Plain;
    for &(x, y, low, high, signed) in &PRODUCTS {
        assert!(rt; holds(alg.mul_low(x, y), low), "low word of {x:x} * {y:x}");
        assert!(rt;
            holds(alg.mul_high(x, y, false), high),
            "high word of {x:x} * {y:x}"
        );
        assert!(rt;
            holds(alg.mul_high(x, y, true), signed),
            "signed high word of {x:x} * {y:x}"
        );
    }
}

// With the low word, the high word, and the high word where both are read as signed.
const PRODUCTS: [(u32, u32, u32, u32, u32); 4] = [
    (0xffff_ffff, 0xffff_ffff, 1, 0xffff_fffe, 0),
    (0x8000_0000, 2, 0, 1, 0xffff_ffff),
    (0x8000_0000, 0x8000_0000, 0, 0x4000_0000, 0x4000_0000),
    (7, 0xffff_ffff, 0xffff_fff9, 6, 0xffff_ffff),
];

#[test]
fn divides_toward_zero(rt: HostRuntime) {
    let mut alg = Plain;
    for &(high, low, by, signed, want) in &QUOTIENTS {
        match alg.div(high, low, by, signed) {
            Ok(got) => assert!(rt; got == want, "{high:x} {low:x} / {by:x}"),
            Err(_) => assert!(rt; false, "no memory"),
        }
    }
}

const QUOTIENTS: [(u32, u32, u32, bool, (u32, u32, bool)); 9] = [
    (0, 7, 2, false, (3, 1, false)),
    // -7 by 2 is -3 with -1 left
    (
        0xffff_ffff,
        0xffff_fff9,
        2,
        true,
        (0xffff_fffd, 0xffff_ffff, false),
    ),
    // 7 by -2 is -3 with 1 left
    (0, 7, 0xffff_fffe, true, (0xffff_fffd, 1, false)),
    (0, 7, 0, false, (0, 0, true)),
    (0, 7, 0, true, (0, 0, true)),
    // 2^32 and 2^31 don't fit
    (1, 0, 1, false, (0, 0, true)),
    (0, 0x8000_0000, 1, true, (0, 0, true)),
    (0xffff_ffff, 0x8000_0000, 0xffff_ffff, true, (0, 0, true)),
    // -2^31 fits, and so does 2^32 - 1
    (0xffff_ffff, 0x8000_0000, 1, true, (0x8000_0000, 0, false)),
];

#[test]
fn flags_are_truths(rt: HostRuntime) {
    let mut alg = Plain;
    let yes = alg.flag(true);
    let no = alg.flip(yes);
    assert!(rt; yes && !no, "flags");
    assert!(rt; alg.both(yes, no) == Ok(false), "both");
    assert!(rt; alg.either(yes, no) == Ok(true), "either");
    assert!(rt; alg.differ(yes, no) == Ok(true), "differ");
    assert!(rt; alg.differ(yes, yes) == Ok(false), "differ");
    assert!(rt; alg.equal(3, 3) == Ok(true), "equal");
    assert!(rt; holds(alg.pick(yes, 3, 4), 3), "pick");
    assert!(rt; holds(alg.pick(no, 3, 4), 4), "pick");
    assert_eq!(rt; alg.lit(3), 3, "lit");
}

#[test]
fn formulas_give_their_lists_back(rt: HostRuntime) {
    let literals = vec![in rt.alloc(); 1, -2].expect(&rt, "memory");
    let mut items = Vec::new(rt.alloc());
    items.push(Clause::from(literals)).expect(&rt, "memory");
    let formula = Formula {
        variables: 2,
        clauses: Clauses::from(items),
    };
    assert_eq!(rt; formula.clauses.as_slice().len(), 1, "clauses");
    for clause in formula.clauses.as_slice() {
        assert!(rt; clause.as_slice() == [1, -2].as_slice(), "literals");
    }
    let Formula { clauses, .. } = formula;
    for clause in clauses.into_vec() {
        assert_eq!(rt; clause.into_vec().len(), 2, "literals");
    }
}
