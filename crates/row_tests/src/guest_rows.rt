use ppc_alu::*;
use ppc_isa::decode;
use word_kit::Plain;

// Expected values are worked out by hand.

#[derive(Clone, Copy)]
struct Old {
    a: u32,
    b: u32,
    s: u32,
    cr: u32,
    xer: u32,
    lr: u32,
    ctr: u32,
    loaded: u32,
}

fn given(a: u32, b: u32, s: u32, cr: u32, xer: u32) -> Old {
    Old {
        a,
        b,
        s,
        cr,
        xer,
        lr: 0,
        ctr: 0,
        loaded: 0,
    }
}

fn run(word: u32, old: Old) -> Option<Effect<Plain>> {
    let instr = decode(word)?;
    let from = GuestIn {
        a: old.a,
        b: old.b,
        s: old.s,
        cr: old.cr,
        xer: old.xer,
        lr: old.lr,
        ctr: old.ctr,
        loaded: old.loaded,
    };
    effect(&mut Plain, &instr, &from).ok()
}

#[test]
fn arithmetic_gives_results_carries_and_records(rt: HostRuntime) {
    for &(text, word, a, b, xer, d_after, xer_after, cr_after) in &ARITHMETIC {
        let made = run(word, given(a, b, 0, 0, xer)).expect(&rt, "an effect");
        assert_eq!(rt; made.d, d_after, "rD of {text}");
        assert_eq!(rt; made.xer, xer_after, "XER of {text}");
        assert_eq!(rt; made.cr, cr_after, "CR of {text}");
    }
}

#[test]
fn logic_and_shifts_give_results_carries_and_records(rt: HostRuntime) {
    for &(text, word, s, b, xer, a_after, xer_after, cr_after) in &LOGIC {
        let made = run(word, given(0xaaaa_aaaa, b, s, 0, xer)).expect(&rt, "an effect");
        assert_eq!(rt; made.a, a_after, "rA of {text}");
        assert_eq!(rt; made.xer, xer_after, "XER of {text}");
        assert_eq!(rt; made.cr, cr_after, "CR of {text}");
    }
}

#[test]
fn accesses_have_an_address_and_a_width(rt: HostRuntime) {
    for &(text, word, [a, b, s, loaded], [d, a_after, address, stored], width, kind) in &ACCESSES {
        let from = Old {
            loaded,
            ..given(a, b, s, 0, 0)
        };
        let made = run(word, from).expect(&rt, "an effect");
        assert_eq!(rt; made.d, d, "rD of {text}");
        assert_eq!(rt; made.a, a_after, "rA of {text}");
        assert_eq!(rt; made.address, address, "address of {text}");
        assert_eq!(rt; made.stored, stored, "number stored by {text}");
        assert!(rt; made.width == width && made.kind == kind, "width of {text}");
    }
}

#[test]
fn branches_traps_and_moves_change_what_they_name(rt: HostRuntime) {
    for &(text, word, [a, b, s, cr, lr, ctr], [cr_after, lr_after, ctr_after], taken) in &FLOW {
        let from = Old {
            lr,
            ctr,
            ..given(a, b, s, cr, 0)
        };
        let made = run(word, from).expect(&rt, "an effect");
        assert_eq!(rt; made.cr, cr_after, "CR of {text}");
        assert_eq!(rt; made.lr, lr_after, "LR of {text}");
        assert_eq!(rt; made.ctr, ctr_after, "CTR of {text}");
        assert_eq!(rt; made.taken, taken, "{text}");
    }
}

#[test]
fn xer_keeps_the_bits_that_there_are(rt: HostRuntime) {
    let made = run(0x7c6103a6, given(0, 0, u32::MAX, 0, 0)).expect(&rt, "an effect");
    assert_eq!(rt; made.xer, 0xe000_007f);
}

// What rA, rB and XER hold; then rD, XER and CR, whose old value is 0.
const ARITHMETIC: [(&'static str, u32, u32, u32, u32, u32, u32, u32); 24] = [
    (
        "addc r3,r4,r5 carries",
        0x7c642814,
        0xffffffff,
        2,
        0,
        1,
        0x20000000,
        0,
    ),
    (
        "addc. records SO and no carry",
        0x7c642815,
        0xffffffff,
        2,
        0,
        1,
        0x20000000,
        0x40000000,
    ),
    (
        "adde. records SO",
        0x7c642915,
        0xffffffff,
        0,
        0xa0000000,
        0,
        0xa0000000,
        0x30000000,
    ),
    (
        "add. of a negative sum",
        0x7c642a15,
        0x7fffffff,
        1,
        0,
        0x80000000,
        0,
        0x80000000,
    ),
    ("addme r3,r4", 0x7c6401d4, 0, 0, 0, 0xffffffff, 0, 0),
    (
        "subf r3,r4,r5",
        0x7c642850,
        3,
        5,
        0x20000000,
        2,
        0x20000000,
        0,
    ),
    (
        "subfc of less from more",
        0x7c642810,
        3,
        5,
        0,
        2,
        0x20000000,
        0,
    ),
    (
        "subfc of more from less",
        0x7c642810,
        5,
        3,
        0x20000000,
        0xfffffffe,
        0,
        0,
    ),
    ("subfc of equals", 0x7c642810, 7, 7, 0, 0, 0x20000000, 0),
    ("subfe without carry", 0x7c642910, 3, 5, 0, 1, 0x20000000, 0),
    (
        "subfic r3,r4,-1",
        0x2064ffff,
        0,
        0xffffffff,
        0,
        0xffffffff,
        0x20000000,
        0,
    ),
    ("neg r3,r4", 0x7c6400d0, 0x80000000, 0, 0, 0x80000000, 0, 0),
    ("addi r3,0,5", 0x38600005, 9, 5, 0, 5, 0, 0),
    ("addi r3,r4,5", 0x38640005, 9, 5, 0, 0xe, 0, 0),
    (
        "mullw r3,r4,r5",
        0x7c6429d6,
        0x10001,
        0x10001,
        0,
        0x20001,
        0,
        0,
    ),
    (
        "mulhwu r3,r4,r5",
        0x7c642816,
        0xffffffff,
        0xffffffff,
        0,
        0xfffffffe,
        0,
        0,
    ),
    (
        "mulhw r3,r4,r5",
        0x7c642896,
        0xffffffff,
        0xffffffff,
        0,
        0,
        0,
        0,
    ),
    ("divw by 0", 0x7c642bd6, 7, 0, 0, 0, 0, 0),
    (
        "divw of the least number by -1",
        0x7c642bd6,
        0x80000000,
        0xffffffff,
        0,
        0,
        0,
        0,
    ),
    (
        "divw of -7 by 2",
        0x7c642bd6,
        0xfffffff9,
        2,
        0,
        0xfffffffd,
        0,
        0,
    ),
    (
        "divw of 7 by -2",
        0x7c642bd6,
        7,
        0xfffffffe,
        0,
        0xfffffffd,
        0,
        0,
    ),
    (
        "divwu of 2^32 - 7 by 2",
        0x7c642b96,
        0xfffffff9,
        2,
        0,
        0x7ffffffc,
        0,
        0,
    ),
    ("divwu by 0", 0x7c642b96, 7, 0, 0, 0, 0, 0),
    (
        "mfxer r3", 0x7c6102a6, 0, 0, 0x80000005, 0x80000005, 0x80000005, 0,
    ),
];

// What rS, rB and XER hold; then rA, XER and CR, whose old value is 0.
const LOGIC: [(&'static str, u32, u32, u32, u32, u32, u32, u32); 31] = [
    ("slw by 31", 0x7c832830, 3, 0x1f, 0, 0x80000000, 0, 0),
    ("slw by 32", 0x7c832830, 3, 0x20, 0, 0, 0, 0),
    ("slw by 63", 0x7c832830, 3, 0x3f, 0, 0, 0, 0),
    ("slw by 64", 0x7c832830, 3, 0x40, 0, 3, 0, 0),
    ("srw by 31", 0x7c832c30, 0x80000000, 0x1f, 0, 1, 0, 0),
    ("srw by 32", 0x7c832c30, 0x80000000, 0x20, 0, 0, 0, 0),
    (
        "sraw by 0",
        0x7c832e30,
        0x80000001,
        0,
        0x20000000,
        0x80000001,
        0,
        0,
    ),
    (
        "sraw by 1",
        0x7c832e30,
        0x80000001,
        1,
        0,
        0xc0000000,
        0x20000000,
        0,
    ),
    (
        "sraw by 31 that loses no one",
        0x7c832e30,
        0x80000000,
        0x1f,
        0x20000000,
        0xffffffff,
        0,
        0,
    ),
    (
        "sraw by 32",
        0x7c832e30,
        0x80000000,
        0x20,
        0,
        0xffffffff,
        0x20000000,
        0,
    ),
    (
        "sraw by 63",
        0x7c832e30,
        0xfffffff0,
        0x3f,
        0,
        0xffffffff,
        0x20000000,
        0,
    ),
    (
        "sraw by 64",
        0x7c832e30,
        0xfffffff1,
        0x40,
        0x20000000,
        0xfffffff1,
        0,
        0,
    ),
    (
        "sraw of a positive number",
        0x7c832e30,
        0x7fffffff,
        4,
        0x20000000,
        0x7ffffff,
        0,
        0,
    ),
    (
        "sraw of a positive number by 32",
        0x7c832e30,
        0x7fffffff,
        0x20,
        0x20000000,
        0,
        0,
        0,
    ),
    (
        "srawi r3,r4,3 of -8",
        0x7c831e70,
        0xfffffff8,
        0,
        0x20000000,
        0xffffffff,
        0,
        0,
    ),
    (
        "srawi r3,r4,4 of -8",
        0x7c832670,
        0xfffffff8,
        0,
        0,
        0xffffffff,
        0x20000000,
        0,
    ),
    (
        "srawi. records no carry",
        0x7c832671,
        0xfffffff8,
        0,
        0,
        0xffffffff,
        0x20000000,
        0x80000000,
    ),
    ("cntlzw of 0", 0x7c830034, 0, 0, 0, 0x20, 0, 0),
    ("cntlzw of 1", 0x7c830034, 1, 0, 0, 0x1f, 0, 0),
    (
        "cntlzw of the top bit",
        0x7c830034,
        0x80000000,
        0,
        0,
        0,
        0,
        0,
    ),
    ("cntlzw of 0x0001ffff", 0x7c830034, 0x1ffff, 0, 0, 0xf, 0, 0),
    (
        "extsb r3,r4",
        0x7c830774,
        0x12345680,
        0,
        0,
        0xffffff80,
        0,
        0,
    ),
    ("extsh r3,r4", 0x7c830734, 0x12345680, 0, 0, 0x5680, 0, 0),
    (
        "rlwinm r3,r4,4,28,3",
        0x54832706,
        0x12345678,
        0,
        0,
        0x20000001,
        0,
        0,
    ),
    (
        "rlwinm r3,r4,8,24,31",
        0x5483463e,
        0x12345678,
        0,
        0,
        0x12,
        0,
        0,
    ),
    (
        "rlwnm r3,r4,r5,0,31 by 36",
        0x5c83283e,
        0x12345678,
        0x24,
        0,
        0x23456781,
        0,
        0,
    ),
    (
        "rlwimi r3,r4,0,0,7",
        0x5083000e,
        0x12345678,
        0,
        0,
        0x12aaaaaa,
        0,
        0,
    ),
    (
        "nand r3,r4,r5",
        0x7c832bb8,
        0xff00ff00,
        0xf0f0f0f0,
        0,
        0xfff0fff,
        0,
        0,
    ),
    (
        "andc r3,r4,r5",
        0x7c832878,
        0xff00ff00,
        0xf0f0f0f0,
        0,
        0xf000f00,
        0,
        0,
    ),
    (
        "andi. records",
        0x70838000,
        0xffff8000,
        0x8000,
        0x80000000,
        0x8000,
        0x80000000,
        0x50000000,
    ),
    (
        "oris r3,r4,0x8000",
        0x64838000,
        1,
        0x80000000,
        0,
        0x80000001,
        0,
        0,
    ),
];

// What rA, rB and rS hold and the number loaded; then rD, rA, the address and the number stored.
const ACCESSES: [(&'static str, u32, [u32; 4], [u32; 4], u8, Access); 15] = [
    (
        "lwz r3,8(r4)",
        0x80640008,
        [0x1000, 8, 7, 0x11223344],
        [0x11223344, 0x1000, 0x1008, 0],
        4,
        Access::Load,
    ),
    (
        "lwz r3,8(0)",
        0x80600008,
        [0x1000, 8, 7, 0x11223344],
        [0x11223344, 0x1000, 8, 0],
        4,
        Access::Load,
    ),
    (
        "lbz r3,-1(r4)",
        0x8864ffff,
        [0x1000, 0xffffffff, 7, 0x80],
        [0x80, 0x1000, 0xfff, 0],
        1,
        Access::Load,
    ),
    (
        "lha r3,0(r4)",
        0xa8640000,
        [0x1000, 0, 7, 0x8001],
        [0xffff8001, 0x1000, 0x1000, 0],
        2,
        Access::Load,
    ),
    (
        "lhau r3,2(r4)",
        0xac640002,
        [0x1000, 2, 7, 0x7fff],
        [0x7fff, 0x1002, 0x1002, 0],
        2,
        Access::Load,
    ),
    (
        "lwzu r3,-4(r4)",
        0x8464fffc,
        [2, 0xfffffffc, 7, 9],
        [9, 0xfffffffe, 0xfffffffe, 0],
        4,
        Access::Load,
    ),
    (
        "lwbrx r3,r4,r5",
        0x7c642c2c,
        [0x10, 4, 7, 0x11223344],
        [0x44332211, 0x10, 0x14, 0],
        4,
        Access::Load,
    ),
    (
        "lhbrx r3,r4,r5",
        0x7c642e2c,
        [0x10, 4, 7, 0x1122],
        [0x2211, 0x10, 0x14, 0],
        2,
        Access::Load,
    ),
    (
        "stb r3,1(r4)",
        0x98640001,
        [0x10, 1, 0xaabbccdd, 0],
        [0xaabbccdd, 0x10, 0x11, 0xdd],
        1,
        Access::Store,
    ),
    (
        "sthu r3,2(r4)",
        0xb4640002,
        [0x10, 2, 0xaabbccdd, 0],
        [0xaabbccdd, 0x12, 0x12, 0xccdd],
        2,
        Access::Store,
    ),
    (
        "stwbrx r3,r4,r5",
        0x7c642d2c,
        [0x10, 4, 0xaabbccdd, 0],
        [0xaabbccdd, 0x10, 0x14, 0xddccbbaa],
        4,
        Access::Store,
    ),
    (
        "sthbrx r3,r4,r5",
        0x7c642f2c,
        [0x10, 4, 0xaabbccdd, 0],
        [0xaabbccdd, 0x10, 0x14, 0xddcc],
        2,
        Access::Store,
    ),
    (
        "lmw r30,4(r4)",
        0xbbc40004,
        [0x10, 4, 7, 0],
        [7, 0x10, 0x14, 0],
        8,
        Access::Load,
    ),
    (
        "stmw r29,4(r4)",
        0xbfa40004,
        [0x10, 4, 7, 0],
        [7, 0x10, 0x14, 0],
        12,
        Access::Store,
    ),
    (
        "add r3,r4,r5",
        0x7c642a14,
        [0x10, 4, 7, 0],
        [0x14, 0x10, 0, 0],
        0,
        Access::None,
    ),
];

// What rA, rB, rS, CR, LR and CTR hold; then CR, LR and CTR.
const FLOW: [(&'static str, u32, [u32; 6], [u32; 3], bool); 22] = [
    (
        "bdnz at 1",
        0x42000008,
        [0, 0, 0, 0, 5, 1],
        [0, 5, 0],
        false,
    ),
    ("bdnz at 2", 0x42000008, [0, 0, 0, 0, 5, 2], [0, 5, 1], true),
    (
        "bdnz at 0",
        0x42000008,
        [0, 0, 0, 0, 5, 0],
        [0, 5, 0xffffffff],
        true,
    ),
    ("bdz at 1", 0x42400008, [0, 0, 0, 0, 5, 1], [0, 5, 0], true),
    (
        "beq with EQ",
        0x41820008,
        [0, 0, 0, 0x20000000, 5, 6],
        [0x20000000, 5, 6],
        true,
    ),
    (
        "beq without EQ",
        0x41820008,
        [0, 0, 0, 0xd0000000, 5, 6],
        [0xd0000000, 5, 6],
        false,
    ),
    (
        "bne with EQ",
        0x40820008,
        [0, 0, 0, 0x20000000, 5, 6],
        [0x20000000, 5, 6],
        false,
    ),
    ("blr", 0x4e800020, [0, 0, 0, 0, 5, 6], [0, 5, 6], true),
    (
        "tweq of equals",
        0x7c842808,
        [7, 7, 0, 0, 5, 6],
        [0, 5, 6],
        true,
    ),
    (
        "twlt of more",
        0x7e042808,
        [7, 6, 0, 0, 5, 6],
        [0, 5, 6],
        false,
    ),
    (
        "twllt of 1 and -1",
        0x7c442808,
        [1, 0xffffffff, 0, 0, 5, 6],
        [0, 5, 6],
        true,
    ),
    (
        "twlt of 1 and -1",
        0x7e042808,
        [1, 0xffffffff, 0, 0, 5, 6],
        [0, 5, 6],
        false,
    ),
    (
        "mtcrf 0x81,r3",
        0x7c681120,
        [0, 0, 0x12345678, 0xabcdef09, 5, 6],
        [0x1bcdef08, 5, 6],
        false,
    ),
    (
        "mtcrf 0x40,r3",
        0x7c640120,
        [0, 0, 0x12345678, 0xabcdef09, 5, 6],
        [0xa2cdef09, 5, 6],
        false,
    ),
    ("mtlr r3", 0x7c6803a6, [0, 0, 9, 1, 5, 6], [1, 9, 6], false),
    ("mtctr r3", 0x7c6903a6, [0, 0, 9, 1, 5, 6], [1, 5, 9], false),
    (
        "cmpw cr7,r4,r5 of -1 and 1",
        0x7f842800,
        [0xffffffff, 1, 0, 0, 5, 6],
        [8, 5, 6],
        false,
    ),
    (
        "cmplw cr7,r4,r5 of -1 and 1",
        0x7f842840,
        [0xffffffff, 1, 0, 0, 5, 6],
        [4, 5, 6],
        false,
    ),
    (
        "mcrf cr0,cr7",
        0x4c1c0000,
        [0, 0, 0, 0xf000000a, 5, 6],
        [0xa000000a, 5, 6],
        false,
    ),
    (
        "crxor 1,6,11",
        0x4c265982,
        [0, 0, 0, 0x2000000, 5, 6],
        [0x42000000, 5, 6],
        false,
    ),
    (
        "crnor 31,0,1",
        0x4fe00842,
        [0, 0, 0, 0x20000000, 5, 6],
        [0x20000001, 5, 6],
        false,
    ),
    ("sync", 0x7c0004ac, [1, 2, 3, 4, 5, 6], [4, 5, 6], false),
];
