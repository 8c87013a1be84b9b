//! From instructions to words.

ghost use Rattle.std.specs.Prelude.{◌≡◌, ◌+◌, ◌*◌, ◌<◌, ◌^◌, [], ◌∷◌};
ghost use Rattle.ppc_isa.specs.Legal.{bit, layout, IsLegal, IsWordOf};
ghost use Rattle.ppc_isa.specs.Word.{bits, word, Fit};

use crate::instr::Instr;

// The bits of `front`, and behind them `len` bits of `value`.
fn then(front: u32, len: u32, value: u32) -> u32
    requires len { len < 32 }
    requires value { value < 2 ^ len }
    requires room { front * 2 ^ len + value < 2 ^ 32 }
    ensures { result ≡ front * 2 ^ len + value }
{
    front << len | value
}

// Format D.
fn d_form(primary: u32, d: u8, a: u8, imm: u16) -> u32
    requires primary { primary < 2 ^ 6 }
    requires d { d < 2 ^ 5 }
    requires a { a < 2 ^ 5 }
    ensures { result ≡ word (bits 6 primary ∷ bits 5 d ∷ bits 5 a ∷ bits 16 imm ∷ []) }
{
    let front = then(then(primary, 5, d as u32), 5, a as u32);
    then(front, 16, imm as u32)
}

// The formats with three registers, an extended opcode of ten bits and a last bit: X, XO, XL and XFX.
fn x_form(primary: u32, d: u8, a: u8, b: u8, extended: u32, last: bool) -> u32
    requires primary { primary < 2 ^ 6 }
    requires d { d < 2 ^ 5 }
    requires a { a < 2 ^ 5 }
    requires b { b < 2 ^ 5 }
    requires extended { extended < 2 ^ 10 }
    ensures { result ≡ word (bits 6 primary ∷ bits 5 d ∷ bits 5 a ∷ bits 5 b ∷ bits 10 extended ∷ bits 1 (bit last) ∷ []) }
{
    let front = then(then(then(primary, 5, d as u32), 5, a as u32), 5, b as u32);
    then(then(front, 10, extended), 1, last as u32)
}

// Format M. The extended opcode of an X form stands where the mask does here.
fn m_form(primary: u32, s: u8, a: u8, by: u8, mask: (u8, u8), records: bool) -> u32
    requires primary { primary < 2 ^ 6 }
    requires s { s < 2 ^ 5 }
    requires a { a < 2 ^ 5 }
    requires by { by < 2 ^ 5 }
    requires begin { mask.0 < 2 ^ 5 }
    requires end { mask.1 < 2 ^ 5 }
    ensures { result ≡ word (bits 6 primary ∷ bits 5 s ∷ bits 5 a ∷ bits 5 by ∷ bits 5 mask.0 ∷ bits 5 mask.1 ∷ bits 1 (bit records) ∷ []) }
{
    let (begin, end) = mask;
    x_form(
        primary,
        s,
        a,
        by,
        then(begin as u32, 5, end as u32),
        records,
    )
}

// Format I.
fn i_form(target: u32, absolute: bool, link: bool) -> u32
    requires { target < 2 ^ 24 }
    ensures { result ≡ word (bits 6 18 ∷ bits 24 target ∷ bits 1 (bit absolute) ∷ bits 1 (bit link) ∷ []) }
{
    then(
        then(then(18, 24, target), 1, absolute as u32),
        1,
        link as u32,
    )
}

// Format B.
fn b_form(bo: u8, bi: u8, target: u16, absolute: bool, link: bool) -> u32
    requires bo { bo < 2 ^ 5 }
    requires bi { bi < 2 ^ 5 }
    requires target { target < 2 ^ 14 }
    ensures { result ≡ word (bits 6 16 ∷ bits 5 bo ∷ bits 5 bi ∷ bits 14 target ∷ bits 1 (bit absolute) ∷ bits 1 (bit link) ∷ []) }
{
    let front = then(then(16, 5, bo as u32), 5, bi as u32);
    let target = then(front, 14, target as u32);
    then(then(target, 1, absolute as u32), 1, link as u32)
}

// The word of the fields, also where the form is illegal.
pub(crate) fn word_of(instr: &Instr) -> u32
    requires { Fit (layout instr.now) }
    ensures { result ≡ word (layout instr.now) }
{
    match *instr {
        Instr::Immediate { op, d, a, imm } => d_form(op as u32, d, a, imm),
        Instr::LogicImmediate { op, s, a, imm } => d_form(op as u32, s, a, imm),
        Instr::Load { op, d, a, imm } => d_form(op as u32, d, a, imm),
        Instr::Store { op, s, a, imm } => d_form(op as u32, s, a, imm),
        Instr::LoadUpdate { op, d, a, imm } => d_form(op as u32, d, a, imm),
        Instr::StoreUpdate { op, s, a, imm } => d_form(op as u32, s, a, imm),
        Instr::Multiple { op, d, a, imm } => d_form(op as u32, d, a, imm),
        Instr::TrapImmediate { to, a, imm } => d_form(3, to, a, imm),
        Instr::CompareImmediate { op, field, a, imm } => d_form(op as u32, field << 2, a, imm),
        Instr::Rotate {
            op,
            s,
            a,
            by,
            mask_begin,
            mask_end,
            records,
        } => m_form(op as u32, s, a, by, (mask_begin, mask_end), records),
        Instr::Branch {
            target,
            absolute,
            link,
        } => i_form(target, absolute, link),
        Instr::BranchConditional {
            bo,
            bi,
            target,
            absolute,
            link,
        } => b_form(bo, bi, target, absolute, link),
        Instr::SystemCall => 0x44000002,
        Instr::Arithmetic {
            op,
            d,
            a,
            b,
            records,
        } => x_form(31, d, a, b, op as u32, records),
        Instr::ArithmeticUnary { op, d, a, records } => x_form(31, d, a, 0, op as u32, records),
        Instr::Logic {
            op,
            s,
            a,
            b,
            records,
        } => x_form(31, s, a, b, op as u32, records),
        Instr::ShiftImmediate { s, a, by, records } => x_form(31, s, a, by, 824, records),
        Instr::LogicUnary { op, s, a, records } => x_form(31, s, a, 0, op as u32, records),
        Instr::Compare { op, field, a, b } => x_form(31, field << 2, a, b, op as u32, false),
        Instr::Trap { to, a, b } => x_form(31, to, a, b, 4, false),
        Instr::MoveFromCr { d } => x_form(31, d, 0, 0, 19, false),
        Instr::MoveToCr { s, mask } => x_form(31, s, mask >> 4, (mask & 15) << 1, 144, false),
        Instr::MoveFromSpr { d, spr } => x_form(
            31,
            d,
            (spr & 31) as u8,
            (spr >> 5) as u8,
            339,
            false,
        ),
        Instr::MoveToSpr { s, spr } => x_form(
            31,
            s,
            (spr & 31) as u8,
            (spr >> 5) as u8,
            467,
            false,
        ),
        Instr::Sync => x_form(31, 0, 0, 0, 598, false),
        Instr::LoadIndexed { op, d, a, b } => x_form(31, d, a, b, op as u32, false),
        Instr::StoreIndexed { op, s, a, b } => x_form(31, s, a, b, op as u32, false),
        Instr::LoadIndexedUpdate { op, d, a, b } => x_form(31, d, a, b, op as u32, false),
        Instr::StoreIndexedUpdate { op, s, a, b } => x_form(31, s, a, b, op as u32, false),
        Instr::MoveCrField { to, from } => x_form(19, to << 2, from << 2, 0, 0, false),
        Instr::CrLogic { op, d, a, b } => x_form(19, d, a, b, op as u32, false),
        Instr::Isync => x_form(19, 0, 0, 0, 150, false),
        Instr::BranchRegister { op, bo, bi, link } => x_form(19, bo, bi, 0, op as u32, link),
    }
}

/// The word of a legal instruction.
pub fn encode(instr: &Instr) -> u32
    requires { IsLegal instr.now }
    ensures { IsWordOf result instr.now }
{
    word_of(instr)
}
