//! From words to instructions: the opcodes name an instruction, and the word is legal where it is that instruction's.

ghost use Rattle.std.specs.Prelude.{ℕ, ◌≡◌, ◌+◌, ◌*◌, ◌<◌, ◌≤◌, ◌^◌, ◌==◌, ◌↔◌, IsTrue, IfSome, Option, Some};
ghost use Rattle.ppc_isa.specs.Legal.{layout, Allowed, IsSpr, IsWordOf, ReadsWords};
ghost use Rattle.ppc_isa.specs.declared.instr.Instr.{Instr};
ghost use Rattle.ppc_isa.specs.Word.{Fit};
ghost use Rattle.ppc_isa.specs.Reading.{cut, is_one, read, read_31, read_19};

use crate::encoding::word_of;
use crate::instr::*;

// The `len` bits of a word with `below` bits after them.
fn cut_of(word: u32, below: u32, len: u32) -> u32
    requires within { below + len ≤ 32 }
    requires some { 0 < len }
    requires few { len < 32 }
    ensures { result ≡ cut word below len }
{
    word >> below & ((1 << len) - 1)
}

fn five(word: u32, below: u32) -> u8
    requires { below + 5 ≤ 32 }
    ensures { result ≡ cut word below 5 }
{
    cut_of(word, below, 5) as u8
}

fn flag(word: u32, below: u32) -> bool
    requires { below + 1 ≤ 32 }
    ensures { result ≡ is_one (cut word below 1) }
{
    cut_of(word, below, 1) == 1
}

// The field of rD, rS, TO, BO, or of a bit of CR that is written.
fn rd(word: u32) -> u8
    ensures { result ≡ cut word 21 5 }
{
    five(word, 21)
}

fn ra(word: u32) -> u8
    ensures { result ≡ cut word 16 5 }
{
    five(word, 16)
}

fn rb(word: u32) -> u8
    ensures { result ≡ cut word 11 5 }
{
    five(word, 11)
}

fn imm(word: u32) -> u16
    ensures { result ≡ cut word 0 16 }
{
    cut_of(word, 0, 16) as u16
}

// The number of a special register stands with its two halves swapped.
fn spr(word: u32) -> u16
    ensures { result ≡ cut word 11 5 * 2 ^ 5 + cut word 16 5 }
{
    (rb(word) as u16) << 5 | ra(word) as u16
}

fn trap_immediate(word: u32) -> Option<Instr>
    ensures { result ≡ Some (Instr.TrapImmediate (cut word 21 5) (cut word 16 5) (cut word 0 16)) }
{
    Some(Instr::TrapImmediate {
        to: rd(word),
        a: ra(word),
        imm: imm(word),
    })
}

fn immediate(op: ImmediateOp, word: u32) -> Option<Instr>
    ensures { result ≡ Some (Instr.Immediate op (cut word 21 5) (cut word 16 5) (cut word 0 16)) }
{
    Some(Instr::Immediate {
        op,
        d: rd(word),
        a: ra(word),
        imm: imm(word),
    })
}

fn compare_immediate(op: CompareImmediateOp, word: u32) -> Option<Instr>
    ensures { result ≡ Some (Instr.CompareImmediate op (cut word 23 3) (cut word 16 5) (cut word 0 16)) }
{
    Some(Instr::CompareImmediate {
        op,
        field: cut_of(word, 23, 3) as u8,
        a: ra(word),
        imm: imm(word),
    })
}

fn branch_conditional(word: u32) -> Option<Instr>
    ensures { result ≡ Some (Instr.BranchConditional (cut word 21 5) (cut word 16 5) (cut word 2 14) (is_one (cut word 1 1)) (is_one (cut word 0 1))) }
{
    Some(Instr::BranchConditional {
        bo: rd(word),
        bi: ra(word),
        target: cut_of(word, 2, 14) as u16,
        absolute: flag(word, 1),
        link: flag(word, 0),
    })
}

fn branch(word: u32) -> Option<Instr>
    ensures { result ≡ Some (Instr.Branch (cut word 2 24) (is_one (cut word 1 1)) (is_one (cut word 0 1))) }
{
    Some(Instr::Branch {
        target: cut_of(word, 2, 24),
        absolute: flag(word, 1),
        link: flag(word, 0),
    })
}

fn rotate(op: RotateOp, word: u32) -> Option<Instr>
    ensures { result ≡ Some (Instr.Rotate op (cut word 21 5) (cut word 16 5) (cut word 11 5) (cut word 6 5) (cut word 1 5) (is_one (cut word 0 1))) }
{
    Some(Instr::Rotate {
        op,
        s: rd(word),
        a: ra(word),
        by: rb(word),
        mask_begin: five(word, 6),
        mask_end: five(word, 1),
        records: flag(word, 0),
    })
}

fn logic_immediate(op: LogicImmediateOp, word: u32) -> Option<Instr>
    ensures { result ≡ Some (Instr.LogicImmediate op (cut word 21 5) (cut word 16 5) (cut word 0 16)) }
{
    Some(Instr::LogicImmediate {
        op,
        s: rd(word),
        a: ra(word),
        imm: imm(word),
    })
}

fn load(op: LoadOp, word: u32) -> Option<Instr>
    ensures { result ≡ Some (Instr.Load op (cut word 21 5) (cut word 16 5) (cut word 0 16)) }
{
    Some(Instr::Load {
        op,
        d: rd(word),
        a: ra(word),
        imm: imm(word),
    })
}

fn load_update(op: LoadUpdateOp, word: u32) -> Option<Instr>
    ensures { result ≡ Some (Instr.LoadUpdate op (cut word 21 5) (cut word 16 5) (cut word 0 16)) }
{
    Some(Instr::LoadUpdate {
        op,
        d: rd(word),
        a: ra(word),
        imm: imm(word),
    })
}

fn store(op: StoreOp, word: u32) -> Option<Instr>
    ensures { result ≡ Some (Instr.Store op (cut word 21 5) (cut word 16 5) (cut word 0 16)) }
{
    Some(Instr::Store {
        op,
        s: rd(word),
        a: ra(word),
        imm: imm(word),
    })
}

fn store_update(op: StoreUpdateOp, word: u32) -> Option<Instr>
    ensures { result ≡ Some (Instr.StoreUpdate op (cut word 21 5) (cut word 16 5) (cut word 0 16)) }
{
    Some(Instr::StoreUpdate {
        op,
        s: rd(word),
        a: ra(word),
        imm: imm(word),
    })
}

fn multiple(op: MultipleOp, word: u32) -> Option<Instr>
    ensures { result ≡ Some (Instr.Multiple op (cut word 21 5) (cut word 16 5) (cut word 0 16)) }
{
    Some(Instr::Multiple {
        op,
        d: rd(word),
        a: ra(word),
        imm: imm(word),
    })
}

fn compare(op: CompareOp, word: u32) -> Option<Instr>
    ensures { result ≡ Some (Instr.Compare op (cut word 23 3) (cut word 16 5) (cut word 11 5)) }
{
    Some(Instr::Compare {
        op,
        field: cut_of(word, 23, 3) as u8,
        a: ra(word),
        b: rb(word),
    })
}

fn trap(word: u32) -> Option<Instr>
    ensures { result ≡ Some (Instr.Trap (cut word 21 5) (cut word 16 5) (cut word 11 5)) }
{
    Some(Instr::Trap {
        to: rd(word),
        a: ra(word),
        b: rb(word),
    })
}

fn arithmetic(op: ArithmeticOp, word: u32) -> Option<Instr>
    ensures { result ≡ Some (Instr.Arithmetic op (cut word 21 5) (cut word 16 5) (cut word 11 5) (is_one (cut word 0 1))) }
{
    Some(Instr::Arithmetic {
        op,
        d: rd(word),
        a: ra(word),
        b: rb(word),
        records: flag(word, 0),
    })
}

fn move_from_cr(word: u32) -> Option<Instr>
    ensures { result ≡ Some (Instr.MoveFromCr (cut word 21 5)) }
{
    Some(Instr::MoveFromCr { d: rd(word) })
}

fn load_indexed(op: LoadIndexedOp, word: u32) -> Option<Instr>
    ensures { result ≡ Some (Instr.LoadIndexed op (cut word 21 5) (cut word 16 5) (cut word 11 5)) }
{
    Some(Instr::LoadIndexed {
        op,
        d: rd(word),
        a: ra(word),
        b: rb(word),
    })
}

fn logic(op: LogicOp, word: u32) -> Option<Instr>
    ensures { result ≡ Some (Instr.Logic op (cut word 21 5) (cut word 16 5) (cut word 11 5) (is_one (cut word 0 1))) }
{
    Some(Instr::Logic {
        op,
        s: rd(word),
        a: ra(word),
        b: rb(word),
        records: flag(word, 0),
    })
}

fn logic_unary(op: LogicUnaryOp, word: u32) -> Option<Instr>
    ensures { result ≡ Some (Instr.LogicUnary op (cut word 21 5) (cut word 16 5) (is_one (cut word 0 1))) }
{
    Some(Instr::LogicUnary {
        op,
        s: rd(word),
        a: ra(word),
        records: flag(word, 0),
    })
}

fn load_indexed_update(op: LoadIndexedUpdateOp, word: u32) -> Option<Instr>
    ensures { result ≡ Some (Instr.LoadIndexedUpdate op (cut word 21 5) (cut word 16 5) (cut word 11 5)) }
{
    Some(Instr::LoadIndexedUpdate {
        op,
        d: rd(word),
        a: ra(word),
        b: rb(word),
    })
}

fn arithmetic_unary(op: ArithmeticUnaryOp, word: u32) -> Option<Instr>
    ensures { result ≡ Some (Instr.ArithmeticUnary op (cut word 21 5) (cut word 16 5) (is_one (cut word 0 1))) }
{
    Some(Instr::ArithmeticUnary {
        op,
        d: rd(word),
        a: ra(word),
        records: flag(word, 0),
    })
}

fn move_to_cr(word: u32) -> Option<Instr>
    ensures { result ≡ Some (Instr.MoveToCr (cut word 21 5) (cut word 12 8)) }
{
    Some(Instr::MoveToCr {
        s: rd(word),
        mask: cut_of(word, 12, 8) as u8,
    })
}

fn store_indexed(op: StoreIndexedOp, word: u32) -> Option<Instr>
    ensures { result ≡ Some (Instr.StoreIndexed op (cut word 21 5) (cut word 16 5) (cut word 11 5)) }
{
    Some(Instr::StoreIndexed {
        op,
        s: rd(word),
        a: ra(word),
        b: rb(word),
    })
}

fn store_indexed_update(op: StoreIndexedUpdateOp, word: u32) -> Option<Instr>
    ensures { result ≡ Some (Instr.StoreIndexedUpdate op (cut word 21 5) (cut word 16 5) (cut word 11 5)) }
{
    Some(Instr::StoreIndexedUpdate {
        op,
        s: rd(word),
        a: ra(word),
        b: rb(word),
    })
}

fn move_from_spr(word: u32) -> Option<Instr>
    ensures { result ≡ Some (Instr.MoveFromSpr (cut word 21 5) (cut word 11 5 * 2 ^ 5 + cut word 16 5)) }
{
    Some(Instr::MoveFromSpr {
        d: rd(word),
        spr: spr(word),
    })
}

fn move_to_spr(word: u32) -> Option<Instr>
    ensures { result ≡ Some (Instr.MoveToSpr (cut word 21 5) (cut word 11 5 * 2 ^ 5 + cut word 16 5)) }
{
    Some(Instr::MoveToSpr {
        s: rd(word),
        spr: spr(word),
    })
}

fn shift_immediate(word: u32) -> Option<Instr>
    ensures { result ≡ Some (Instr.ShiftImmediate (cut word 21 5) (cut word 16 5) (cut word 11 5) (is_one (cut word 0 1))) }
{
    Some(Instr::ShiftImmediate {
        s: rd(word),
        a: ra(word),
        by: rb(word),
        records: flag(word, 0),
    })
}

fn move_cr_field(word: u32) -> Option<Instr>
    ensures { result ≡ Some (Instr.MoveCrField (cut word 23 3) (cut word 18 3)) }
{
    Some(Instr::MoveCrField {
        to: cut_of(word, 23, 3) as u8,
        from: cut_of(word, 18, 3) as u8,
    })
}

fn branch_register(op: BranchRegisterOp, word: u32) -> Option<Instr>
    ensures { result ≡ Some (Instr.BranchRegister op (cut word 21 5) (cut word 16 5) (is_one (cut word 0 1))) }
{
    Some(Instr::BranchRegister {
        op,
        bo: rd(word),
        bi: ra(word),
        link: flag(word, 0),
    })
}

fn cr_logic(op: CrLogicOp, word: u32) -> Option<Instr>
    ensures { result ≡ Some (Instr.CrLogic op (cut word 21 5) (cut word 16 5) (cut word 11 5)) }
{
    Some(Instr::CrLogic {
        op,
        d: rd(word),
        a: ra(word),
        b: rb(word),
    })
}

// The instructions of primary opcode 31, by extended opcode.
#[tactic(auto, unfolding(crate::specs::Reading::read_31))]
fn candidate_31(word: u32) -> Option<Instr>
    ensures fits { IfSome result (λ i. Fit (layout i)) }
    ensures read { result ≡ read_31 word }
{
    match cut_of(word, 1, 10) {
        0 => compare(CompareOp::Cmp, word),
        4 => trap(word),
        8 => arithmetic(ArithmeticOp::Subfc, word),
        10 => arithmetic(ArithmeticOp::Addc, word),
        11 => arithmetic(ArithmeticOp::Mulhwu, word),
        19 => move_from_cr(word),
        23 => load_indexed(LoadIndexedOp::Lwzx, word),
        24 => logic(LogicOp::Slw, word),
        26 => logic_unary(LogicUnaryOp::Cntlzw, word),
        28 => logic(LogicOp::And, word),
        32 => compare(CompareOp::Cmpl, word),
        40 => arithmetic(ArithmeticOp::Subf, word),
        55 => load_indexed_update(LoadIndexedUpdateOp::Lwzux, word),
        60 => logic(LogicOp::Andc, word),
        75 => arithmetic(ArithmeticOp::Mulhw, word),
        87 => load_indexed(LoadIndexedOp::Lbzx, word),
        104 => arithmetic_unary(ArithmeticUnaryOp::Neg, word),
        119 => load_indexed_update(LoadIndexedUpdateOp::Lbzux, word),
        124 => logic(LogicOp::Nor, word),
        136 => arithmetic(ArithmeticOp::Subfe, word),
        138 => arithmetic(ArithmeticOp::Adde, word),
        144 => move_to_cr(word),
        151 => store_indexed(StoreIndexedOp::Stwx, word),
        183 => store_indexed_update(StoreIndexedUpdateOp::Stwux, word),
        200 => arithmetic_unary(ArithmeticUnaryOp::Subfze, word),
        202 => arithmetic_unary(ArithmeticUnaryOp::Addze, word),
        215 => store_indexed(StoreIndexedOp::Stbx, word),
        232 => arithmetic_unary(ArithmeticUnaryOp::Subfme, word),
        234 => arithmetic_unary(ArithmeticUnaryOp::Addme, word),
        235 => arithmetic(ArithmeticOp::Mullw, word),
        247 => store_indexed_update(StoreIndexedUpdateOp::Stbux, word),
        266 => arithmetic(ArithmeticOp::Add, word),
        279 => load_indexed(LoadIndexedOp::Lhzx, word),
        284 => logic(LogicOp::Eqv, word),
        311 => load_indexed_update(LoadIndexedUpdateOp::Lhzux, word),
        316 => logic(LogicOp::Xor, word),
        339 => move_from_spr(word),
        343 => load_indexed(LoadIndexedOp::Lhax, word),
        375 => load_indexed_update(LoadIndexedUpdateOp::Lhaux, word),
        407 => store_indexed(StoreIndexedOp::Sthx, word),
        412 => logic(LogicOp::Orc, word),
        439 => store_indexed_update(StoreIndexedUpdateOp::Sthux, word),
        444 => logic(LogicOp::Or, word),
        459 => arithmetic(ArithmeticOp::Divwu, word),
        467 => move_to_spr(word),
        476 => logic(LogicOp::Nand, word),
        491 => arithmetic(ArithmeticOp::Divw, word),
        534 => load_indexed(LoadIndexedOp::Lwbrx, word),
        536 => logic(LogicOp::Srw, word),
        598 => Some(Instr::Sync),
        662 => store_indexed(StoreIndexedOp::Stwbrx, word),
        790 => load_indexed(LoadIndexedOp::Lhbrx, word),
        792 => logic(LogicOp::Sraw, word),
        824 => shift_immediate(word),
        918 => store_indexed(StoreIndexedOp::Sthbrx, word),
        922 => logic_unary(LogicUnaryOp::Extsh, word),
        954 => logic_unary(LogicUnaryOp::Extsb, word),
        _ => None,
    }
}

// The instructions of primary opcode 19, by extended opcode.
#[tactic(auto, unfolding(crate::specs::Reading::read_19))]
fn candidate_19(word: u32) -> Option<Instr>
    ensures fits { IfSome result (λ i. Fit (layout i)) }
    ensures read { result ≡ read_19 word }
{
    match cut_of(word, 1, 10) {
        0 => move_cr_field(word),
        16 => branch_register(BranchRegisterOp::Bclr, word),
        33 => cr_logic(CrLogicOp::Crnor, word),
        129 => cr_logic(CrLogicOp::Crandc, word),
        150 => Some(Instr::Isync),
        193 => cr_logic(CrLogicOp::Crxor, word),
        225 => cr_logic(CrLogicOp::Crnand, word),
        257 => cr_logic(CrLogicOp::Crand, word),
        289 => cr_logic(CrLogicOp::Creqv, word),
        417 => cr_logic(CrLogicOp::Crorc, word),
        449 => cr_logic(CrLogicOp::Cror, word),
        528 => branch_register(BranchRegisterOp::Bcctr, word),
        _ => None,
    }
}

// The instruction that the opcodes name, if there is one. What no field of it holds is not looked at.
#[tactic(auto, unfolding(crate::specs::Reading::read))]
fn candidate(word: u32) -> Option<Instr>
    ensures fits { IfSome result (λ i. Fit (layout i)) }
    ensures read { result ≡ read word }
{
    match cut_of(word, 26, 6) {
        3 => trap_immediate(word),
        7 => immediate(ImmediateOp::Mulli, word),
        8 => immediate(ImmediateOp::Subfic, word),
        10 => compare_immediate(CompareImmediateOp::Cmpli, word),
        11 => compare_immediate(CompareImmediateOp::Cmpi, word),
        12 => immediate(ImmediateOp::Addic, word),
        13 => immediate(ImmediateOp::AddicRecord, word),
        14 => immediate(ImmediateOp::Addi, word),
        15 => immediate(ImmediateOp::Addis, word),
        16 => branch_conditional(word),
        17 => Some(Instr::SystemCall),
        18 => branch(word),
        19 => candidate_19(word),
        20 => rotate(RotateOp::Rlwimi, word),
        21 => rotate(RotateOp::Rlwinm, word),
        23 => rotate(RotateOp::Rlwnm, word),
        24 => logic_immediate(LogicImmediateOp::Ori, word),
        25 => logic_immediate(LogicImmediateOp::Oris, word),
        26 => logic_immediate(LogicImmediateOp::Xori, word),
        27 => logic_immediate(LogicImmediateOp::Xoris, word),
        28 => logic_immediate(LogicImmediateOp::Andi, word),
        29 => logic_immediate(LogicImmediateOp::Andis, word),
        31 => candidate_31(word),
        32 => load(LoadOp::Lwz, word),
        33 => load_update(LoadUpdateOp::Lwzu, word),
        34 => load(LoadOp::Lbz, word),
        35 => load_update(LoadUpdateOp::Lbzu, word),
        36 => store(StoreOp::Stw, word),
        37 => store_update(StoreUpdateOp::Stwu, word),
        38 => store(StoreOp::Stb, word),
        39 => store_update(StoreUpdateOp::Stbu, word),
        40 => load(LoadOp::Lhz, word),
        41 => load_update(LoadUpdateOp::Lhzu, word),
        42 => load(LoadOp::Lha, word),
        43 => load_update(LoadUpdateOp::Lhau, word),
        44 => store(StoreOp::Sth, word),
        45 => store_update(StoreUpdateOp::Sthu, word),
        46 => multiple(MultipleOp::Lmw, word),
        47 => multiple(MultipleOp::Stmw, word),
        _ => None,
    }
}

fn is_spr(number: u16) -> bool
    ensures { IsTrue result ↔ IsSpr number }
{
    number == 1 || number == 8 || number == 9
}

fn is_allowed(instr: &Instr) -> bool
    ensures { IsTrue result ↔ Allowed instr.now }
{
    match *instr {
        Instr::LoadUpdate { d, a, .. } | Instr::LoadIndexedUpdate { d, a, .. } => a != 0 && a != d,
        Instr::StoreUpdate { a, .. } | Instr::StoreIndexedUpdate { a, .. } => a != 0,
        Instr::Multiple {
            op: MultipleOp::Lmw,
            d,
            a,
            ..
        } => a < d,
        Instr::MoveFromSpr { spr, .. } | Instr::MoveToSpr { spr, .. } => is_spr(spr),
        Instr::BranchRegister {
            op: BranchRegisterOp::Bcctr,
            bo,
            ..
        } => bo >> 2 & 1 == 1,
        _ => true,
    }
}

fn is_word_of(instr: &Instr, word: u32) -> bool
    requires { Fit (layout instr.now) }
    ensures { IsTrue result ↔ IsWordOf word instr.now }
{
    is_allowed(instr) && word_of(instr) == word
}

/// The instruction of a word, and None exactly where the word is not legal.
pub fn decode(word: u32) -> Option<Instr>
    ensures found { IfSome result (λ i. IsWordOf word i) }
    ensures only { (i : Instr) → IsWordOf word i → result ≡ Some i }
    ensures reading { (read : ℕ → Option Instr) → ReadsWords read → result ≡ read word }
{
    match candidate(word) {
        Some(instr) if is_word_of(&instr, word) => Some(instr),
        _ => None,
    }
}
