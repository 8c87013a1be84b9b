//! What an instruction reads of the registers.

ghost use Rattle.std.specs.Prelude.{◌≡◌, ◌<◌, ◌^◌, ℕ};
ghost use Rattle.machines.specs.Prelude.{IsLegal, immediate_word, logic_word, compare_word, rotate_register, value_a, value_b, value_s, guest_values};
ghost use Rattle.ppc_registers.specs.Held.{numbers, locs_of};

use crate::Registers;
use ppc_isa::{CompareImmediateOp, ImmediateOp, Instr, LogicImmediateOp, RotateOp};
use ppc_parts::GuestIn;
use reg_map::signed_immediate;
use word_kit::Plain;

fn immediate_word(op: ImmediateOp, imm: u16) -> u32
    ensures { result ≡ immediate_word op imm }
{
    match op {
        ImmediateOp::Addis => u32::from(imm) * 0x1_0000,
        ImmediateOp::Addi
        | ImmediateOp::Addic
        | ImmediateOp::AddicRecord
        | ImmediateOp::Subfic
        | ImmediateOp::Mulli => signed_immediate(imm),
    }
}

fn logic_word(op: LogicImmediateOp, imm: u16) -> u32
    ensures { result ≡ logic_word op imm }
{
    match op {
        LogicImmediateOp::Oris | LogicImmediateOp::Xoris | LogicImmediateOp::Andis => {
            u32::from(imm) * 0x1_0000
        }
        LogicImmediateOp::Ori | LogicImmediateOp::Xori | LogicImmediateOp::Andi => u32::from(imm),
    }
}

fn compare_word(op: CompareImmediateOp, imm: u16) -> u32
    ensures { result ≡ compare_word op imm }
{
    match op {
        CompareImmediateOp::Cmpi => signed_immediate(imm),
        CompareImmediateOp::Cmpli => u32::from(imm),
    }
}

impl Registers {
    fn rotate_register(&self, op: RotateOp, by: u8) -> u32
        requires { by < 32 }
        ensures { result ≡ rotate_register op by (locs_of self.now) }
    {
        match op {
            RotateOp::Rlwnm => self.gpr(by),
            RotateOp::Rlwinm | RotateOp::Rlwimi => 0,
        }
    }

    // The register of bits 11 to 15, or 0 where there is none.
    fn value_a(&self, instr: &Instr) -> u32
        requires { IsLegal instr.now }
        ensures { result ≡ value_a instr.now (locs_of self.now) }
    {
        match *instr {
            Instr::Immediate { a, .. }
            | Instr::LogicImmediate { a, .. }
            | Instr::Load { a, .. }
            | Instr::Store { a, .. }
            | Instr::LoadUpdate { a, .. }
            | Instr::StoreUpdate { a, .. }
            | Instr::Multiple { a, .. }
            | Instr::TrapImmediate { a, .. }
            | Instr::CompareImmediate { a, .. }
            | Instr::Rotate { a, .. }
            | Instr::Arithmetic { a, .. }
            | Instr::ArithmeticUnary { a, .. }
            | Instr::Logic { a, .. }
            | Instr::ShiftImmediate { a, .. }
            | Instr::LogicUnary { a, .. }
            | Instr::Compare { a, .. }
            | Instr::Trap { a, .. }
            | Instr::LoadIndexed { a, .. }
            | Instr::StoreIndexed { a, .. }
            | Instr::LoadIndexedUpdate { a, .. }
            | Instr::StoreIndexedUpdate { a, .. } => self.gpr(a),
            Instr::Branch { .. }
            | Instr::BranchConditional { .. }
            | Instr::SystemCall
            | Instr::MoveFromCr { .. }
            | Instr::MoveToCr { .. }
            | Instr::MoveFromSpr { .. }
            | Instr::MoveToSpr { .. }
            | Instr::Sync
            | Instr::MoveCrField { .. }
            | Instr::CrLogic { .. }
            | Instr::Isync
            | Instr::BranchRegister { .. } => 0,
        }
    }

    // The register of bits 16 to 20, or the word that stands for the immediate, or 0 where there is neither.
    fn value_b(&self, instr: &Instr) -> u32
        requires { IsLegal instr.now }
        ensures { result ≡ value_b instr.now (locs_of self.now) }
    {
        match *instr {
            Instr::Immediate { op, imm, .. } => immediate_word(op, imm),
            Instr::LogicImmediate { op, imm, .. } => logic_word(op, imm),
            Instr::CompareImmediate { op, imm, .. } => compare_word(op, imm),
            Instr::Load { imm, .. }
            | Instr::Store { imm, .. }
            | Instr::LoadUpdate { imm, .. }
            | Instr::StoreUpdate { imm, .. }
            | Instr::Multiple { imm, .. }
            | Instr::TrapImmediate { imm, .. } => signed_immediate(imm),
            Instr::Rotate { op, by, .. } => self.rotate_register(op, by),
            Instr::Arithmetic { b, .. }
            | Instr::Logic { b, .. }
            | Instr::Compare { b, .. }
            | Instr::Trap { b, .. }
            | Instr::LoadIndexed { b, .. }
            | Instr::StoreIndexed { b, .. }
            | Instr::LoadIndexedUpdate { b, .. }
            | Instr::StoreIndexedUpdate { b, .. } => self.gpr(b),
            Instr::Branch { .. }
            | Instr::BranchConditional { .. }
            | Instr::SystemCall
            | Instr::ArithmeticUnary { .. }
            | Instr::ShiftImmediate { .. }
            | Instr::LogicUnary { .. }
            | Instr::MoveFromCr { .. }
            | Instr::MoveToCr { .. }
            | Instr::MoveFromSpr { .. }
            | Instr::MoveToSpr { .. }
            | Instr::Sync
            | Instr::MoveCrField { .. }
            | Instr::CrLogic { .. }
            | Instr::Isync
            | Instr::BranchRegister { .. } => 0,
        }
    }

    // The register of bits 6 to 10, or 0 where there is none.
    fn value_s(&self, instr: &Instr) -> u32
        requires { IsLegal instr.now }
        ensures { result ≡ value_s instr.now (locs_of self.now) }
    {
        match *instr {
            Instr::Immediate { d, .. }
            | Instr::Load { d, .. }
            | Instr::LoadUpdate { d, .. }
            | Instr::Multiple { d, .. }
            | Instr::Arithmetic { d, .. }
            | Instr::ArithmeticUnary { d, .. }
            | Instr::MoveFromCr { d }
            | Instr::MoveFromSpr { d, .. }
            | Instr::LoadIndexed { d, .. }
            | Instr::LoadIndexedUpdate { d, .. } => self.gpr(d),
            Instr::LogicImmediate { s, .. }
            | Instr::Store { s, .. }
            | Instr::StoreUpdate { s, .. }
            | Instr::Rotate { s, .. }
            | Instr::Logic { s, .. }
            | Instr::ShiftImmediate { s, .. }
            | Instr::LogicUnary { s, .. }
            | Instr::MoveToCr { s, .. }
            | Instr::MoveToSpr { s, .. }
            | Instr::StoreIndexed { s, .. }
            | Instr::StoreIndexedUpdate { s, .. } => self.gpr(s),
            Instr::TrapImmediate { .. }
            | Instr::CompareImmediate { .. }
            | Instr::Branch { .. }
            | Instr::BranchConditional { .. }
            | Instr::SystemCall
            | Instr::Compare { .. }
            | Instr::Trap { .. }
            | Instr::Sync
            | Instr::MoveCrField { .. }
            | Instr::CrLogic { .. }
            | Instr::Isync
            | Instr::BranchRegister { .. } => 0,
        }
    }

    /// The old values that a legal instruction reads, and the number that it loaded.
    pub fn values(&self, instr: &Instr, loaded: u32) -> GuestIn<Plain>
        requires { IsLegal instr.now }
        ensures { numbers result ≡ guest_values instr.now loaded (locs_of self.now) }
    {
        GuestIn {
            a: self.value_a(instr),
            b: self.value_b(instr),
            s: self.value_s(instr),
            cr: self.cr(),
            xer: self.xer(),
            lr: self.lr(),
            ctr: self.ctr(),
            loaded,
        }
    }
}
