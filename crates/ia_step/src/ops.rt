//! What an op does that is no jump and no call.

ghost use Rattle.std.specs.Prelude.{◌≡◌, ◌≤◌, ℕ, ◌<◌, true, is_some, IfNone};
ghost use Rattle.machines.specs.Prelude.{Program, IsInProfile, IsOperand, IsMemory, IsByte, Core, has_result as op_has_result, extend_size as read_size, unary_does, does, rights_of};
ghost use Rattle.ia_step.specs.Shown.{IsCore, Led};
ghost use Rattle.ia_step.specs.Values.{choice_of};

use crate::choices::Choice;
use crate::parts::Parts;
use ia_codec::{AluOp, ExtendOp, Op, Operand, UnaryOp};
use reg_map::{EAX, ECX, EDX};

// cmp has no result.
fn has_result(op: AluOp) -> bool
    ensures { result ≡ op_has_result op }
{
    !matches!(op, AluOp::Cmp)
}

// How many bytes movzx and movsx read.
fn extend_size(op: ExtendOp) -> u8
    ensures size { result ≡ read_size op }
    ensures few { result ≤ 4 }
{
    match op {
        ExtendOp::MovzxByte | ExtendOp::MovsxByte => 1,
        ExtendOp::MovzxHalf | ExtendOp::MovsxHalf => 2,
    }
}

impl Parts {
    // An op of one operand.
    fn unary(&mut self, op: UnaryOp, choice: Choice, on: Operand) -> Option<()>
        requires { IsOperand on }
        ensures leads { (p : Program) (core : Core) → IsCore p self.old core
            → Led p (is_some result) self.new (unary_does (rights_of p) op on (choice_of choice) core) }
        ensures kept { IfNone result (self.new ≡ self.old) }
    {
        match op {
            UnaryOp::Not | UnaryOp::Neg => {
                let y = self.read(4, on)?;
                self.set(Op::Unary { op, on }, choice, 4, on, y)
            }
            UnaryOp::Mul | UnaryOp::Imul1 | UnaryOp::Div | UnaryOp::Idiv => {
                self.multiply(Op::Unary { op, on }, choice, on)
            }
        }
    }

    // The sign of eax over all of edx.
    fn copy_sign(&mut self, choice: Choice)
        ensures { (p : Program) (core : Core) → IsCore p self.old core
            → Led p true self.new (does (rights_of p) Op.Cdq (choice_of choice) core) }
    {
        let made = self.effect(Op::Cdq, choice, self.reg(EAX), 0);
        self.put_reg(EDX, made.high);
    }

    /// What an op does that is no jump and no call. None, and nothing is changed, where an access isn't held.
    pub(crate) fn does(&mut self, op: Op, choice: Choice) -> Option<()>
        requires { IsInProfile op }
        ensures leads { (p : Program) (core : Core) → IsCore p self.old core
            → Led p (is_some result) self.new (does (rights_of p) op (choice_of choice) core) }
        ensures kept { IfNone result (self.new ≡ self.old) }
    {
        match op {
            Op::AluTo { op: sum, to, from } => {
                self.change(op, choice, has_result(sum), to, self.reg(from))
            }
            Op::AluFrom { op: sum, to, from } => {
                self.change_from(op, choice, has_result(sum), to, from)
            }
            Op::AluImm { op: sum, to, imm } => self.change(op, choice, has_result(sum), to, imm),
            Op::TestReg { a, b } => self.change(op, choice, false, a, self.reg(b)),
            Op::TestImm { a, imm } => self.change(op, choice, false, a, imm),
            Op::Unary { op: single, on } => self.unary(single, choice, on),
            Op::Imul { to, from } => self.change_from(op, choice, true, to, from),
            Op::MovTo { to, from } => self.set(op, choice, 4, to, self.reg(from)),
            Op::MovFrom { to, from } => self.set_from(op, choice, to, 4, from),
            Op::MovImm { to, imm } => self.set(op, choice, 4, Operand::Reg(to), imm),
            Op::MovToImm { to, imm } => self.set(op, choice, 4, to, imm),
            Op::MovHalfTo { to, from } => self.set(op, choice, 2, to, self.reg(from)),
            Op::MovByteTo { to, from } => self.set(op, choice, 1, to, self.reg(from)),
            Op::MovByteFrom { to, from } => self.set_byte_from(op, choice, to, from),
            Op::Shift { to, by, .. } => self.change(op, choice, true, to, u32::from(by)),
            Op::ShiftByCl { to, .. } => self.change(op, choice, true, to, self.reg(ECX) % 256),
            Op::Lea { to, from } => {
                self.set(op, choice, 4, Operand::Reg(to), self.address(from))
            }
            Op::Extend {
                op: extend,
                to,
                from,
            } => { self.set_from(op, choice, to, extend_size(extend), from) }
            Op::Bswap { reg } => self.set(op, choice, 4, Operand::Reg(reg), self.reg(reg)),
            Op::Set { to, .. } => self.set_byte(op, choice, to, 0),
            Op::Cmov { to, from, .. } => self.change_from(op, choice, true, to, from),
            Op::Bsr { to, from } => self.change_from(op, choice, true, to, from),
            Op::Cdq => {
                self.copy_sign(choice);
                Some(())
            }
            Op::Jcc { .. } | Op::Jmp { .. } | Op::JmpTo { .. } | Op::Int80 | Op::Int3 | Op::Ud2 =>
                None,
        }
    }
}
