//! The shapes of ops: which operands one reads, and where its results go.

ghost use Rattle.std.specs.Prelude.{◌≡◌, ◌≤◌, ◌<◌, ◌^◌, ℕ, true, Some, is_some, IfNone};
ghost use Rattle.machines.specs.Prelude.{Program, HostEffect as Outcome, IsInProfile, IsOperand, IsReg, Core, Register, place_of, reads, leaves, changes, sets, sets_byte, multiplies, puts_both, rights_of};
ghost use Rattle.ia_alu.specs.Values.{outcome_of};
ghost use Rattle.ia_step.specs.Shown.{IsCore, IsOfByte, Led};
ghost use Rattle.ia_step.specs.Values.{choice_of};

use crate::choices::Choice;
use crate::effects::flags_of;
use crate::parts::Parts;
use ia_alu::HostEffect;
use ia_codec::{Op, Operand};
use reg_map::{EAX, EDX};
use word_kit::Plain;

impl Parts {
    // Leaves the effect of an op: the flags, and in an operand the result, where it has one.
    fn leave(
        &mut self,
        made: &HostEffect<Plain>,
        has_result: bool,
        size: u8,
        to: Operand,
    ) -> Option<()>
        requires size { size ≤ 4 }
        requires operand { IsOperand to }
        ensures leads { (p : Program) (core : Core) (e : Outcome) → IsCore p self.old core → outcome_of (λ w. w) (λ b. b) made.now ≡ e
            → Led p (is_some result) self.new (leaves (rights_of p) has_result e (place_of size to core.regs) core) }
        ensures kept { IfNone result (self.new ≡ self.old) }
    {
        if has_result {
            self.write(size, to, made.result)?;
        }
        self.flags = flags_of(made);
        Some(())
    }

    /// An op that reads and writes its first operand.
    pub(crate) fn change(
        &mut self,
        op: Op,
        choice: Choice,
        has_result: bool,
        to: Operand,
        y: u32,
    ) -> Option<()>
        requires profile { IsInProfile op }
        requires operand { IsOperand to }
        ensures leads { (p : Program) (core : Core) → IsCore p self.old core
            → Led p (is_some result) self.new (changes (rights_of p) op (choice_of choice) has_result (place_of 4 to core.regs) core (Some y)) }
        ensures kept { IfNone result (self.new ≡ self.old) }
    {
        let x = self.read(4, to)?;
        let made = self.effect(op, choice, x, y);
        self.leave(&made, has_result, 4, to)
    }

    /// An op that reads and writes a register and reads another operand.
    pub(crate) fn change_from(
        &mut self,
        op: Op,
        choice: Choice,
        has_result: bool,
        to: u8,
        from: Operand,
    ) -> Option<()>
        requires profile { IsInProfile op }
        requires register { IsReg to }
        requires operand { IsOperand from }
        ensures leads { (p : Program) (core : Core) → IsCore p self.old core
            → Led p (is_some result) self.new (changes (rights_of p) op (choice_of choice) has_result (Register to) core (reads (rights_of p) core (place_of 4 from core.regs))) }
        ensures kept { IfNone result (self.new ≡ self.old) }
    {
        let y = self.read(4, from)?;
        self.change(op, choice, has_result, Operand::Reg(to), y)
    }

    /// An op that only writes its first operand.
    pub(crate) fn set(
        &mut self,
        op: Op,
        choice: Choice,
        size: u8,
        to: Operand,
        y: u32,
    ) -> Option<()>
        requires profile { IsInProfile op }
        requires size { size ≤ 4 }
        requires operand { IsOperand to }
        ensures leads { (p : Program) (core : Core) → IsCore p self.old core
            → Led p (is_some result) self.new (sets (rights_of p) op (choice_of choice) (place_of size to core.regs) core (Some y)) }
        ensures kept { IfNone result (self.new ≡ self.old) }
    {
        let made = self.effect(op, choice, 0, y);
        self.leave(&made, true, size, to)
    }

    /// An op that writes a register and reads another operand.
    pub(crate) fn set_from(
        &mut self,
        op: Op,
        choice: Choice,
        to: u8,
        size: u8,
        from: Operand,
    ) -> Option<()>
        requires profile { IsInProfile op }
        requires size { size ≤ 4 }
        requires register { IsReg to }
        requires operand { IsOperand from }
        ensures leads { (p : Program) (core : Core) → IsCore p self.old core
            → Led p (is_some result) self.new (sets (rights_of p) op (choice_of choice) (Register to) core (reads (rights_of p) core (place_of size from core.regs))) }
        ensures kept { IfNone result (self.new ≡ self.old) }
    {
        let y = self.read(size, from)?;
        self.set(op, choice, 4, Operand::Reg(to), y)
    }

    /// An op that only writes its first operand, and of a register the lowest byte.
    pub(crate) fn set_byte(&mut self, op: Op, choice: Choice, to: Operand, y: u32) -> Option<()>
        requires profile { IsInProfile op }
        requires byte { IsOfByte op }
        requires operand { IsOperand to }
        ensures leads { (p : Program) (core : Core) → IsCore p self.old core
            → Led p (is_some result) self.new (sets_byte (rights_of p) op (choice_of choice) to core (Some y)) }
        ensures kept { IfNone result (self.new ≡ self.old) }
    {
        let made = self.effect(op, choice, 0, y);
        let value = self.with_byte(to, (made.result % 256) as u8);
        self.write(1, to, value)
    }

    /// An op that writes the lowest byte of a register and reads a byte.
    pub(crate) fn set_byte_from(
        &mut self,
        op: Op,
        choice: Choice,
        to: u8,
        from: Operand,
    ) -> Option<()>
        requires profile { IsInProfile op }
        requires byte { IsOfByte op }
        requires register { IsReg to }
        requires operand { IsOperand from }
        ensures leads { (p : Program) (core : Core) → IsCore p self.old core
            → Led p (is_some result) self.new (sets_byte (rights_of p) op (choice_of choice) (Operand.Reg to) core (reads (rights_of p) core (place_of 1 from core.regs))) }
        ensures kept { IfNone result (self.new ≡ self.old) }
    {
        let y = self.read(1, from)?;
        self.set_byte(op, choice, Operand::Reg(to), y)
    }

    /// An op on eax and its operand whose results go to eax and edx.
    pub(crate) fn multiply(&mut self, op: Op, choice: Choice, on: Operand) -> Option<()>
        requires profile { IsInProfile op }
        requires operand { IsOperand on }
        ensures leads { (p : Program) (core : Core) → IsCore p self.old core
            → Led p (is_some result) self.new (multiplies (rights_of p) op (choice_of choice) core (reads (rights_of p) core (place_of 4 on core.regs))) }
        ensures kept { IfNone result (self.new ≡ self.old) }
    {
        let y = self.read(4, on)?;
        let made = self.effect(op, choice, self.reg(EAX), y);
        self.put_both(&made);
        Some(())
    }

    // Puts both results of a product or a division, and the flags.
    fn put_both(&mut self, made: &HostEffect<Plain>)
        ensures { (p : Program) (core : Core) (e : Outcome) → IsCore p self.old core → outcome_of (λ w. w) (λ b. b) made.now ≡ e
            → IsCore p self.new (puts_both e core) }
    {
        self.put_reg(EAX, made.result);
        self.put_reg(EDX, made.high);
        self.flags = flags_of(made);
    }
}
