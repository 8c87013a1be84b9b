//! The parts of ops.

ghost use Rattle.std.specs.Prelude.{◌≡◌, ◌≤◌, true, false};
ghost use Rattle.rule_body.specs.Ops.{is_straight as straight, alu_writes as alu_write, unary_writes as unary_write, extended_width as extended, on as parts_on, parts as parts_of, holds_sum as sum, accesses as access, filled as fill, displacement as displaced};

use ia_codec::{AluOp, ExtendOp, Op, Operand, UnaryOp};

/// An op's operand, which may be in memory, how many bytes of it are accessed and whether they are written; its other
/// register; whether it may be a move over a sum of registers; and its immediate of 32 bits.
#[derive(Clone, Copy)]
pub struct OpParts {
    pub operand: Option<Operand>,
    pub register: Option<u8>,
    pub width: u32,
    pub written: bool,
    pub moves: bool,
    pub immediate: Option<u32>,
}

/// Whether an op goes on to the next and can't fault but by an access: no jump, call, trap or division.
#[tactic(auto, unfolding(crate::specs::Ops::is_straight))]
pub fn is_straight(op: &Op) -> bool
    ensures { result ≡ straight op.now }
{
    !matches!(
        op,
        Op::Unary {
            op: UnaryOp::Div | UnaryOp::Idiv,
            ..
        } | Op::Jcc { .. }
            | Op::Jmp { .. }
            | Op::JmpTo { .. }
            | Op::Int80
            | Op::Int3
            | Op::Ud2
    )
}

fn alu_writes(op: AluOp) -> bool
    ensures { result ≡ alu_write op }
{
    !matches!(op, AluOp::Cmp)
}

fn unary_writes(op: UnaryOp) -> bool
    ensures { result ≡ unary_write op }
{
    matches!(op, UnaryOp::Not | UnaryOp::Neg)
}

fn extended_width(op: ExtendOp) -> u32
    ensures value { result ≡ extended op }
    ensures most { result ≤ 2 }
{
    match op {
        ExtendOp::MovzxByte | ExtendOp::MovsxByte => 1,
        ExtendOp::MovzxHalf | ExtendOp::MovsxHalf => 2,
    }
}

impl OpParts {
    fn none() -> OpParts
        ensures { result ≡ record { operand = None; register = None; width = 0; written = false; moves = false; immediate = None } }
    {
        OpParts {
            operand: None,
            register: None,
            width: 0,
            written: false,
            moves: false,
            immediate: None,
        }
    }

    // An operand of so many bytes.
    fn on(operand: Operand, width: u32, written: bool) -> OpParts
        ensures { result ≡ parts_on operand width written }
    {
        OpParts {
            operand: Some(operand),
            width,
            written,
            ..OpParts::none()
        }
    }

    fn with(self, register: u8) -> OpParts
        ensures { result ≡ record self { register = Some register } }
    {
        OpParts {
            register: Some(register),
            ..self
        }
    }

    fn moving(self) -> OpParts
        ensures { result ≡ record self { moves = true } }
    {
        OpParts {
            moves: true,
            ..self
        }
    }

    fn immediate(self, immediate: u32) -> OpParts
        ensures { result ≡ record self { immediate = Some immediate } }
    {
        OpParts {
            immediate: Some(immediate),
            ..self
        }
    }
}

/// The parts of an op.
#[tactic(auto, unfolding(crate::specs::Ops::parts))]
pub fn parts(op: &Op) -> OpParts
    ensures parts { result ≡ parts_of op.now }
    ensures width { result.width ≤ 4 }
{
    match *op {
        Op::AluTo { op, to, from } => OpParts::on(to, 4, alu_writes(op)).with(from),
        Op::AluFrom { to, from, .. } | Op::Imul { to, from } | Op::Bsr { to, from } => {
            OpParts::on(from, 4, false).with(to)
        }
        Op::AluImm { op, to, imm } => OpParts::on(to, 4, alu_writes(op)).immediate(imm),
        Op::TestReg { a, b } => OpParts::on(a, 4, false).with(b),
        Op::TestImm { a, imm } => OpParts::on(a, 4, false).immediate(imm),
        Op::Unary { op, on } => OpParts::on(on, 4, unary_writes(op)),
        Op::MovTo { to, from } => OpParts::on(to, 4, true).with(from).moving(),
        Op::MovFrom { to, from } => OpParts::on(from, 4, false).with(to).moving(),
        Op::MovImm { to, imm } => OpParts::none().with(to).immediate(imm),
        Op::MovToImm { to, imm } => OpParts::on(to, 4, true).moving().immediate(imm),
        Op::MovHalfTo { to, from } => OpParts::on(to, 2, true).with(from).moving(),
        Op::MovByteTo { to, from } => OpParts::on(to, 1, true).with(from).moving(),
        Op::MovByteFrom { to, from } => OpParts::on(from, 1, false).with(to).moving(),
        Op::Shift { to, .. } | Op::ShiftByCl { to, .. } => OpParts::on(to, 4, true),
        Op::Lea { to, from } => OpParts::on(from, 0, false).with(to).moving(),
        Op::Extend { op, to, from } => {
            OpParts::on(from, extended_width(op), false)
                .with(to)
                .moving()
        }
        Op::Bswap { reg } => OpParts::none().with(reg),
        Op::Set { to, .. } => OpParts::on(to, 1, true),
        Op::Cmov { to, from, .. } => OpParts::on(from, 4, false).with(to),
        Op::JmpTo { to } => OpParts::on(to, 4, false),
        Op::Cdq | Op::Jcc { .. } | Op::Jmp { .. } | Op::Int80 | Op::Int3 | Op::Ud2 =>
            OpParts::none(),
    }
}

fn holds_sum(operand: Option<Operand>) -> bool
    ensures { result ≡ sum operand }
{
    matches!(operand, Some(Operand::Base(..) | Operand::Pair(..)))
}

/// Whether an op accesses memory of the guest: its operand is a sum of registers, and it is no lea.
#[tactic(auto, unfolding(crate::specs::Ops::accesses))]
pub fn accesses(op: &Op) -> bool
    ensures { result ≡ access op.now }
{
    holds_sum(parts(op).operand) && !matches!(op, Op::Lea { .. })
}

fn displacement(operand: Option<Operand>) -> Option<u32>
    ensures { result ≡ displaced operand }
{
    match operand {
        Some(Operand::Base(_, displacement) | Operand::Pair(_, _, _, displacement)) => {
            Some(displacement)
        }
        _ => None,
    }
}

/// The number of an op that a hole fills: its immediate, or else the displacement of a sum.
pub fn filled(op: &Op) -> Option<u32>
    ensures { result ≡ fill op.now }
{
    let parts = parts(op);
    match parts.immediate {
        Some(immediate) => Some(immediate),
        None => displacement(parts.operand),
    }
}
