//! Ops in their one spelling, by where the operand stands.

ghost use Rattle.std.specs.Prelude.{◌≡◌};
ghost use Rattle.reg_map.specs.Spelled.{mov_from as mov_of, alu_from as alu_of};

use ia_codec::{AluOp, Op, Operand};

/// `mov to,from`.
pub fn mov_from(to: u8, from: Operand) -> Op
    ensures { result ≡ mov_of to from }
{
    match from {
        Operand::Reg(register) => Op::MovTo {
            to: Operand::Reg(to),
            from: register,
        },
        _ => Op::MovFrom { to, from },
    }
}

/// `op to,from`, a sum, difference or logic.
pub fn alu_from(op: AluOp, to: u8, from: Operand) -> Op
    ensures { result ≡ alu_of op to from }
{
    match from {
        Operand::Reg(register) => Op::AluTo {
            op,
            to: Operand::Reg(to),
            from: register,
        },
        _ => Op::AluFrom { op, to, from },
    }
}
