//! Divisions. Where the quotient isn't defined it is 0, and the host's division doesn't fault: the divisor 0 becomes 1, and
//! the dividend 0, as the least dividend does before −1.

ghost use Rattle.std.specs.Prelude.{◌≡◌, IfOk};
ghost use Rattle.base_alu.specs.Arithmetic.{divw_ops, divwu_ops};

use crate::recording::Ops;
use ia_codec::{AluOp, Condition};
use reg_map::{EAX, ECX, EDX};
use std::alloc::Global;
use symbolic_tiles::SymbolicOp::{
    Alu, AluImmediate, Divide, Invert, Mov, MovImmediate, MoveIf, Put, Signs, Test,
};
use symbolic_tiles::SymbolicOperand::{Location, Temporary};

/// divwu
///
/// # Errors
/// Where there is no memory.
pub fn divwu(alloc: Global, d: u8, a: u8, b: u8) -> Ops
    ensures { IfOk result (λ ops. ops.items ≡ divwu_ops d a b) }
{
    Ok(vec![in alloc;
        Mov(ECX, Location(b)),
        Mov(EAX, Location(a)),
        MovImmediate(EDX, 0),
        Test(ECX, ECX),
        MoveIf(Condition::Equal, EAX, EDX),
        MovImmediate(EDX, 1),
        MoveIf(Condition::Equal, ECX, EDX),
        MovImmediate(EDX, 0),
        Divide(false, ECX),
        Put(d, EAX),
    ]?)
}

/// divw
///
/// # Errors
/// Where there is no memory.
pub fn divw(alloc: Global, d: u8, a: u8, b: u8) -> Ops
    ensures { IfOk result (λ ops. ops.items ≡ divw_ops d a b) }
{
    Ok(vec![in alloc;
        Mov(EAX, Location(a)),
        Mov(ECX, Location(b)),
        Mov(EDX, Temporary(ECX)),
        Invert(EDX),
        AluImmediate(AluOp::Xor, EAX, 0x8000_0000),
        Alu(AluOp::Or, EDX, Temporary(EAX)),
        AluImmediate(AluOp::Xor, EAX, 0x8000_0000),
        Test(EDX, EDX),
        MovImmediate(EDX, 0),
        MoveIf(Condition::Equal, EAX, EDX),
        Test(ECX, ECX),
        MoveIf(Condition::Equal, EAX, EDX),
        MovImmediate(EDX, 1),
        MoveIf(Condition::Equal, ECX, EDX),
        Signs,
        Divide(true, ECX),
        Put(d, EAX),
    ]?)
}
