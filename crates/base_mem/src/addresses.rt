//! The address of an access, which goes into edx.

ghost use Rattle.std.specs.Prelude.{◌≡◌, IfOk};
ghost use Rattle.base_mem.specs.Addresses.{immediate_address as immediate_ops, indexed_address as indexed_ops};

use ia_codec::AluOp;
use reg_map::{EDX, signed_immediate};
use std::alloc::{AllocError, Global};
use symbolic_tiles::SymbolicOp::{self, Alu, AluImmediate, Mov, MovImmediate};
use symbolic_tiles::SymbolicOperand::Location;

/// Symbolic ops; an error where there is no memory for them.
pub(crate) type Ops = Result<Vec<SymbolicOp>, AllocError>;

/// The address of a D form. Where the base is `zero`, that is the number 0.
///
/// # Errors
/// Where there is no memory.
pub fn immediate_address(alloc: Global, zero: bool, a: u8, imm: u16) -> Ops
    ensures { IfOk result (λ ops. ops.items ≡ immediate_ops zero a imm) }
{
    let number = signed_immediate(imm);
    if zero {
        return Ok(vec![in alloc; MovImmediate(EDX, number)]?);
    }
    Ok(vec![in alloc;
        Mov(EDX, Location(a)),
        AluImmediate(AluOp::Add, EDX, number),
    ]?)
}

/// The address of an X form. Where the base is `zero`, that is the number 0.
///
/// # Errors
/// Where there is no memory.
pub fn indexed_address(alloc: Global, zero: bool, a: u8, b: u8) -> Ops
    ensures { IfOk result (λ ops. ops.items ≡ indexed_ops zero a b) }
{
    if zero {
        return Ok(vec![in alloc; Mov(EDX, Location(b))]?);
    }
    Ok(vec![in alloc; Mov(EDX, Location(a)), Alu(AluOp::Add, EDX, Location(b))]?)
}
