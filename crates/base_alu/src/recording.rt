//! The ends of tiles that leave a comparison in a field of CR.

ghost use Rattle.std.specs.Prelude.{◌≡◌, ◌<◌, ◌++◌, IfOk};
ghost use Rattle.symbolic_tiles.specs.Prelude.{field_ops, record_ops};

use ia_codec::{AluOp, Condition};
use reg_map::{EAX, ECX, EDX};
use std::alloc::{AllocError, Global};
use symbolic_tiles::SymbolicOp::{self, Alu, FetchByte, MovImmediate, MoveIf, PutByte, Test};
use symbolic_tiles::SymbolicOperand::Temporary;

/// Symbolic ops; an error where there is no memory for them.
pub(crate) type Ops = Result<Vec<SymbolicOp>, AllocError>;

/// The number of CR field 0 among the locations.
pub const CR: u8 = 34;
/// The number of XER's CA among the locations.
pub const CA: u8 = 42;
/// The number of XER's SO among the locations.
pub const SO: u8 = 43;
/// The number of XER's OV among the locations.
pub const OV: u8 = 44;
/// The number of XER's count among the locations.
pub const XC: u8 = 45;

// The outcome of the comparison behind which it stands goes into field f.
fn field(f: u8, less: Condition) -> [SymbolicOp; 8]
    requires { f < 8 }
    ensures { result ≡ field_ops f less }
{
    [
        MovImmediate(ECX, 4),
        MovImmediate(EDX, 2),
        MoveIf(Condition::Equal, ECX, EDX),
        MovImmediate(EDX, 8),
        MoveIf(less, ECX, EDX),
        FetchByte(EDX, SO),
        Alu(AluOp::Or, ECX, Temporary(EDX)),
        PutByte(CR + f, ECX),
    ]
}

/// The ops with the outcome of their last comparison put into field `f`.
///
/// # Errors
/// Where there is no memory.
pub fn comparing(alloc: Global, ops: &[SymbolicOp], f: u8, less: Condition) -> Ops
    requires { f < 8 }
    ensures { IfOk result (λ made. made.items ≡ ops.now ++ field_ops f less) }
{
    let mut made = Vec::from_slice(alloc, ops)?;
    made.extend_from_slice(&field(f, less))?;
    Ok(made)
}

/// The ops and, where the form records, the comparison of their result with zero in field 0.
///
/// # Errors
/// Where there is no memory.
pub fn recording(mut ops: Vec<SymbolicOp>, records: bool) -> Ops
    ensures { IfOk result (λ made. made.items ≡ ops.items ++ record_ops records) }
{
    if records {
        ops.push(Test(EAX, EAX))?;
        ops.extend_from_slice(&field(0, Condition::Less))?;
    }
    Ok(ops)
}
