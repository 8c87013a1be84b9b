//! CR by fields and by bits.

ghost use Rattle.std.specs.Prelude.{◌≡◌, ◌<◌, ◌≤◌, ◌^◌, ◌-◌, ◌%◌, if◌then◌else◌, [], IfOk};
ghost use Rattle.base_alu.specs.Conditions.{get_bit as get_ops, cr_operation, set_bit as set_ops, cr_ops, mcrf_ops, next_field as next_ops, mfcr_ops, chosen_ops, mtcrf_ops};

use crate::recording::{CR, Ops};
use ia_codec::{AluOp, ShiftOp};
use ppc_isa::CrLogicOp;
use reg_map::{EAX, ECX};
use std::alloc::Global;
use symbolic_tiles::SymbolicOp::{
    self, Alu, AluImmediate, FetchByte, Invert, Mov, Put, PutByte, ShiftBy,
};
use symbolic_tiles::SymbolicOperand::{Location, Temporary};

// The place of a bit of CR in its field.
fn place(bit: u8) -> u8
    ensures { result ≡ 3 - bit % 4 }
{
    3 - bit % 4
}

// Bit n of CR becomes the lowest of r.
fn get_bit(r: u8, n: u8) -> [SymbolicOp; 2]
    requires { n < 32 }
    ensures { result ≡ get_ops r n }
{
    [FetchByte(r, CR + n / 4), ShiftBy(ShiftOp::Shr, r, place(n))]
}

// The bits of a field but for bit n of CR.
fn others(n: u8) -> u32
    ensures { result ≡ 15 - 2 ^ (3 - n % 4) }
{
    match n % 4 {
        0 => 7,
        1 => 11,
        2 => 13,
        _ => 14,
    }
}

// The lowest bit of eax becomes bit n of CR.
fn set_bit(n: u8) -> [SymbolicOp; 6]
    requires { n < 32 }
    ensures { result ≡ set_ops n }
{
    [
        AluImmediate(AluOp::And, EAX, 1),
        ShiftBy(ShiftOp::Shl, EAX, place(n)),
        FetchByte(ECX, CR + n / 4),
        AluImmediate(AluOp::And, ECX, others(n)),
        Alu(AluOp::Or, EAX, Temporary(ECX)),
        PutByte(CR + n / 4, EAX),
    ]
}

fn operation(alloc: Global, op: CrLogicOp) -> Ops
    ensures { IfOk result (λ ops. ops.items ≡ cr_operation op) }
{
    let and = Alu(AluOp::And, EAX, Temporary(ECX));
    let or = Alu(AluOp::Or, EAX, Temporary(ECX));
    let xor = Alu(AluOp::Xor, EAX, Temporary(ECX));
    match op {
        CrLogicOp::Crand => Ok(vec![in alloc; and]?),
        CrLogicOp::Cror => Ok(vec![in alloc; or]?),
        CrLogicOp::Crxor => Ok(vec![in alloc; xor]?),
        CrLogicOp::Crnand => Ok(vec![in alloc; and, Invert(EAX)]?),
        CrLogicOp::Crnor => Ok(vec![in alloc; or, Invert(EAX)]?),
        CrLogicOp::Creqv => Ok(vec![in alloc; xor, Invert(EAX)]?),
        CrLogicOp::Crandc => Ok(vec![in alloc; Invert(ECX), and]?),
        CrLogicOp::Crorc => Ok(vec![in alloc; Invert(ECX), or]?),
    }
}

/// Logic on two bits of CR.
///
/// # Errors
/// Where there is no memory.
pub fn cr_logic(alloc: Global, op: CrLogicOp, d: u8, a: u8, b: u8) -> Ops
    requires d { d < 32 }
    requires a { a < 32 }
    requires b { b < 32 }
    ensures { IfOk result (λ ops. ops.items ≡ cr_ops op d a b) }
{
    let middle = operation(alloc, op)?;
    let mut made = Vec::from_slice(alloc, &get_bit(EAX, a))?;
    made.extend_from_slice(&get_bit(ECX, b))?;
    made.extend_from_slice(middle.as_slice())?;
    made.extend_from_slice(&set_bit(d))?;
    Ok(made)
}

/// mcrf
///
/// # Errors
/// Where there is no memory.
pub fn move_field(alloc: Global, to: u8, from: u8) -> Ops
    requires to { to < 8 }
    requires from { from < 8 }
    ensures { IfOk result (λ ops. ops.items ≡ mcrf_ops to from) }
{
    Ok(vec![in alloc; FetchByte(EAX, CR + from), PutByte(CR + to, EAX)]?)
}

// Field f behind those that eax has.
fn next_field(f: u8) -> [SymbolicOp; 3]
    requires { f < 8 }
    ensures { result ≡ next_ops f }
{
    [
        ShiftBy(ShiftOp::Shl, EAX, 4),
        FetchByte(ECX, CR + f),
        Alu(AluOp::Or, EAX, Temporary(ECX)),
    ]
}

/// mfcr
///
/// # Errors
/// Where there is no memory.
pub fn move_from_cr(alloc: Global, d: u8) -> Ops
    ensures { IfOk result (λ ops. ops.items ≡ mfcr_ops d) }
{
    let mut made = vec![in alloc; FetchByte(EAX, CR)]?;
    for f in 1..8 {
        made.extend_from_slice(&next_field(f))?;
    }
    made.push(Put(d, EAX))?;
    Ok(made)
}

// Field f from rS, where it is chosen.
fn put_field(alloc: Global, chosen: bool, s: u8, f: u8) -> Ops
    requires { f < 8 }
    ensures { IfOk result (λ ops. ops.items ≡ (if chosen then chosen_ops s f else [])) }
{
    if !chosen {
        return Ok(Vec::new(alloc));
    }
    Ok(vec![in alloc;
        Mov(EAX, Location(s)),
        ShiftBy(ShiftOp::Shr, EAX, 28 - 4 * f),
        AluImmediate(AluOp::And, EAX, 15),
        PutByte(CR + f, EAX),
    ]?)
}

/// mtcrf, with FXM
///
/// # Errors
/// Where there is no memory.
pub fn move_to_cr(alloc: Global, s: u8, mask: u8) -> Ops
    ensures { IfOk result (λ ops. ops.items ≡ mtcrf_ops s mask) }
{
    let mut made = Vec::new(alloc);
    for f in 0..8 {
        let field = put_field(alloc, (mask >> (7 - f)) % 2 == 1, s, f)?;
        made.extend_from_slice(field.as_slice())?;
    }
    Ok(made)
}
