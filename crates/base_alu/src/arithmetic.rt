//! Sums, differences and products of registers.

ghost use Rattle.std.specs.Prelude.{◌≡◌, IfOk};
ghost use Rattle.base_alu.specs.Arithmetic.{plain_ops, carrying_ops, adde_ops, subfe_ops, high_product_ops, arithmetic_ops, carry_sum_ops, carry_difference_ops, unary_ops};

use crate::divisions::{divw, divwu};
use crate::recording::{CA, Ops};
use ia_codec::{AluOp, Condition};
use ppc_isa::{ArithmeticOp, ArithmeticUnaryOp};
use reg_map::{EAX, ECX, EDX};
use std::alloc::Global;
use symbolic_tiles::SymbolicOp::{
    Alu, AluImmediate, FetchByte, Invert, Mov, Multiply, MultiplyWide, Negate, Put, SetByte,
};
use symbolic_tiles::SymbolicOperand::{Location, Temporary};

// rD is the sum or difference of two registers.
fn plain(alloc: Global, alu: AluOp, d: u8, x: u8, y: u8) -> Ops
    ensures { IfOk result (λ ops. ops.items ≡ plain_ops alu d x y) }
{
    Ok(vec![in alloc;
        Mov(EAX, Location(x)),
        Alu(alu, EAX, Location(y)),
        Put(d, EAX),
    ]?)
}

// The same, with CA by CF.
fn carrying(alloc: Global, alu: AluOp, d: u8, x: u8, y: u8, carry: Condition) -> Ops
    ensures { IfOk result (λ ops. ops.items ≡ carrying_ops alu d x y carry) }
{
    Ok(vec![in alloc;
        Mov(EAX, Location(x)),
        Alu(alu, EAX, Location(y)),
        Put(d, EAX),
        SetByte(carry, CA),
    ]?)
}

// The sum of two registers and CA.
fn adde(alloc: Global, d: u8, a: u8, b: u8) -> Ops
    ensures { IfOk result (λ ops. ops.items ≡ adde_ops d a b) }
{
    Ok(vec![in alloc;
        FetchByte(ECX, CA),
        Negate(ECX),
        Mov(EAX, Location(a)),
        Alu(AluOp::Adc, EAX, Location(b)),
        Put(d, EAX),
        SetByte(Condition::Below, CA),
    ]?)
}

// The difference of two registers, with CA.
fn subfe(alloc: Global, d: u8, a: u8, b: u8) -> Ops
    ensures { IfOk result (λ ops. ops.items ≡ subfe_ops d a b) }
{
    Ok(vec![in alloc;
        FetchByte(ECX, CA),
        AluImmediate(AluOp::Cmp, ECX, 1),
        Mov(EAX, Location(b)),
        Alu(AluOp::Sbb, EAX, Location(a)),
        Put(d, EAX),
        SetByte(Condition::NotBelow, CA),
    ]?)
}

// The high half of a product.
fn high_product(alloc: Global, signed: bool, d: u8, a: u8, b: u8) -> Ops
    ensures { IfOk result (λ ops. ops.items ≡ high_product_ops signed d a b) }
{
    Ok(vec![in alloc;
        Mov(EAX, Location(a)),
        MultiplyWide(signed, Location(b)),
        Mov(EAX, Temporary(EDX)),
        Put(d, EAX),
    ]?)
}

/// Arithmetic with two registers.
///
/// # Errors
/// Where there is no memory.
pub fn arithmetic(alloc: Global, op: ArithmeticOp, d: u8, a: u8, b: u8) -> Ops
    ensures { IfOk result (λ ops. ops.items ≡ arithmetic_ops op d a b) }
{
    match op {
        ArithmeticOp::Add => plain(alloc, AluOp::Add, d, a, b),
        ArithmeticOp::Addc => carrying(alloc, AluOp::Add, d, a, b, Condition::Below),
        ArithmeticOp::Adde => adde(alloc, d, a, b),
        ArithmeticOp::Subf => plain(alloc, AluOp::Sub, d, b, a),
        ArithmeticOp::Subfc => carrying(alloc, AluOp::Sub, d, b, a, Condition::NotBelow),
        ArithmeticOp::Subfe => subfe(alloc, d, a, b),
        ArithmeticOp::Mullw => Ok(vec![in alloc;
            Mov(EAX, Location(a)),
            Multiply(EAX, Location(b)),
            Put(d, EAX),
        ]?),
        ArithmeticOp::Mulhw => high_product(alloc, true, d, a, b),
        ArithmeticOp::Mulhwu => high_product(alloc, false, d, a, b),
        ArithmeticOp::Divw => divw(alloc, d, a, b),
        ArithmeticOp::Divwu => divwu(alloc, d, a, b),
    }
}

// The sum of a register, CA and a number.
fn sum_with_carry(alloc: Global, d: u8, a: u8, number: u32) -> Ops
    ensures { IfOk result (λ ops. ops.items ≡ carry_sum_ops d a number) }
{
    Ok(vec![in alloc;
        FetchByte(ECX, CA),
        Negate(ECX),
        Mov(EAX, Location(a)),
        AluImmediate(AluOp::Adc, EAX, number),
        Put(d, EAX),
        SetByte(Condition::Below, CA),
    ]?)
}

// The sum of a register's complement, CA and a number.
fn difference_with_carry(alloc: Global, d: u8, a: u8, number: u32) -> Ops
    ensures { IfOk result (λ ops. ops.items ≡ carry_difference_ops d a number) }
{
    Ok(vec![in alloc;
        Mov(EAX, Location(a)),
        Invert(EAX),
        FetchByte(ECX, CA),
        Negate(ECX),
        AluImmediate(AluOp::Adc, EAX, number),
        Put(d, EAX),
        SetByte(Condition::Below, CA),
    ]?)
}

/// addze, addme, subfze, subfme and neg
///
/// # Errors
/// Where there is no memory.
pub fn arithmetic_unary(alloc: Global, op: ArithmeticUnaryOp, d: u8, a: u8) -> Ops
    ensures { IfOk result (λ ops. ops.items ≡ unary_ops op d a) }
{
    match op {
        ArithmeticUnaryOp::Addze => sum_with_carry(alloc, d, a, 0),
        ArithmeticUnaryOp::Addme => sum_with_carry(alloc, d, a, 0xFFFF_FFFF),
        ArithmeticUnaryOp::Subfze => difference_with_carry(alloc, d, a, 0),
        ArithmeticUnaryOp::Subfme => difference_with_carry(alloc, d, a, 0xFFFF_FFFF),
        ArithmeticUnaryOp::Neg => Ok(vec![in alloc;
            Mov(EAX, Location(a)),
            Negate(EAX),
            Put(d, EAX),
        ]?),
    }
}
