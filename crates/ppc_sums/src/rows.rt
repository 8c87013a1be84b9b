//! Arithmetic by its ops.

ghost use Rattle.std.specs.Prelude.{false, ◌≡◌, IfOk, OnErr, IsTrue};
ghost use Rattle.word_kit.specs.Algebra.{IsLater, MayUntie};
ghost use Rattle.ppc_isa.specs.Rows.{immediate_row, arithmetic_row, arithmetic_unary_row};
ghost use Rattle.ppc_parts.specs.Prelude.{IsOwned, values_of, GivesEffect};
ghost use Rattle.ppc_sums.specs.ArithmeticTerms.{immediate_term, arithmetic_term, arithmetic_unary_term};
ghost use Rattle.ppc_sums.specs.ProductTerms.{is_immediate_product, is_product};

use crate::differences::{subtract, subtract_carrying, subtract_extended};
use crate::products::{divw, divwu, high_product, product};
use crate::sums::{carry_in, plain_sum, sum, sum_carrying};
use ppc_isa::{ArithmeticOp, ArithmeticUnaryOp, ImmediateOp};
use ppc_parts::{Effect, GuestIn, base};
use word_kit::{Alg, NoMemory};

/// What arithmetic with an immediate gives (Power ISA Book I, "Fixed-Point Arithmetic Instructions"). `a` is the field of
/// rA; `from.b` is the immediate as the row adds or multiplies it. Only mulli raises the algebra's opaque number.
pub fn immediate_row<A: Alg>(
    alg: &mut A,
    op: ImmediateOp,
    a: u8,
    from: &GuestIn<A>,
) -> Result<Effect<A>, NoMemory>
    requires owned { IsOwned A.word_reach (A.extent alg.old) from.now }
    ensures later { MayUntie A.Alg alg.old alg.new }
    ensures keeps { is_immediate_product op ≡ false → A.opaque alg.new ≡ A.opaque alg.old }
    ensures makes { IfOk result (λ r. record { effect = r; held = A.held alg.new } ≡ immediate_term A.ops op a (A.held alg.old) from.now) }
    ensures fails { OnErr result (IsTrue A.takes_memory) }
    ensures gives { IfOk result (λ r. GivesEffect A.Alg alg.new r (λ v. immediate_row op a (values_of (λ w. A.word w v) from.now))) }
{
    let base = base(alg, a, from);
    let none = alg.flag(false);
    match op {
        ImmediateOp::Addi | ImmediateOp::Addis => plain_sum(alg, false, base, from.b, from),
        ImmediateOp::Addic => sum_carrying(alg, false, from.a, from.b, none, from),
        ImmediateOp::AddicRecord => sum_carrying(alg, true, from.a, from.b, none, from),
        ImmediateOp::Subfic => subtract_carrying(alg, false, from),
        ImmediateOp::Mulli => product(alg, false, from),
    }
}

/// What arithmetic on two registers gives (Power ISA Book I, "Fixed-Point Arithmetic Instructions"). Where a quotient is
/// undefined, the result is 0. Only products and divisions raise the algebra's opaque number.
pub fn arithmetic_row<A: Alg>(
    alg: &mut A,
    op: ArithmeticOp,
    records: bool,
    from: &GuestIn<A>,
) -> Result<Effect<A>, NoMemory>
    requires owned { IsOwned A.word_reach (A.extent alg.old) from.now }
    ensures later { MayUntie A.Alg alg.old alg.new }
    ensures keeps { is_product op ≡ false → A.opaque alg.new ≡ A.opaque alg.old }
    ensures makes { IfOk result (λ r. record { effect = r; held = A.held alg.new } ≡ arithmetic_term A.ops op records (A.held alg.old) from.now) }
    ensures fails { OnErr result (IsTrue A.takes_memory) }
    ensures gives { IfOk result (λ r. GivesEffect A.Alg alg.new r (λ v. arithmetic_row op records (values_of (λ w. A.word w v) from.now))) }
{
    let none = alg.flag(false);
    let ca = carry_in(alg, from);
    match op {
        ArithmeticOp::Add => plain_sum(alg, records, from.a, from.b, from),
        ArithmeticOp::Addc => sum_carrying(alg, records, from.a, from.b, none, from),
        ArithmeticOp::Adde => sum_carrying(alg, records, from.a, from.b, ca, from),
        ArithmeticOp::Subf => subtract(alg, records, from),
        ArithmeticOp::Subfc => subtract_carrying(alg, records, from),
        ArithmeticOp::Subfe => subtract_extended(alg, records, from),
        ArithmeticOp::Mullw => product(alg, records, from),
        ArithmeticOp::Mulhw => high_product(alg, true, records, from),
        ArithmeticOp::Mulhwu => high_product(alg, false, records, from),
        ArithmeticOp::Divw => divw(alg, records, from),
        ArithmeticOp::Divwu => divwu(alg, records, from),
    }
}

/// What arithmetic on rA alone gives: addze, addme, subfze, subfme and neg (Power ISA Book I, "Fixed-Point Arithmetic
/// Instructions").
pub fn arithmetic_unary_row<A: Alg>(
    alg: &mut A,
    op: ArithmeticUnaryOp,
    records: bool,
    from: &GuestIn<A>,
) -> Result<Effect<A>, NoMemory>
    requires owned { IsOwned A.word_reach (A.extent alg.old) from.now }
    ensures later { IsLater A.Alg alg.old alg.new }
    ensures makes { IfOk result (λ r. record { effect = r; held = A.held alg.new } ≡ arithmetic_unary_term A.ops op records (A.held alg.old) from.now) }
    ensures fails { OnErr result (IsTrue A.takes_memory) }
    ensures gives { IfOk result (λ r. GivesEffect A.Alg alg.new r (λ v. arithmetic_unary_row op records (values_of (λ w. A.word w v) from.now))) }
{
    let zero = alg.lit(0);
    let ones = alg.lit(u32::MAX);
    let ca = carry_in(alg, from);
    let not_a = alg.not(from.a);
    match op {
        ArithmeticUnaryOp::Addze => sum_carrying(alg, records, from.a, zero, ca, from),
        ArithmeticUnaryOp::Addme => sum_carrying(alg, records, from.a, ones, ca, from),
        ArithmeticUnaryOp::Subfze => sum_carrying(alg, records, not_a, zero, ca, from),
        ArithmeticUnaryOp::Subfme => sum_carrying(alg, records, not_a, ones, ca, from),
        ArithmeticUnaryOp::Neg => {
            let one = alg.flag(true);
            sum(alg, records, not_a, zero, one, from)
        }
    }
}
