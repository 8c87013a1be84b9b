//! The choice of the row.

ghost use Rattle.std.specs.Prelude.{◌≡◌, false, IfOk, OnErr, IsTrue};
ghost use Rattle.word_kit.specs.Algebra.{MayUntie};
ghost use Rattle.ppc_isa.specs.Legal.{IsLegal};
ghost use Rattle.ppc_isa.specs.Rows.{guest_row};
ghost use Rattle.ppc_parts.specs.Prelude.{IsOwned, values_of, GivesEffect};
ghost use Rattle.ppc_alu.specs.RowTerms.{is_product_row, row_term};

use ppc_bits::{logic_immediate_row, logic_row, logic_unary_row, rotate, srawi};
use ppc_flow::{
    branch, compare_immediate_row, compare_row, cr_logic_row, jump, move_field, put_fields,
    put_special, read_cr, read_special, trap,
};
use ppc_isa::Instr;
use ppc_memory::{
    load_indexed_row, load_indexed_update_row, load_row, load_update_row, multiple_row,
    store_indexed_row, store_indexed_update_row, store_row, store_update_row,
};
use ppc_parts::{Effect, GuestIn, unchanged};
use ppc_sums::{arithmetic_row, arithmetic_unary_row, immediate_row};
use word_kit::{Alg, NoMemory};

/// What an instruction makes of the values that it reads: its row (Power ISA Book I; `from.b` stands in the place of an
/// immediate, which isn't read of the instruction), over the operations of an algebra, under every assignment that it
/// admits. `taken` is the condition of a conditional branch or of a trap, and true for b. Targets of branches, the return
/// address in LR, system calls, and the words of lmw and stmw are the machine's.
///
/// The instruction is legal, and the algebra owns the values of `from`; then it owns those of the effect. The effect is
/// exactly the row's term over the algebra's operations. Only products and divisions raise the algebra's opaque number.
/// NoMemory comes only from an algebra that takes memory.
pub fn effect<A: Alg>(alg: &mut A, instr: &Instr, from: &GuestIn<A>) -> Result<Effect<A>, NoMemory>
    requires legal { IsLegal instr.now }
    requires owned { IsOwned A.word_reach (A.extent alg.old) from.now }
    ensures later { MayUntie A.Alg alg.old alg.new }
    ensures opaque { is_product_row instr.now ≡ false → A.opaque alg.new ≡ A.opaque alg.old }
    ensures makes { IfOk result (λ r. record { effect = r; held = A.held alg.new } ≡ row_term A.ops instr.now (A.held alg.old) from.now) }
    ensures fails { OnErr result (IsTrue A.takes_memory) }
    ensures gives { IfOk result (λ r. GivesEffect A.Alg alg.new r (λ v. guest_row instr.now (values_of (λ w. A.word w v) from.now))) }
{
    match *instr {
        Instr::Immediate { op, a, .. } => immediate_row(alg, op, a, from),
        Instr::LogicImmediate { op, .. } => logic_immediate_row(alg, op, from),
        Instr::Load { op, a, .. } => load_row(alg, op, a, from),
        Instr::Store { op, a, .. } => store_row(alg, op, a, from),
        Instr::LoadUpdate { op, .. } => load_update_row(alg, op, from),
        Instr::StoreUpdate { op, .. } => store_update_row(alg, op, from),
        Instr::Multiple { op, d, a, .. } => multiple_row(alg, op, d, a, from),
        Instr::TrapImmediate { to, .. } | Instr::Trap { to, .. } => trap(alg, to, from),
        Instr::CompareImmediate { op, field, .. } => compare_immediate_row(alg, op, field, from),
        Instr::Rotate {
            op,
            by,
            mask_begin,
            mask_end,
            records,
            ..
        } => rotate(alg, op, by, mask_begin, mask_end, records, from),
        Instr::Branch { .. } => Ok(jump(alg, from)),
        Instr::BranchConditional { bo, bi, .. } | Instr::BranchRegister { bo, bi, .. } => {
            branch(alg, bo, bi, from)
        }
        Instr::SystemCall | Instr::Sync | Instr::Isync => Ok(unchanged(alg, from)),
        Instr::Arithmetic { op, records, .. } => arithmetic_row(alg, op, records, from),
        Instr::ArithmeticUnary { op, records, .. } => arithmetic_unary_row(alg, op, records, from),
        Instr::Logic { op, records, .. } => logic_row(alg, op, records, from),
        Instr::ShiftImmediate { by, records, .. } => srawi(alg, by, records, from),
        Instr::LogicUnary { op, records, .. } => logic_unary_row(alg, op, records, from),
        Instr::Compare { op, field, .. } => compare_row(alg, op, field, from),
        Instr::MoveFromCr { .. } => Ok(read_cr(alg, from)),
        Instr::MoveToCr { mask, .. } => put_fields(alg, mask, from),
        Instr::MoveFromSpr { spr, .. } => Ok(read_special(alg, spr, from)),
        Instr::MoveToSpr { spr, .. } => put_special(alg, spr, from),
        Instr::LoadIndexed { op, a, .. } => load_indexed_row(alg, op, a, from),
        Instr::StoreIndexed { op, a, .. } => store_indexed_row(alg, op, a, from),
        Instr::LoadIndexedUpdate { op, .. } => load_indexed_update_row(alg, op, from),
        Instr::StoreIndexedUpdate { op, .. } => store_indexed_update_row(alg, op, from),
        Instr::MoveCrField { to, from: field } => Ok(move_field(alg, to, field, from)),
        Instr::CrLogic { op, d, a, b } => cr_logic_row(alg, op, d, a, b, from),
    }
}
