//! The tiles of branches.

ghost use Rattle.std.specs.Prelude.{◌≡◌, ◌<◌, ◌^◌, ◌/◌, ◌%◌, [], ◌∷◌, IfOk};
ghost use Rattle.machines.specs.Prelude.{bo_bit};
ghost use Rattle.symbolic_tiles.specs.Prelude.{doing as doing_items};
ghost use Rattle.base_flow.specs.Branches.{link_ops, count_fails as count_failing, bit_fails as bit_failing, otherwise as otherwise_items, branch_items, target_register as register_of};

use crate::items::{Items, doing, unless};
use ia_codec::{AluOp, Condition};
use ppc_isa::BranchRegisterOp;
use reg_map::{EAX, ECX};
use std::alloc::Global;
use symbolic_tiles::SymbolicOp::{
    self, AluImmediate, FetchByte, Mov, Put, PutImmediate, TestImmediate,
};
use symbolic_tiles::SymbolicOperand::{self, Location};
use symbolic_tiles::TileItem::{self, BranchIndirect, BranchTo, Label};

// The locations of LR and CTR, and of the first field of CR.
const LR: u8 = 32;

const CTR: u8 = 33;

const CR: u8 = 34;

// The branch isn't taken on this condition, by whether CTR has to be 0.
fn count_fails(zero: bool) -> Condition
    ensures { result ≡ count_failing zero }
{
    if zero {
        Condition::NotEqual
    } else {
        Condition::Equal
    }
}

// The branch isn't taken on this condition, by whether the bit has to be 1.
fn bit_fails(one: bool) -> Condition
    ensures { result ≡ bit_failing one }
{
    if one {
        Condition::Equal
    } else {
        Condition::NotEqual
    }
}

// The place of the bit BI of CR in its field.
fn bit_mask(bi: u8) -> u32
    requires { bi < 32 }
    ensures { result ≡ 8 / 2 ^ (bi % 4) }
{
    match bi % 4 {
        0 => 8,
        1 => 4,
        2 => 2,
        _ => 1,
    }
}

// The item by which the branch is taken and, where it may not be, the way on.
fn taken_or(alloc: Global, taken: TileItem, otherwise: bool, next: u32) -> Items
    ensures { IfOk result (λ items. items.items ≡ taken ∷ otherwise_items otherwise next) }
{
    if otherwise {
        Ok(vec![in alloc; taken, Label(0), BranchTo(next)]?)
    } else {
        Ok(vec![in alloc; taken]?)
    }
}

// A branch by BO and BI.
fn by_tests(alloc: Global, bo: u8, bi: u8, taken: TileItem, next: u32) -> Items
    requires bo { bo < 32 }
    requires bi { bi < 32 }
    ensures { IfOk result (λ items. items.items ≡ branch_items bo bi taken next) }
{
    let counts = bo / 4 % 2 != 1;
    let tests = bo / 16 % 2 != 1;
    let ways = taken_or(alloc, taken, !(bo / 4 % 2 == 1 && bo / 16 % 2 == 1), next)?;
    let behind = unless(
        alloc,
        tests,
        &[
            FetchByte(EAX, CR + bi / 4),
            TestImmediate(EAX, bit_mask(bi)),
        ],
        bit_fails(bo / 8 % 2 == 1),
        ways.as_slice(),
    )?;
    unless(
        alloc,
        counts,
        &[
            Mov(EAX, Location(CTR)),
            AluImmediate(AluOp::Sub, EAX, 1),
            Put(CTR, EAX),
        ],
        count_fails(bo / 2 % 2 == 1),
        behind.as_slice(),
    )
}

// LK: LR gets the next address before the items.
fn linked(alloc: Global, link: bool, next: u32, items: &[TileItem]) -> Items
    ensures { IfOk result (λ made. made.items ≡ doing_items (link_ops link next) items.now) }
{
    if link {
        doing(alloc, &[PutImmediate(LR, next)], items)
    } else {
        Vec::from_slice(alloc, items)
    }
}

/// The tile of b.
///
/// # Errors
/// Where there is no memory for it.
pub fn branch(alloc: Global, target: u32, link: bool, next: u32) -> Items
    ensures { IfOk result (λ items. items.items ≡ doing_items (link_ops link next) (TileItem.BranchTo target ∷ [])) }
{
    linked(alloc, link, next, &[BranchTo(target)])
}

/// The tile of bc.
///
/// # Errors
/// Where there is no memory for it.
pub fn branch_conditional(
    alloc: Global,
    bo: u8,
    bi: u8,
    target: u32,
    link: bool,
    next: u32,
) -> Items
    requires bo { bo < 32 }
    requires bi { bi < 32 }
    ensures { IfOk result (λ items. items.items ≡ doing_items (link_ops link next) (branch_items bo bi (TileItem.BranchTo target) next)) }
{
    let items = by_tests(alloc, bo, bi, BranchTo(target), next)?;
    linked(alloc, link, next, items.as_slice())
}

// The location that has the target.
fn target_register(op: BranchRegisterOp) -> u8
    ensures { result ≡ register_of op }
{
    match op {
        BranchRegisterOp::Bclr => LR,
        BranchRegisterOp::Bcctr => CTR,
    }
}

/// The tile of bclr and bcctr.
///
/// # Errors
/// Where there is no memory for it.
pub fn branch_register(
    alloc: Global,
    op: BranchRegisterOp,
    bo: u8,
    bi: u8,
    link: bool,
    next: u32,
) -> Items
    requires bo { bo < 32 }
    requires bi { bi < 32 }
    ensures { IfOk result (λ items. items.items ≡ TileItem.Do (SymbolicOp.Mov 1 (SymbolicOperand.Location (register_of op))) ∷ doing_items (link_ops link next) (branch_items bo bi TileItem.BranchIndirect next)) }
{
    let items = by_tests(alloc, bo, bi, BranchIndirect, next)?;
    let behind = linked(alloc, link, next, items.as_slice())?;
    from_register(alloc, op, behind.as_slice())
}

// The target goes into ecx before the items.
fn from_register(alloc: Global, op: BranchRegisterOp, items: &[TileItem]) -> Items
    ensures { IfOk result (λ made. made.items ≡ TileItem.Do (SymbolicOp.Mov 1 (SymbolicOperand.Location (register_of op))) ∷ items.now) }
{
    doing(alloc, &[Mov(ECX, Location(target_register(op)))], items)
}
