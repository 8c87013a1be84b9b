//! Items that are put together.

ghost use Rattle.std.specs.Prelude.{◌≡◌, true, IfOk};
ghost use Rattle.symbolic_tiles.specs.Prelude.{doing as doing_items};
ghost use Rattle.base_flow.specs.Branches.{unless as unless_items};
ghost use Rattle.base_flow.specs.Traps.{when_jump as when_items};

use ia_codec::Condition;
use std::alloc::{AllocError, Global};
use symbolic_tiles::{SymbolicOp, TileItem};

/// A tile, or no memory for it.
pub(crate) type Items = Result<Vec<TileItem>, AllocError>;

/// Ops before items.
///
/// # Errors
/// Where there is no memory for them.
pub fn doing(alloc: Global, ops: &[SymbolicOp], items: &[TileItem]) -> Items
    ensures { IfOk result (λ made. made.items ≡ doing_items ops.now items.now) }
{
    let mut made = Vec::new(alloc);
    for op in ops {
        made.push(TileItem::Do(*op))?;
    }
    made.extend_from_slice(items)?;
    Ok(made)
}

/// Where a test is made, its ops and the jump on its failure before items.
///
/// # Errors
/// Where there is no memory for them.
pub fn unless(
    alloc: Global,
    test: bool,
    ops: &[SymbolicOp],
    fails: Condition,
    items: &[TileItem],
) -> Items
    ensures { IfOk result (λ made. made.items ≡ unless_items test ops.now fails items.now) }
{
    if !test {
        return Vec::from_slice(alloc, items);
    }
    let rest = jump_before(alloc, fails, items)?;
    doing(alloc, ops, rest.as_slice())
}

/// Where it is chosen, a jump before items.
///
/// # Errors
/// Where there is no memory for them.
pub fn when_jump(alloc: Global, chosen: bool, condition: Condition, items: &[TileItem]) -> Items
    ensures { IfOk result (λ made. made.items ≡ when_items chosen condition 0 items.now) }
{
    if chosen {
        jump_before(alloc, condition, items)
    } else {
        Vec::from_slice(alloc, items)
    }
}

fn jump_before(alloc: Global, condition: Condition, items: &[TileItem]) -> Items
    ensures { IfOk result (λ made. made.items ≡ when_items true condition 0 items.now) }
{
    let mut made = vec![in alloc; TileItem::JumpIf(Some(condition), 0)]?;
    made.extend_from_slice(items)?;
    Ok(made)
}
