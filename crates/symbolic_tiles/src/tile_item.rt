//! The items of a flow word's tile, told without a register map.

use crate::symbolic_op::SymbolicOp;
use ia_codec::Condition;

/// An item of a flow word's tile.
#[derive(Clone, Copy)]
pub enum TileItem {
    /// An op.
    Do(SymbolicOp),
    /// A jump to the label of this number, which stands once, later in the tile; on the condition, or
    /// always.
    JumpIf(Option<Condition>, u8),
    /// A label, by its number.
    Label(u8),
    /// `mov ebx,x` of a word location, where no location stands in ebx.
    LoadEbx(u8),
    /// The edge to the guest address.
    BranchTo(u32),
    /// On to the guest address in ecx, without its two low bits.
    BranchIndirect,
    /// `int 0x80`, where no location stands in ebx.
    Interrupt,
    /// `int3`
    Trap,
    /// `ud2`
    Undefined,
}
