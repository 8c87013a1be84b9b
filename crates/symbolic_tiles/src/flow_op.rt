//! What stands in the tile of a flow word.

use ia_codec::Op;

/// An item of a flow word's tile.
#[derive(Clone, Copy)]
pub enum FlowOp {
    /// An op that is no jump.
    Plain(Op),
    /// A jump on a condition, by its number in the opcodes of Jcc or 16 for always, to the mark of this
    /// number, which stands once, later in the tile.
    Jump(u8, u8),
    /// A mark, by its number.
    Mark(u8),
    /// The edge to the guest address, which is at once a jump.
    Edge(u32),
    /// The indirect sequence: on to the guest address in ecx, without its two low bits.
    Leap,
}
