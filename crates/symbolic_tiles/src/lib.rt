//! Tiles told once for every register map: as symbolic ops over temporaries and locations, and, for
//! flow words, as items. What these do to a symbolic state, the host does under each map.
#![tactic(auto)]

mod flow_op;
mod laws;
mod lowering;
mod symbolic_op;
mod tile_item;

pub use flow_op::FlowOp;
pub use laws::{
    flows_are_walked, loads_keep_memory, op_stands_anywhere, ops_are_walked, places_hold,
    programs_write_held, straight_rows,
};
pub use lowering::{flow_of, flows_of, op_of, ops_of};
pub use symbolic_op::{AccessSize, SymbolicOp, SymbolicOperand};
pub use tile_item::TileItem;
