//! The ops, jumps and edges for each flow word: what ends a block.
#![tactic(auto)]

mod branches;
mod branching;
mod items;
mod laws;
mod system_call;
mod table;
mod traps;

ghost use Rattle.std.specs.Prelude.{◌≡◌, ◌≤◌, IfOk, Some, length};
ghost use Rattle.machines.specs.Prelude.{IsLegal};
ghost use Rattle.reg_map.specs.Prelude.{IsMap};
ghost use Rattle.symbolic_tiles.specs.Prelude.{FlowDoesWordAt, AreMarked, AreLaid};
ghost use Rattle.base_flow.specs.Tile.{HasTile, tile};

use crate::table::items;
pub use branching::{next_address, short_target, target};
pub use laws::{
    built_have_tiles, flow_tiles_are_laid, flow_tiles_are_marked, flow_tiles_are_short,
    flow_tiles_do_rows, illegal_tile_does_word,
};
use ppc_isa::{Instr, Map};
use std::alloc::Global;
pub use symbolic_tiles::FlowOp;
use symbolic_tiles::flows_of;
pub use table::{is_built, is_flow};
use word_kit::NoMemory;

/// The tile of the flow word at the guest address `at` under the map: at most 128 items, whose absolute
/// operands are offsets in the home page. It does what the word's row does; each of its jumps leads to
/// a mark behind it, no mark stands twice, and each op can be spelled over every home page. sc has a
/// tile only where no GPR is in ebx.
///
/// # Errors
/// `NoMemory` where there is no memory for the items.
pub fn emit(alloc: Global, instr: &Instr, at: u32, map: &Map) -> Result<Vec<FlowOp>, NoMemory>
    requires map { IsMap map.now }
    requires legal { IsLegal instr.now }
    requires flow { HasTile instr.now map.now }
    ensures tile { IfOk result (λ ops. ops.items ≡ tile instr.now at map.now) }
    ensures does { IfOk result (λ ops. FlowDoesWordAt (Some instr.now) map.now at ops.items) }
    ensures few { IfOk result (λ ops. length ops.items ≤ 128) }
    ensures marked { IfOk result (λ ops. AreMarked ops.items) }
    ensures laid { IfOk result (λ ops. AreLaid ops.items) }
{
    tile(alloc, instr, at, map)
}

// Without what follows from which items they are.
fn tile(alloc: Global, instr: &Instr, at: u32, map: &Map) -> Result<Vec<FlowOp>, NoMemory>
    requires map { IsMap map.now }
    requires legal { IsLegal instr.now }
    requires flow { HasTile instr.now map.now }
    ensures { IfOk result (λ ops. ops.items ≡ tile instr.now at map.now) }
{
    let made = items(alloc, instr, at)?;
    Ok(flows_of(alloc, made.as_slice(), map)?)
}
