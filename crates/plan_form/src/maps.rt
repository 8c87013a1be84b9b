//! Maps and moves compared, and the map behind a move.

ghost use Rattle.std.specs.Prelude.{◌≡◌, ◌↔◌, IsTrue};
ghost use Rattle.reg_map.specs.Prelude.{moved, with_content};

use ppc_isa::Map;
use reg_map::Move;

/// Whether two maps hold the same in each slot.
pub fn same_map(map: &Map, other: &Map) -> bool
    ensures { IsTrue result ↔ map.now ≡ other.now }
{
    map.ebx == other.ebx && map.esi == other.esi && map.edi == other.edi
}

/// Whether two moves are the same.
pub fn same_move(step: Move, other: Move) -> bool
    ensures { IsTrue result ↔ step ≡ other }
{
    match (step, other) {
        (Move::Drop(slot), Move::Drop(second)) => slot == second,
        (Move::Take(slot, gpr), Move::Take(second, taken)) => slot == second && gpr == taken,
        _ => false,
    }
}

// The map with this content of a slot.
fn with(map: &Map, slot: u8, content: Option<u8>) -> Map
    ensures { result ≡ with_content map.now slot content }
{
    let mut changed = *map;
    match slot {
        0 => changed.ebx = content,
        1 => changed.esi = content,
        _ => changed.edi = content,
    }
    changed
}

/// The map behind a move.
pub fn map_behind(map: &Map, step: Move) -> Map
    ensures { result ≡ moved map.now step }
{
    match step {
        Move::Drop(slot) => with(map, slot, None),
        Move::Take(slot, gpr) => with(map, slot, Some(gpr)),
    }
}
