//! The order of steps.

ghost use Rattle.std.specs.Prelude.{◌≡◌, ◌<◌, ◌≤◌, ◌^◌, length};
ghost use Rattle.plan_form.specs.Full.{IsFull};
ghost use Rattle.plan_form.specs.Plans.{is_alone, rank as rank_of, order};

use crate::problem::{Problem, Step, Tile};
use ppc_isa::Map;
use reg_map::Move;

// Whether a map holds this GPR in edi, and nothing else.
fn is_lone(map: &Map, gpr: u8) -> bool
    ensures { result ≡ is_alone gpr map.now.ebx map.now.esi map.now.edi }
{
    match (map.ebx, map.esi, map.edi) {
        (None, None, Some(other)) => other == gpr,
        _ => false,
    }
}

// The place of a candidate among the maps that hold one alone.
fn rank(problem: &Problem, gpr: u8) -> usize
    ensures rank { result ≡ rank_of problem.now gpr }
    ensures small { result ≤ length problem.now.maps.items }
{
    for (index, map) in problem.maps.iter().enumerate() {
        if is_lone(map, gpr) {
            return index;
        }
    }
    problem.maps.len()
}

/// The number of a step in the order of steps: Base, rules by number, Drop by slot, Take by slot and then
/// candidate.
pub fn order_of(problem: &Problem, step: Step) -> u64
    requires { IsFull problem.now }
    ensures order { result ≡ order problem.now step }
    ensures small { result < 2 ^ 33 }
{
    match step {
        Step::Lay(Tile::Base) => 0,
        Step::Lay(Tile::Rule(number)) => number as u64 + 1,
        Step::Go(Move::Drop(slot)) => 0x1_0000_0001 + slot as u64,
        Step::Go(Move::Take(slot, gpr)) => 0x1_0000_0200
            + 512 * slot as u64
            + rank(problem, gpr) as u64,
    }
}
