// What leads from place to place in a problem, read off its tables.

use plan_form::{Problem, Step, Tile};
use ppc_isa::Map;
use reg_map::Move;
use std::alloc::Global;
use word_kit::NoMemory;

/// A step at a place under a map, with its price, its place in the order of steps, and where it leads.
#[derive(Clone, Copy)]
pub struct Edge {
    pub place: u32,
    pub map: Map,
    pub step: Step,
    pub price: u32,
    pub order: u64,
    pub to: u32,
    pub behind: Map,
}

// Maps over some GPRs begin with those that hold one of them in edi alone, in the order of the GPRs.
fn rank(maps: &[Map], gpr: u8) -> u64 {
    let mut rank: u64 = 0;
    for map in maps {
        if map.ebx.is_none() && map.esi.is_none() && map.edi == Some(gpr) {
            break;
        }
        rank = rank.saturating_add(1);
    }
    rank
}

/// The place of a step in their order: the base tile, rules by number, Drop by slot, Take by slot and then GPR.
pub fn order_of(maps: &[Map], step: Step) -> u64 {
    match step {
        Step::Lay(Tile::Base) => 0,
        Step::Lay(Tile::Rule(number)) => 1 + number as u64,
        Step::Go(Move::Drop(slot)) => 0x10_0000_0000 + slot as u64,
        Step::Go(Move::Take(slot, gpr)) => {
            0x20_0000_0000 + 0x1_0000_0000 * slot as u64 + rank(maps, gpr) % 0x1_0000_0000
        },
    }
}

// The map behind a move.
fn map_behind(map: &Map, step: Move) -> Map {
    let mut behind = *map;
    match step {
        Move::Drop(0) => behind.ebx = None,
        Move::Drop(1) => behind.esi = None,
        Move::Drop(_) => behind.edi = None,
        Move::Take(0, gpr) => behind.ebx = Some(gpr),
        Move::Take(1, gpr) => behind.esi = Some(gpr),
        Move::Take(_, gpr) => behind.edi = Some(gpr),
    }
    behind
}

// The edges of moves, behind others.
fn push_moves(edges: &mut Vec<Edge>, problem: &Problem) -> Result<(), NoMemory> {
    for item in problem.moves.as_slice() {
        let step = Step::Go(item.step);
        edges.push(Edge {
            place: item.place,
            map: item.map,
            step,
            price: item.price,
            order: order_of(problem.maps.as_slice(), step),
            to: item.place,
            behind: map_behind(&item.map, item.step),
        })?;
    }
    Ok(())
}

/// The edges of tiles and of moves.
pub fn edges(alloc: Global, problem: &Problem) -> Result<Vec<Edge>, NoMemory> {
    let mut edges = Vec::new(alloc);
    for item in problem.offers.as_slice() {
        let step = Step::Lay(item.tile);
        edges.push(Edge {
            place: item.from,
            map: item.map,
            step,
            price: item.price,
            order: order_of(problem.maps.as_slice(), step),
            to: item.to,
            behind: item.map,
        })?;
    }
    push_moves(&mut edges, problem)?;
    Ok(edges)
}

/// Whether two maps hold the same.
pub fn are_alike(map: &Map, other: &Map) -> bool {
    map.ebx == other.ebx && map.esi == other.esi && map.edi == other.edi
}

/// The first edge in the order of steps, from this one on, that leads from a place under a map.
pub fn next_edge(edges: &[Edge], place: u32, map: &Map, from: u64) -> Option<Edge> {
    let mut next: Option<Edge> = None;
    let mut least = u64::MAX;
    for edge in edges {
        let is_here = edge.place == place && are_alike(&edge.map, map);
        if is_here && edge.order >= from && edge.order < least {
            next = Some(*edge);
            least = edge.order;
        }
    }
    next
}
