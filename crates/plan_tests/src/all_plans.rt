// All plans of a small problem, one after another in the order of steps.

use crate::edges::{Edge, are_alike, edges, next_edge};
use plan_form::{Problem, Step};
use ppc_isa::Map;
use std::alloc::Global;
use std::process::Abort;
use std::test::Fail;
use word_kit::NoMemory;

/// A plan, with what it costs, and how many plans were tried.
#[derive(Drop)]
pub struct Best {
    pub steps: Vec<Edge>,
    pub cost: u64,
    pub tried: u64,
}

// Where the edges lead from the start.
fn end_of(problem: &Problem, path: &[Edge]) -> (u32, Map) {
    match path.last() {
        Some(edge) => (edge.to, edge.behind),
        None => (0, problem.entry),
    }
}

// How many moves stand behind the last tile.
fn moves_in_a_row(path: &[Edge]) -> u64 {
    let mut count: u64 = 0;
    for edge in path {
        count = match edge.step {
            Step::Go(_) => count.saturating_add(1),
            Step::Lay(_) => 0,
        };
    }
    count
}

// What the edges cost together.
fn cost_of(path: &[Edge]) -> u64 {
    let mut cost: u64 = 0;
    for edge in path {
        cost = cost.saturating_add(edge.price as u64);
    }
    cost
}

// The edge with which to go on. No move follows four others: no more lead from a map over two GPRs to another.
fn onward(problem: &Problem, edges: &[Edge], path: &[Edge], from: u64) -> Option<Edge> {
    let (place, map) = end_of(problem, path);
    match next_edge(edges, place, &map, from) {
        Some(edge) => match edge.step {
            Step::Go(_) if moves_in_a_row(path) >= 4 => None,
            _ => Some(edge),
        },
        None => None,
    }
}

// Keeps the plan, if it is the first, costs less than the best one yet, or costs as much and has fewer steps.
fn compare(alloc: Global, path: &[Edge], best: &mut Best) -> Result<(), NoMemory> {
    let cost = cost_of(path);
    let is_shorter = cost == best.cost && path.len() < best.steps.len();
    if best.tried == 0 || cost < best.cost || is_shorter {
        best.steps = path.to_vec(alloc)?;
        best.cost = cost;
    }
    best.tried = best.tried.saturating_add(1);
    Ok(())
}

/// Of the plans of least cost one with fewest steps, and of these the first in the order of steps.
pub fn best_plan(rt: &impl Abort, alloc: Global, problem: &Problem) -> Result<Best, Fail> {
    let edges = edges(alloc, problem)?;
    let mut best = Best {
        steps: Vec::new(alloc),
        cost: 0,
        tried: 0,
    };
    let mut path: Vec<Edge> = Vec::new(alloc);
    let mut from = 0;
    for _ in 0..100_000_000 {
        if let Some(edge) = onward(problem, edges.as_slice(), path.as_slice(), from) {
            path.push(edge)?;
            from = 0;
            let is_end = are_alike(&edge.behind, &problem.exit);
            if is_end && edge.to == problem.places.saturating_sub(1) {
                compare(alloc, path.as_slice(), &mut best)?;
            }
        } else if let Some(edge) = path.pop() {
            from = edge.order.saturating_add(1);
        } else {
            return Ok(best);
        }
    }
    panic!(rt; "too many plans")
}
