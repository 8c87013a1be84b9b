//! The least costs from the start.

ghost use Rattle.std.specs.Prelude.{◌≡◌, ◌≤◌, ◌<◌, ◌+◌, IfOk, length, map, [], slice_index_or};
ghost use Rattle.plan_form.specs.Prelude.{IsFull, IsAt, values_of};
ghost use Rattle.tile_plan.specs.Arcs.{IsArc, AreArcs, AreAllArcs};
ghost use Rattle.tile_plan.specs.Forward.{AreReached, AreLower, AreObeyed, IsRelaxed, StartsFree, IsForwardRow, AreForward, IsStartCost, AreStartCosts, AreForwardLabels};

use crate::arcs::Arc;
use crate::table::NEVER;
use plan_form::{Labels, Problem, same_map};
use ppc_isa::Map;
use std::alloc::Global;
use word_kit::NoMemory;

// Lowers the costs of a place by the edges that lead to it from `source`.
fn relax(problem: &Problem, arcs: &[Arc], source: u32, from: &[u32], place: u32, row: &mut Vec<u32>)
    requires arcs { AreArcs problem.now source arcs.now }
    requires from { AreReached problem.now source from.now }
    requires row { AreReached problem.now place row.old.items }
    ensures { IsRelaxed problem.now place arcs.now (length arcs.now) from.now row.old.items row.new.items }
{
    for arc in arcs {
        if arc.place == place {
            let cost = from[arc.from] as u64 + arc.price as u64;
            if cost < row[arc.to] as u64 {
                row[arc.to] = cost as u32;
            }
        }
    }
}

// Lowers the costs of a place by its own edges, until all are obeyed.
fn settle(
    alloc: Global,
    problem: &Problem,
    arcs: &[Arc],
    place: u32,
    start: Vec<u32>,
) -> Result<Vec<u32>, NoMemory>
    requires arcs { AreArcs problem.now place arcs.now }
    requires start { AreReached problem.now place start.items }
    ensures reached { IfOk result (λ row. AreReached problem.now place row.items) }
    ensures lower { IfOk result (λ row. AreLower problem.now start.items row.items) }
    ensures obeyed { IfOk result (λ row. AreObeyed place arcs.now (length arcs.now) row.items row.items) }
{
    let mut row = start;
    loop {
        let old = Vec::from_slice(alloc, row.as_slice())?;
        relax(problem, arcs, place, old.as_slice(), place, &mut row);
        if row.as_slice() == old.as_slice() {
            return Ok(row);
        }
    }
}

// The cost of a place and a map without a step.
fn start_cost(problem: &Problem, place: u32, map: &Map) -> u32
    ensures { IsStartCost problem.now (record { place = place; map = map.now }) result }
{
    if place == 0 {
        if same_map(map, &problem.entry) {
            return 0;
        }
    }
    NEVER
}

// The costs of a place without a step.
fn start_costs(alloc: Global, problem: &Problem, place: u32) -> Result<Vec<u32>, NoMemory>
    ensures { IfOk result (λ row. AreStartCosts problem.now place row.items) }
{
    let mut row = Vec::new(alloc);
    for map in problem.maps.as_slice() {
        row.push(start_cost(problem, place, map))?;
    }
    Ok(row)
}

// The edges from a place.
fn arcs_of(arcs: &Vec<Vec<Arc>>, place: usize) -> &[Arc]
    requires { place < length arcs.now.items }
    ensures { result.now ≡ slice_index_or (map (λ arcs. arcs.items) arcs.now.items) place [] }
{
    arcs[place].as_slice()
}

// The costs of a place.
fn row_of(rows: &Vec<Vec<u32>>, place: usize) -> &[u32]
    requires { place < length rows.now.items }
    ensures { result.now ≡ slice_index_or (map (λ row. row.items) rows.now.items) place [] }
{
    rows[place].as_slice()
}

// The costs of a place, by those of the places before it.
fn costs_at(
    alloc: Global,
    problem: &Problem,
    arcs: &Vec<Vec<Arc>>,
    rows: &Vec<Vec<u32>>,
    place: u32,
) -> Result<Vec<u32>, NoMemory>
    requires full { IsFull problem.now }
    requires place { place < problem.now.places }
    requires arcs { AreAllArcs problem.now (map (λ arcs. arcs.items) arcs.now.items) }
    requires rows { AreForward problem.now (map (λ row. row.items) rows.now.items) }
    requires len { length rows.now.items ≡ place }
    ensures { IfOk result (λ row. IsForwardRow problem.now (map (λ row. row.items) rows.now.items) place row.items) }
{
    let mut row = start_costs(alloc, problem, place)?;
    for source in place.saturating_sub(3)..place {
        relax(
            problem,
            arcs_of(arcs, source as usize),
            source,
            row_of(rows, source as usize),
            place,
            &mut row,
        );
    }
    let settled = settle(alloc, problem, arcs_of(arcs, place as usize), place, row)?;
    Ok(settled)
}

/// The least costs from the start: of each map at each place before the last, and of the exit map at the last place.
///
/// `exit` is the index of the exit map.
pub fn least_labels(
    alloc: Global,
    problem: &Problem,
    arcs: &Vec<Vec<Arc>>,
    exit: usize,
) -> Result<Labels, NoMemory>
    requires full { IsFull problem.now }
    requires exit { IsAt problem.now problem.now.exit exit }
    requires arcs { AreAllArcs problem.now (map (λ arcs. arcs.items) arcs.now.items) }
    ensures { IfOk result (λ labels. AreForwardLabels problem.now (values_of labels)) }
{
    let mut rows = Vec::new(alloc);
    for place in 0..problem.places - 1 {
        let row = costs_at(alloc, problem, arcs, &rows, place)?;
        rows.push(row)?;
    }
    let row = costs_at(alloc, problem, arcs, &rows, problem.places - 1)?;
    let mut end = Vec::new(alloc);
    end.push(row[exit])?;
    rows.push(end)?;
    Ok(Labels { values: rows })
}
