//! The first of the least walks.

ghost use Rattle.std.specs.Prelude.{◌≡◌, ◌↔◌, ◌+◌, ◌-◌, ◌*◌, ◌≤◌, ◌<◌, ℕ, List, IfOk, IsTrue, length, map, Contains};
ghost use Rattle.plan_form.specs.declared.problem.Step.{Step};
ghost use Rattle.plan_form.specs.Prelude.{IsFull, IsAt, last, Leaves, IsValidPlan, entry_node};
ghost use Rattle.tile_plan.specs.declared.arcs.Arc.{Arc};
ghost use Rattle.tile_plan.specs.Arcs.{IsArc, AreArcs, AreAllArcs};
ghost use Rattle.tile_plan.specs.Least.{IsFilled, IsTable};
ghost use Rattle.tile_plan.specs.Choice.{IsTight, IsChoice, IsFirstPlan};

use crate::arcs::Arc;
use crate::table::{NEVER, beyond, weight_at};
use plan_form::{Problem, Step, order_of};
use std::alloc::Global;
use word_kit::NoMemory;

// Whether a least walk of this weight may begin with the edge.
fn is_tight(
    problem: &Problem,
    table: &Vec<Vec<u32>>,
    place: u32,
    left: usize,
    index: usize,
    weight: u32,
    arc: &Arc,
) -> bool
    requires table { IsFilled problem.now (map (λ row. row.items) table.now.items) place left }
    requires arc { IsArc problem.now place arc.now }
    ensures { IsTrue result ↔ IsTight problem.now left index weight arc.now }
{
    if arc.from != index {
        return false;
    }
    let behind = beyond(problem, table, place, left, arc);
    if behind == NEVER {
        return false;
    }
    weight == 512 * arc.price + 1 + behind
}

// The first edge of those that a least walk of this weight may begin with.
fn first_edge(
    problem: &Problem,
    arcs: &[Arc],
    table: &Vec<Vec<u32>>,
    place: u32,
    left: usize,
    index: usize,
    weight: u32,
) -> Arc
    requires table { IsFilled problem.now (map (λ row. row.items) table.now.items) place left }
    requires arcs { AreArcs problem.now place arcs.now }
    requires some { (arc : Arc) × Contains arcs.now arc × IsTight problem.now left index weight arc }
    ensures { IsChoice problem.now place left index weight arcs.now result }
{
    let mut chosen: Option<Arc> = None;
    let mut least = u64::MAX;
    for arc in arcs {
        if is_tight(problem, table, place, left, index, weight, arc) {
            let order = order_of(problem, arc.step);
            if order < least {
                chosen = Some(*arc);
                least = order;
            }
        }
    }
    match chosen {
        Some(arc) => arc,
        None => unreachable!(),
    }
}

// How many moves may still follow in a row after a step.
fn left_after(left: usize, step: Step) -> usize
    requires { (after : ℕ) × Leaves left step after }
    ensures { Leaves left step result }
{
    match step {
        Step::Go(_) => left - 1,
        Step::Lay(_) => 6,
    }
}

/// The first of the least plans.
///
/// `entry` is the index of the entry map.
pub fn first_walk(
    alloc: Global,
    problem: &Problem,
    arcs: &Vec<Vec<Arc>>,
    table: &Vec<Vec<u32>>,
    entry: usize,
) -> Result<Vec<Step>, NoMemory>
    requires full { IsFull problem.now }
    requires arcs { AreAllArcs problem.now (map (λ arcs. arcs.items) arcs.now.items) }
    requires table { IsTable problem.now (map (λ row. row.items) table.now.items) }
    requires len { length table.now.items ≡ 7 * problem.now.places }
    requires entry { IsAt problem.now problem.now.entry entry }
    requires some { (steps : List Step) × (cost : ℕ) × IsValidPlan problem.now steps cost }
    ensures { IfOk result (λ steps. IsFirstPlan problem.now steps.items) }
{
    let mut steps = Vec::new(alloc);
    let mut place: u32 = 0;
    let mut index = entry;
    let mut left = 6;
    let mut weight = weight_at(table, 7 * (problem.places - 1) as usize + 6, index);
    while weight > 0 {
        let arc = first_edge(
            problem,
            arcs[place as usize].as_slice(),
            table,
            place,
            left,
            index,
            weight,
        );
        weight -= 512 * arc.price + 1;
        left = left_after(left, arc.step);
        place = arc.place;
        index = arc.to;
        steps.push(arc.step)?;
    }
    Ok(steps)
}
