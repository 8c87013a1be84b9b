//! The least plan with its labels.

ghost use Rattle.std.specs.Prelude.{IfOk};
ghost use Rattle.plan_form.specs.Prelude.{IsFull, values_of};
ghost use Rattle.tile_plan.specs.Solution.{IsSolution};

use crate::arcs::all_arcs;
use crate::forward::least_labels;
use crate::table::weights;
use crate::walk::first_walk;
use plan_form::{Labels, Plan, Problem, index_in, map_indexes};
use std::alloc::Global;
use word_kit::NoMemory;

/// Of the valid plans of least cost one with fewest steps, and of these the first in the order of steps. Its
/// labels are the least costs from the start, and certify it.
pub fn solve(alloc: Global, problem: &Problem) -> Result<(Plan, Labels), NoMemory>
    requires full { IsFull problem.now }
    ensures { IfOk result (λ answer. IsSolution problem.now answer.0.steps.items (values_of answer.1)) }
{
    let indexes = map_indexes(problem);
    let arcs = all_arcs(alloc, problem, &indexes)?;
    let table = weights(alloc, problem, &arcs)?;
    let entry = index_in(problem, &indexes, &problem.entry);
    let steps = first_walk(alloc, problem, &arcs, &table, entry)?;
    let exit = index_in(problem, &indexes, &problem.exit);
    let labels = least_labels(alloc, problem, &arcs, exit)?;
    Ok((Plan { steps }, labels))
}
