//! Values of variables from a trail.
ghost use Rattle.std.specs.Prelude.{◌≡◌, ◌<◌, ◌≤◌, ◌^◌, pos, IfOk};
ghost use Rattle.std.specs.List.{list_any};
ghost use Rattle.std.specs.Ordering.{int_eq};
ghost use Rattle.sat_core.specs.Decisions.{AreRead};
ghost use Rattle.sat_core.specs.Searching.{room_for};

use crate::search::LAST_VARIABLE;
use std::alloc::Global;
use watched_literals::{Literal, Propagator};
use word_kit::NoMemory;

/// Whether the variable is true; one that no literal can name is false.
fn is_true(propagator: &Propagator, variable: u32, variables: u32) -> bool
    requires above { 0 < variable }
    requires within { variable ≤ variables }
    requires room { propagator.now.trail.room ≡ room_for variables }
    ensures { variable < 2 ^ 31 → result ≡ list_any (int_eq (pos variable)) propagator.now.trail.literals }
{
    variable <= LAST_VARIABLE && propagator.holds(Literal::of_variable(variable))
}

/// The values of the variables from 1 to this one.
pub fn values(alloc: Global, propagator: &Propagator, variables: u32) -> Result<Vec<bool>, NoMemory>
    requires { propagator.now.trail.room ≡ room_for variables }
    ensures { IfOk result (λ values. AreRead propagator.now.trail.literals variables values.items) }
{
    let mut items = Vec::new(alloc);
    for index in 0..variables {
        items.push(is_true(propagator, index + 1, variables))?;
    }
    Ok(items)
}
