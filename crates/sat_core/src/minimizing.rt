//! Learned clauses without the literals that they can do without.
ghost use Rattle.std.specs.Prelude.{◌≡◌, List, ℤ, IfOk, OnOk};
ghost use Rattle.std.specs.List.{All};
ghost use Rattle.watched_literals.specs.Prelude.{without, IsWithin, IsReady};
ghost use Rattle.sat_core.specs.Decisions.{IsGained};
ghost use Rattle.sat_core.specs.Lessons.{IsLesson};

use std::alloc::Global;
use watched_literals::{Literal, Propagator};
use word_kit::NoMemory;

/// The clause without this literal.
fn without(alloc: Global, clause: &[Literal], literal: Literal) -> Result<Vec<Literal>, NoMemory>
    ensures { IfOk result (λ rest. rest.items ≡ without literal clause.now) }
{
    let mut rest = Vec::new(alloc);
    for other in clause {
        if *other != literal {
            rest.push(*other)?;
        }
    }
    Ok(rest)
}

/// Leaves each literal but the last assumed one out of the clause for good where the rest still follows. The literals that were
/// assumed later are tried earlier.
pub fn minimize(
    alloc: Global,
    propagator: &mut Propagator,
    clause: &[Literal],
    last: Literal,
) -> Result<Vec<Literal>, NoMemory>
    requires ready { (known : List (List ℤ)) × IsReady known propagator.old × IsGained known clause.now last }
    requires within { All (IsWithin propagator.old.trail.room) clause.now }
    ensures room { OnOk result (propagator.new.trail.room ≡ propagator.old.trail.room) }
    ensures within { IfOk result (λ kept. All (IsWithin propagator.old.trail.room) kept.items) }
    ensures lesson { IfOk result (λ kept. (known : List (List ℤ)) → IsReady known propagator.old → IsGained known clause.now last → IsLesson known kept.items) }
    ensures ready { OnOk result ((known : List (List ℤ)) → IsReady known propagator.old → IsReady known propagator.new) }
{
    let mut kept = Vec::from_slice(alloc, clause)?;
    let mut candidates = Vec::from_slice(alloc, clause)?;
    candidates.reverse();
    for literal in &candidates {
        if *literal != last {
            let rest = without(alloc, kept.as_slice(), *literal)?;
            if propagator.follows(rest.as_slice())? {
                kept = rest;
            }
        }
    }
    Ok(kept)
}
