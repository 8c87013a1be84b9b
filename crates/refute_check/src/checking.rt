//! The check of a refutation.
ghost use Rattle.std.specs.Prelude.{◌≡◌, ◌↔◌, ◌++◌, [], IfOk, IfErr, IsTrue, MatchOption};
ghost use Rattle.std.specs.List.{All};
ghost use Rattle.word_kit.specs.Prelude.{IsFormula, AreClauses};
ghost use Rattle.watched_literals.specs.Prelude.{IsWithin};
ghost use Rattle.refute_check.specs.Refutations.{StepsFollow, IsFirstBad, EndsEmpty, IsRefutation, IsCause};

use crate::CheckFault;
use std::alloc::Global;
use watched_literals::{Literals, Numbering, Propagator};
use word_kit::{Clause, Formula, NoMemory, Refutation};

/// The first step that doesn't follow, where literals have numbers below `room`.
fn first_bad(
    alloc: Global,
    formula: &[Literals],
    steps: &[Literals],
    room: usize,
) -> Result<Option<usize>, NoMemory>
    requires formula { All (λ clause. All (IsWithin room) clause) formula.now }
    requires steps { All (λ clause. All (IsWithin room) clause) steps.now }
    ensures { IfOk result (λ bad. MatchOption bad (StepsFollow formula.now steps.now) (λ place. IsFirstBad formula.now steps.now place)) }
{
    let mut propagator = Propagator::over(alloc, formula, room)?;
    for place in 0..steps.len() {
        if !propagator.follows(steps[place].as_slice())? {
            return Ok(Some(place));
        }
        propagator.add(&steps[place])?;
    }
    Ok(None)
}

/// The first step that doesn't follow. The variables are numbered anew first, so that memory goes with how many there are, and not
/// with their numbers.
fn numbered_bad(
    alloc: Global,
    formula: &[Clause],
    steps: &[Clause],
) -> Result<Option<usize>, NoMemory>
    requires formula { AreClauses formula.now }
    requires steps { AreClauses steps.now }
    ensures { IfOk result (λ bad. MatchOption bad (StepsFollow formula.now steps.now) (λ place. IsFirstBad formula.now steps.now place)) }
{
    let mut numbering = Numbering::new(alloc);
    let clauses = numbering.renumber_all(alloc, formula)?;
    let log = numbering.renumber_all(alloc, steps)?;
    let bad = first_bad(alloc, &clauses, &log, numbering.room())?;
    Ok(bad)
}

/// Whether the last of the steps is the empty clause.
fn ends_empty(steps: &[Clause]) -> bool
    ensures { IsTrue result ↔ EndsEmpty steps.now }
{
    match steps.last() {
        Some(last) => last.as_slice().is_empty(),
        None => false,
    }
}

/// Accepts a refutation of a formula: each step follows from the formula and the earlier steps, and the last one is empty. A
/// step follows where setting all its literals to false leads, by unit propagation over the formula and the earlier steps, to
/// a clause that is false (RUP).
///
/// # Errors
/// `BadStep` with the first step that doesn't follow, `Unfinished` where all follow and the last one isn't empty or there is
/// none, and `Memory` where memory ran out.
pub fn check(alloc: Global, formula: &Formula, log: &Refutation) -> Result<(), CheckFault>
    requires formula { IsFormula formula.now }
    requires log { AreClauses log.now.clauses }
    ensures refutation { IfOk result (λ _. IsRefutation formula.now.clauses log.now.clauses) }
    ensures fault { IfErr result (λ fault. IsCause formula.now.clauses log.now.clauses fault) }
{
    let clauses = formula.clauses.as_slice();
    let steps = log.clauses.as_slice();
    match numbered_bad(alloc, clauses, steps) {
        Err(error) => Err(CheckFault::Memory(error)),
        Ok(Some(place)) => Err(CheckFault::BadStep(place)),
        Ok(None) => {
            if ends_empty(steps) {
                Ok(())
            } else {
                Err(CheckFault::Unfinished)
            }
        }
    }
}
