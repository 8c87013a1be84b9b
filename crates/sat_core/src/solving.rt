//! The solver: conflict-driven search.
ghost use Rattle.std.specs.Prelude.{◌≡◌, false, IfOk, OnOk};
ghost use Rattle.std.specs.List.{All};
ghost use Rattle.word_kit.specs.Prelude.{IsFormula};
ghost use Rattle.watched_literals.specs.Prelude.{IsWithin};
ghost use Rattle.sat_core.specs.Searching.{IsRooted, IsConflict, IsTaught, IsLearned, Restarts, Finds};
ghost use Rattle.sat_core.specs.Verdicts.{IsVerdict};

use crate::guide::Guide;
use crate::minimizing::minimize;
use crate::search::Search;
use crate::values::values;
use crate::{Values, Verdict};
use std::alloc::Global;
use std::mem;
use watched_literals::{Literal, Literals, literals_of_all, written};
use word_kit::{Clause, Clauses, Formula, NoMemory, Refutation};

/// What one search comes to.
#[derive(Drop)]
pub enum Found {
    /// Values that satisfy the formula.
    Model(Vec<bool>),
    /// A clause that is worth learning.
    Lesson(Vec<Literal>),
}

impl<'a> Search<'a> {
    /// Goes back to the root, of this many literals, and answers the clause of what was assumed.
    fn restart(&mut self, alloc: Global, root: usize) -> Vec<Literal>
        ensures restarts { Restarts root self.old self.new }
        ensures assumed { result.items ≡ self.old.assumed.items }
    {
        self.propagator.restart(root);
        mem::replace(&mut self.assumed, Vec::new(alloc))
    }

    /// The clause to be learned from a conflict: that of the assumed literals, without those that it can do without.
    fn lesson(
        &mut self,
        alloc: Global,
        root: usize,
        last: Literal,
    ) -> Result<Vec<Literal>, NoMemory>
        requires { IsConflict root last self.old }
        ensures { IfOk result (λ clause. IsTaught self.old self.new clause.items) }
    {
        let assumed = self.restart(alloc, root);
        Ok(minimize(alloc, &mut self.propagator, &assumed, last)?)
    }

    /// Assumes what is proposed from the root on.
    fn turn(&mut self, alloc: Global, proposed: &[Literal]) -> Result<Found, NoMemory>
        requires rooted { IsRooted self.old }
        requires open_root { self.old.propagator.refuted ≡ false }
        ensures { IfOk result (λ found. Finds self.old self.new found) }
    {
        let root = self.propagator.len();
        match self.decide(proposed)? {
            Some(last) => Ok(Found::Lesson(self.lesson(alloc, root, last)?)),
            None => Ok(Found::Model(values(alloc, &self.propagator, self.formula.variables)?)),
        }
    }

    /// Adds the clause to the learned ones.
    fn learn(&mut self, alloc: Global, clause: &Literals) -> Result<(), NoMemory>
        requires rooted { IsRooted self.old }
        requires within { All (IsWithin self.old.propagator.trail.room) clause.now }
        ensures { OnOk result (IsLearned self.old self.new clause.now) }
    {
        self.propagator.add(clause)?;
        self.steps.push(written(alloc, clause.as_slice())?)?;
        Ok(())
    }
}

/// Looks for values that satisfy the formula, and learns clauses until there are some, until the learned clauses refute the
/// formula, or until there would be more of them than `limit`. Each learned clause follows from the formula and the ones before
/// it by unit propagation, says something new, and has no literal that could be left out.
///
/// # Errors
/// `NoMemory` where memory ran out.
pub fn solve(alloc: Global, formula: &Formula, limit: usize) -> Result<Verdict, NoMemory>
    requires { IsFormula formula.now }
    ensures { IfOk result (λ verdict. IsVerdict formula.now limit verdict) }
{
    let clauses = literals_of_all(alloc, formula.clauses.as_slice())?;
    let mut search = Search::new(alloc, formula, &clauses)?;
    let mut guide = Guide::new(alloc, formula, &clauses)?;
    'learning: while !search.propagator.is_refuted() {
        let proposed = guide.propose(alloc)?;
        match search.turn(alloc, &proposed)? {
            Found::Model(values) => return Ok(Verdict::Model(Values::from(values))),
            Found::Lesson(clause) => {
                if search.steps.len() == limit {
                    let clauses = Clauses::from(search.steps);
                    return Ok(Verdict::Spent(Refutation { clauses }));
                }
                let lesson = Literals::new(clause)?;
                search.learn(alloc, &lesson)?;
                guide.learn(&lesson)?;
            }
        }
    }
    search.steps.push(Clause::from(Vec::new(alloc)))?;
    let clauses = Clauses::from(search.steps);
    Ok(Verdict::Refuted(Refutation { clauses }))
}
