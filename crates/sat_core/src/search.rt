//! The state of a search: literals that are assumed one after the other, with all that follows by unit propagation.
ghost use Rattle.std.specs.Prelude.{◌≡◌, ◌<◌, ◌^◌, ◌∷◌, [], pos, IfOk};
ghost use Rattle.word_kit.specs.Prelude.{IsFormula};
ghost use Rattle.sat_core.specs.Decisions.{IsLiteralOf, IsVariable};
ghost use Rattle.sat_core.specs.Searching.{IsSearching, IsStart, Reaches};

use std::alloc::Global;
use watched_literals::{Literal, Literals, Propagator};
use word_kit::{Clause, Formula, NoMemory};

/// The variables that literals can name are those up to this one.
pub const LAST_VARIABLE: u32 = 2_147_483_647;

/// A formula, the clauses that were learned from it, the literals that follow, and the opposites of those that were assumed.
#[derive(Drop)]
pub struct Search<'a> {
    pub formula: &'a Formula,
    pub steps: Vec<Clause>,
    pub propagator: Propagator,
    pub assumed: Vec<Literal>,
}

impl<'a> Search<'a> {
    /// Nothing is assumed, and nothing is learned.
    pub fn new(
        alloc: Global,
        formula: &'a Formula,
        clauses: &[Literals],
    ) -> Result<Search<'a>, NoMemory>
        requires formula { IsFormula formula.now }
        requires clauses { clauses.now ≡ formula.now.clauses }
        ensures { IfOk result (IsStart formula.now) }
    {
        let room = 2 * formula.variables.min(LAST_VARIABLE) as usize + 2;
        let propagator = Propagator::over(alloc, clauses, room)?;
        Ok(Search {
            formula,
            steps: Vec::new(alloc),
            propagator,
            assumed: Vec::new(alloc),
        })
    }

    /// Makes the literal true, if it has no value yet, with what follows. Where a clause becomes false, answers the opposite of
    /// the literal. A number that is no literal of the formula's variables is passed over.
    fn assume(&mut self, literal: Literal) -> Result<Option<Literal>, NoMemory>
        requires { IsSearching self.old }
        ensures { IfOk result (λ last. Reaches (IsLiteralOf self.old.propagator.trail.room (literal ∷ [])) self.old self.new last) }
    {
        if !self.propagator.is_within(literal) {
            return Ok(None);
        }
        let negated = literal.opposite();
        if self.propagator.holds(literal) || self.propagator.holds(negated) {
            return Ok(None);
        }
        self.assumed.push(negated)?;
        if self.propagator.assume(literal)? {
            return Ok(Some(negated));
        }
        Ok(None)
    }

    /// Assumes the literals one after the other, until a clause is false.
    pub fn assume_all(&mut self, literals: &[Literal]) -> Result<Option<Literal>, NoMemory>
        requires { IsSearching self.old }
        ensures { IfOk result (λ last. Reaches (IsLiteralOf self.old.propagator.trail.room literals.now) self.old self.new last) }
    {
        for literal in literals {
            let last = self.assume(*literal)?;
            if last.is_some() {
                return Ok(last);
            }
        }
        Ok(None)
    }

    /// Assumes all variables that literals can name, until a clause is false.
    pub fn assume_variables(&mut self) -> Result<Option<Literal>, NoMemory>
        requires { IsSearching self.old }
        ensures { IfOk result (λ last. Reaches (IsVariable self.old.formula.now.variables) self.old self.new last) }
    {
        for index in 0..self.formula.variables.min(LAST_VARIABLE) {
            let literal = Literal::of_variable(index + 1);
            let last = self.assume(literal)?;
            if last.is_some() {
                return Ok(last);
            }
        }
        Ok(None)
    }

    /// Assumes all variables until a clause is false, the proposed literals first.
    pub fn decide(&mut self, proposed: &[Literal]) -> Result<Option<Literal>, NoMemory>
        requires { IsSearching self.old }
        ensures { IfOk result (λ last. Reaches (IsVariable self.old.formula.now.variables) self.old self.new last) }
    {
        let last = self.assume_all(proposed)?;
        if last.is_some() {
            return Ok(last);
        }
        let last = self.assume_variables()?;
        Ok(last)
    }
}
