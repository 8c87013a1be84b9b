//! What a search goes by: decisions on a trail that is kept down to the level that each learned clause asks for. No promise of
//! the solver rests on it: what it proposes is assumed anew.
ghost use Rattle.std.specs.Prelude.{◌≡◌, ◌++◌, ◌∷◌, [], List, ℕ, ℤ, IfOk, OnOk};
ghost use Rattle.std.specs.List.{All};
ghost use Rattle.word_kit.specs.Prelude.{IsFormula};
ghost use Rattle.watched_literals.specs.Prelude.{IsWithin};
ghost use Rattle.sat_core.specs.Searching.{IsGuided, room_for};

use crate::analysis::analyze;
use crate::order::Order;
use crate::search::LAST_VARIABLE;
use std::alloc::Global;
use watched_literals::{Levels, Literal, Literals};
use word_kit::{Formula, NoMemory};

/// How many clauses are learned before the trail goes back to the root.
const RESTART_INTERVAL: usize = 16;

/// Literals that are decided one above the other, the order in which variables are decided, and how many clauses were learned.
#[derive(Drop)]
pub struct Guide {
    levels: Levels,
    order: Order,
    learned: usize,
}

impl Guide {
    /// Nothing is decided, and nothing is learned.
    pub fn new(alloc: Global, formula: &Formula, clauses: &[Literals]) -> Result<Guide, NoMemory>
        requires formula { IsFormula formula.now }
        requires clauses { clauses.now ≡ formula.now.clauses }
        ensures { IfOk result (λ guide. IsGuided formula.now.clauses (room_for formula.now.variables) guide.levels) }
    {
        let room = 2 * formula.variables.min(LAST_VARIABLE) as usize + 2;
        Ok(Guide {
            levels: Levels::over(alloc, clauses, room)?,
            order: Order::new(alloc, formula.variables)?,
            learned: 0,
        })
    }

    /// Decides variables until a clause is false or each variable has a value, the preferred literals first.
    fn decide(&mut self, alloc: Global) -> Result<(), NoMemory>
        requires { (known : List (List ℤ)) × (room : ℕ) × IsGuided known room self.old.levels }
        ensures { OnOk result ((known : List (List ℤ)) (room : ℕ) → IsGuided known room self.old.levels → IsGuided known room self.new.levels) }
    {
        for literal in &self.order.literals(alloc)? {
            if self.levels.decide(*literal)? {
                return Ok(());
            }
        }
        Ok(())
    }

    /// Decides variables until a clause is false or each variable has a value, and proposes what to assume: what the false clause
    /// rests on, and all decisions.
    pub fn propose(&mut self, alloc: Global) -> Result<Vec<Literal>, NoMemory>
        requires { (known : List (List ℤ)) × (room : ℕ) × IsGuided known room self.old.levels }
        ensures { OnOk result ((known : List (List ℤ)) (room : ℕ) → IsGuided known room self.old.levels → IsGuided known room self.new.levels) }
    {
        self.decide(alloc)?;
        let mut proposed = analyze(alloc, &self.levels, &mut self.order)?;
        self.order.keep_values(&self.levels);
        for start in &self.levels.starts {
            if let Some(literal) = self.levels.propagator.literal(*start) {
                proposed.push(literal)?;
            }
        }
        Ok(proposed)
    }

    /// Goes on behind a learned clause: from the level that it asks for, or from the root.
    pub fn learn(&mut self, clause: &Literals) -> Result<(), NoMemory>
        requires guided { (known : List (List ℤ)) × (room : ℕ) × IsGuided known room self.old.levels }
        requires literals { All (IsWithin self.old.levels.propagator.trail.room) clause.now }
        ensures { OnOk result ((known : List (List ℤ)) (room : ℕ) → IsGuided known room self.old.levels → IsGuided (known ++ clause.now ∷ []) room self.new.levels) }
    {
        self.order.learned(clause.as_slice());
        self.levels.learn(clause)?;
        self.learned = self.learned.saturating_add(1);
        if self.learned % RESTART_INTERVAL == 0 {
            self.levels.back(0);
        }
        Ok(())
    }
}
