//! Literals that are decided one above the other, and the ways back.
ghost use Rattle.std.specs.Prelude.{◌≡◌, ◌≢◌, ◌<◌, ◌++◌, ◌∷◌, [], List, ℤ, neg_ℤ, take, slice_index_or, length, IfSome, IfOk, OnOk};
ghost use Rattle.std.specs.List.{All, Contains};
ghost use Rattle.watched_literals.specs.Literals.{IsWithin};
ghost use Rattle.watched_literals.specs.Levels.{IsLeveled, IsImplied};

use crate::clauses::Literals;
use crate::literal::Literal;
use crate::propagator::Propagator;
use crate::standing::{Standing, standing_of};
use crate::watches::Pair;
use std::alloc::Global;
use word_kit::NoMemory;

/// What known clauses make true where literals are decided one after the other: how many literals the root has, where each level
/// starts, with the literal that was decided, and whether a clause is false.
#[derive(Drop)]
pub struct Levels {
    pub propagator: Propagator,
    pub root: usize,
    pub starts: Vec<usize>,
    pub is_failed: bool,
}

impl Levels {
    /// Nothing is decided, and these clauses are known, whose literals have numbers below `room`.
    pub fn over(alloc: Global, clauses: &[Literals], room: usize) -> Result<Levels, NoMemory>
        requires { All (λ clause. All (IsWithin room) clause) clauses.now }
        ensures room { IfOk result (λ levels. levels.propagator.trail.room ≡ room) }
        ensures leveled { IfOk result (IsLeveled clauses.now) }
    {
        let propagator = Propagator::over(alloc, clauses, room)?;
        let root = propagator.len();
        Ok(Levels {
            propagator,
            root,
            starts: Vec::new(alloc),
            is_failed: false,
        })
    }

    /// Decides the literal, if it has no value yet, with what follows, and says whether a clause is false. A literal for which
    /// there is no room is passed over.
    pub fn decide(&mut self, literal: Literal) -> Result<bool, NoMemory>
        requires { (known : List (List ℤ)) × IsLeveled known self.old }
        ensures room { self.new.propagator.trail.room ≡ self.old.propagator.trail.room }
        ensures leveled { OnOk result ((known : List (List ℤ)) → IsLeveled known self.old → IsLeveled known self.new) }
    {
        if self.propagator.is_refuted() {
            return Ok(true);
        }
        if self.is_failed {
            return Ok(true);
        }
        if !self.propagator.is_within(literal) {
            return Ok(false);
        }
        if self.propagator.holds(literal) || self.propagator.holds(literal.opposite()) {
            return Ok(false);
        }
        self.starts.push(self.propagator.len())?;
        self.is_failed = self.propagator.assume(literal)?;
        Ok(self.is_failed)
    }

    /// Goes back to the first `count` levels above the root.
    pub fn back(&mut self, count: usize)
        requires { (known : List (List ℤ)) × IsLeveled known self.old }
        ensures room { self.new.propagator.trail.room ≡ self.old.propagator.trail.room }
        ensures starts { self.new.starts.items ≡ take count self.old.starts.items }
        ensures trail { count < length self.old.starts.items → self.new.propagator.trail.literals
            ≡ take (slice_index_or self.old.starts.items count 0) self.old.propagator.trail.literals }
        ensures leveled { (known : List (List ℤ)) → IsLeveled known self.old → IsLeveled known self.new }
    {
        if count < self.starts.len() {
            self.propagator.restart(self.starts[count]);
            self.starts.truncate(count);
            self.is_failed = false;
        }
    }

    /// The level at which a clause of which all literals are false has only one that isn't, and the root otherwise: that of the
    /// literal that became false last but one.
    fn level_of(&self, clause: &[Literal]) -> usize {
        let mut last = 0;
        let mut before = 0;
        for literal in clause {
            let level = self.level_at(self.propagator.place_of(literal.opposite()));
            if level > last {
                before = last;
                last = level;
            } else if level > before {
                before = level;
            }
        }
        before
    }

    /// The level of this place of the trail, counted from 1 above the root.
    fn level_at(&self, place: Option<usize>) -> usize {
        let mut level = 0usize;
        if let Some(place) = place {
            for start in &self.starts {
                if *start <= place {
                    level = level.saturating_add(1);
                }
            }
        }
        level
    }

    /// Another literal of the clause that became false at the last level.
    fn late(&self, clause: &[Literal], literal: Literal, start: usize) -> Option<Literal>
        ensures { IfSome result (λ other. Contains clause.now other × (other ≢ literal)
            × (¬ Contains (take start self.now.propagator.trail.literals) (neg_ℤ other))) }
    {
        for other in clause {
            if *other != literal {
                if let Some(place) = self.propagator.place_of(other.opposite()) {
                    if place >= start {
                        return Some(*other);
                    }
                }
            }
        }
        None
    }

    /// Goes back to the root, and adds the clause there.
    fn learn_at_root(&mut self, clause: &Literals) -> Result<(), NoMemory>
        requires leveled { (known : List (List ℤ)) × IsLeveled known self.old }
        requires literals { All (IsWithin self.old.propagator.trail.room) clause.now }
        ensures room { self.new.propagator.trail.room ≡ self.old.propagator.trail.room }
        ensures leveled { OnOk result ((known : List (List ℤ)) → IsLeveled known self.old → IsLeveled (known ++ clause.now ∷ []) self.new) }
    {
        if !self.propagator.is_refuted() {
            self.propagator.restart(self.root);
        }
        self.starts.clear();
        self.is_failed = false;
        self.propagator.add(clause)?;
        self.root = self.propagator.len();
        Ok(())
    }

    /// The two literals to be watched of a clause of which only the first isn't false, and the other became so at the last level.
    fn implied(&self, clause: &[Literal]) -> Option<Pair>
        requires { All (IsWithin self.now.propagator.trail.room) clause.now }
        ensures { IfSome result (IsImplied clause.now self.now) }
    {
        if self.is_failed || self.propagator.is_refuted() {
            return None;
        }
        let start = *self.starts.last()?;
        match standing_of(clause, &self.propagator.trail) {
            Standing::Unit(one) => {
                let other = self.late(clause, one, start)?;
                Some(Pair { one, other })
            }
            _ => None,
        }
    }

    /// Adds the clause at the last level where this makes a literal of it true, and else at the root.
    fn learn_here(&mut self, clause: &Literals) -> Result<(), NoMemory>
        requires leveled { (known : List (List ℤ)) × IsLeveled known self.old }
        requires literals { All (IsWithin self.old.propagator.trail.room) clause.now }
        ensures room { self.new.propagator.trail.room ≡ self.old.propagator.trail.room }
        ensures leveled { OnOk result ((known : List (List ℤ)) → IsLeveled known self.old → IsLeveled (known ++ clause.now ∷ []) self.new) }
    {
        match self.implied(clause.as_slice()) {
            Some(pair) => {
                self.is_failed = self.propagator.imply(clause, pair.one, pair.other)?;
                Ok(())
            }
            None => self.learn_at_root(clause),
        }
    }

    /// Goes back to the level that the clause asks for, and adds it to the known ones there, with what follows.
    pub fn learn(&mut self, clause: &Literals) -> Result<(), NoMemory>
        requires leveled { (known : List (List ℤ)) × IsLeveled known self.old }
        requires literals { All (IsWithin self.old.propagator.trail.room) clause.now }
        ensures room { self.new.propagator.trail.room ≡ self.old.propagator.trail.room }
        ensures leveled { OnOk result ((known : List (List ℤ)) → IsLeveled known self.old → IsLeveled (known ++ clause.now ∷ []) self.new) }
    {
        self.back(self.level_of(clause.as_slice()));
        self.learn_here(clause)
    }
}
