//! Unit propagation by two watched literals a clause.
ghost use Rattle.std.specs.Prelude.{◌≡◌, ◌≢◌, ◌<◌, ◌≤◌, ◌++◌, ◌∷◌, [], ℤ, neg_ℤ, pos, length, take, slice_index_or, slice_set, IfOk, OnOk, MatchOption};
ghost use Rattle.std.specs.List.{All, Contains};
ghost use Rattle.watched_literals.specs.Literals.{code, IsWithin};
ghost use Rattle.watched_literals.specs.Watches.{IsWatch, IsPair, IsStored, Keeps, Rewatches, Visits, Propagates, Watches, AllWatched};
ghost use Rattle.watched_literals.specs.Propagators.{IsReasoned};

use crate::clauses::Literals;
use crate::lists::WatchList;
use crate::literal::Literal;
use crate::propagator::Propagator;
use crate::trail::Trail;
use std::mem;
use word_kit::NoMemory;

/// Two literals of a clause that are watched.
#[derive(Clone, Copy)]
pub struct Pair {
    pub one: Literal,
    pub other: Literal,
}

impl Pair {
    /// A watched literal that isn't this one.
    fn beside(self, off: Literal) -> Literal
        ensures watch { IsWatch self result }
        ensures apart { self.one ≢ self.other → result ≢ off }
    {
        if self.one == off {
            self.other
        } else {
            self.one
        }
    }
}

/// A literal of the clause that isn't false, apart from this one.
fn unfalse(clause: &[Literal], trail: &Trail, but: Literal) -> Option<Literal>
    requires { All (IsWithin trail.now.room) clause.now }
    ensures { MatchOption result
        ((literal : ℤ) → Contains clause.now literal → literal ≢ but → Contains trail.now.literals (neg_ℤ literal))
        (λ literal. Contains clause.now literal × (literal ≢ but) × (¬ Contains trail.now.literals (neg_ℤ literal))) }
{
    for literal in clause {
        if *literal != but && !trail.holds(literal.opposite()) {
            return Some(*literal);
        }
    }
    None
}

/// Puts the place into the row of the literal.
fn list(rows: &mut Vec<WatchList>, literal: Literal, place: usize) -> Result<(), NoMemory>
    requires within { code literal < length rows.old.items }
    ensures { OnOk result (rows.new.items ≡ slice_set rows.old.items (code literal) (slice_index_or rows.old.items (code literal) [] ++ place ∷ [])) }
{
    rows[literal.code()].push(place)?;
    Ok(())
}

impl Propagator {
    /// Watches two literals of one clause more.
    pub(crate) fn watch(
        &mut self,
        clause: &Literals,
        one: Literal,
        other: Literal,
    ) -> Result<(), NoMemory>
        requires stored { IsStored self.old (pos 0) [] }
        requires within { All (IsWithin self.old.trail.room) clause.now }
        requires pair { IsPair clause.now (record { one = one; other = other }) }
        ensures trail { self.new.trail ≡ self.old.trail }
        ensures refuted { self.new.refuted ≡ self.old.refuted }
        ensures watches { OnOk result (Watches clause.now (record { one = one; other = other }) self.old self.new) }
    {
        let place = self.clauses.len();
        self.clauses.push(clause.share()?)?;
        self.pairs.push(Pair { one, other })?;
        list(&mut self.rows, one, place)?;
        list(&mut self.rows, other, place)?;
        Ok(())
    }

    /// Looks at the clause at this place, one of whose watched literals is the false `off`.
    fn rewatch(&mut self, place: usize, off: Literal) -> Result<bool, NoMemory>
        requires inside { place < length self.old.clauses.items }
        requires stored { IsStored self.old off (self.old.pending ++ place ∷ []) }
        requires off { IsWithin self.old.trail.room off }
        requires false_off { Contains self.old.trail.literals (neg_ℤ off) }
        ensures keeps { Keeps self.old self.new }
        ensures reasons { OnOk result (IsReasoned self.old → IsReasoned self.new) }
        ensures rewatches { IfOk result (λ fails. Rewatches off place self.old self.new fails) }
    {
        let pair = self.pairs[place];
        let other = pair.beside(off);
        if self.trail.holds(other) {
            list(&mut self.rows, off, place)?;
            return Ok(false);
        }
        match unfalse(self.clauses[place].as_slice(), &self.trail, other) {
            Some(one) => {
                self.pairs[place] = Pair { one, other };
                list(&mut self.rows, one, place)?;
                Ok(false)
            }
            None => {
                if self.trail.holds(other.opposite()) {
                    self.conflict = Some(place);
                    self.pending.push(place)?;
                    return Ok(true);
                }
                self.trail.push(other, Some(place))?;
                list(&mut self.rows, off, place)?;
                Ok(false)
            }
        }
    }

    /// Looks at the clauses that watch the opposite of this true literal, until one of them is false.
    fn visit(&mut self, literal: Literal) -> Result<bool, NoMemory>
        requires stored { IsStored self.old (pos 0) [] }
        requires idle { self.old.pending ≡ [] }
        requires literal { IsWithin self.old.trail.room literal }
        requires is_true { Contains self.old.trail.literals literal }
        ensures keeps { Keeps self.old self.new }
        ensures reasons { OnOk result (IsReasoned self.old → IsReasoned self.new) }
        ensures visits { IfOk result (λ fails. Visits literal self.old self.new fails) }
    {
        let off = literal.opposite();
        let row = off.code();
        mem::swap(&mut self.rows[row], &mut self.pending);
        while let Some(place) = self.pending.pop() {
            if self.rewatch(place, off)? {
                self.rows[row].append(&mut self.pending)?;
                return Ok(true);
            }
        }
        Ok(false)
    }

    /// Makes true what the clauses make true by unit propagation, and says whether a clause is false. The literals of the trail
    /// before `from` were visited already.
    pub(crate) fn propagate(&mut self, from: usize) -> Result<bool, NoMemory>
        requires stored { IsStored self.old (pos 0) [] }
        requires idle { self.old.pending ≡ [] }
        requires from { from ≤ length self.old.trail.literals }
        requires watched { AllWatched self.old.clauses.items self.old.pairs.items (take from self.old.trail.literals) self.old.trail.literals }
        ensures keeps { Keeps self.old self.new }
        ensures reasons { OnOk result (IsReasoned self.old → IsReasoned self.new) }
        ensures propagates { IfOk result (λ fails. Propagates self.old self.new fails) }
    {
        let mut visited = from;
        while visited < self.trail.len() {
            let literal = self.trail.get(visited);
            if self.visit(literal)? {
                return Ok(true);
            }
            visited += 1;
        }
        Ok(false)
    }
}
