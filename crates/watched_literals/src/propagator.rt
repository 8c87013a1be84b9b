//! Known clauses, what they make true, and whether another clause follows from them.
ghost use Rattle.std.specs.Prelude.{◌≡◌, ◌≢◌, true, false, None, Some, take, slice_get, slice_index_or, IfSome, ◌≤◌, ◌<◌, ◌+◌, ◌*◌, ◌^◌, ◌++◌, ◌∷◌, [], List, ℕ, ℤ, pos, length, IfOk, OnOk};
ghost use Rattle.std.specs.Bool.{Decides};
ghost use Rattle.std.specs.List.{All, Contains, list_any};
ghost use Rattle.std.specs.Ordering.{int_eq};
ghost use Rattle.watched_literals.specs.Propagation.{Follows};
ghost use Rattle.watched_literals.specs.Trails.{Denies, Extends, IsUnit};
ghost use Rattle.watched_literals.specs.Literals.{IsWithin, AreReasoned, clause_at};
ghost use Rattle.watched_literals.specs.Watches.{IsStored, IsComplete, Keeps, StaysWatched};
ghost use Rattle.watched_literals.specs.Propagators.{IsReady, IsReasoned, IsTried, IsAbove, Spreads, Implies};

use crate::clauses::Literals;
use crate::lists::WatchList;
use crate::literal::Literal;
use crate::standing::{Standing, standing_of};
use crate::trail::Trail;
use crate::watches::Pair;
use std::alloc::Global;
use word_kit::NoMemory;

/// Known clauses, the two watched literals of each, for each literal by its number the places of the clauses that watch it,
/// those of them that are still to be looked at, the literals that are true, the clause that became false last, and whether a known
/// clause is false where nothing is assumed.
#[derive(Drop)]
pub struct Propagator {
    pub(crate) clauses: Vec<Literals>,
    pub(crate) pairs: Vec<Pair>,
    pub(crate) rows: Vec<WatchList>,
    pub(crate) pending: WatchList,
    pub(crate) trail: Trail,
    pub(crate) conflict: Option<usize>,
    refuted: bool,
}

/// Makes the opposites of the clause's literals true, until one of the literals is true.
fn deny(clause: &[Literal], trail: &mut Trail) -> Result<bool, NoMemory>
    requires { All (IsWithin trail.old.room) clause.now }
    ensures room { trail.new.room ≡ trail.old.room }
    ensures reasons { OnOk result ((clauses : List (List ℤ)) → AreReasoned clauses trail.old → AreReasoned clauses trail.new) }
    ensures denies { IfOk result (λ is_true. Denies clause.now trail.old.literals trail.new.literals is_true) }
{
    for literal in clause {
        if trail.holds(*literal) {
            return Ok(true);
        }
        let off = literal.opposite();
        if !trail.holds(off) {
            trail.push(off, None)?;
        }
    }
    Ok(false)
}

impl Propagator {
    /// No clause is known. Literals may have numbers below `room`.
    pub fn new(alloc: Global, room: usize) -> Result<Propagator, NoMemory>
        ensures room { IfOk result (λ s. s.trail.room ≡ room) }
        ensures reasons { IfOk result IsReasoned }
        ensures ready { IfOk result (IsReady []) }
    {
        let mut rows = Vec::new(alloc);
        for _number in 0..room {
            rows.push(WatchList::new(alloc))?;
        }
        let trail = Trail::new(alloc, room)?;
        Ok(Propagator {
            clauses: Vec::new(alloc),
            pairs: Vec::new(alloc),
            rows,
            pending: WatchList::new(alloc),
            trail,
            conflict: None,
            refuted: false,
        })
    }

    /// These clauses are known, whose literals have numbers below `room`.
    pub fn over(alloc: Global, clauses: &[Literals], room: usize) -> Result<Propagator, NoMemory>
        requires { All (λ clause. All (IsWithin room) clause) clauses.now }
        ensures room { IfOk result (λ s. s.trail.room ≡ room) }
        ensures ready { IfOk result (IsReady clauses.now) }
    {
        let mut propagator = Propagator::new(alloc, room)?;
        for place in 0..clauses.len() {
            propagator.add(&clauses[place])?;
        }
        Ok(propagator)
    }

    /// Adds a clause to the known ones.
    pub fn add(&mut self, clause: &Literals) -> Result<(), NoMemory>
        requires ready { (known : List (List ℤ)) × IsReady known self.old }
        requires literals { All (IsWithin self.old.trail.room) clause.now }
        ensures room { self.new.trail.room ≡ self.old.trail.room }
        ensures reasons { OnOk result (IsReasoned self.old → IsReasoned self.new) }
        ensures ready { OnOk result ((known : List (List ℤ)) → IsReady known self.old → IsReady (known ++ clause.now ∷ []) self.new) }
    {
        if self.refuted {
            return Ok(());
        }
        match standing_of(clause.as_slice(), &self.trail) {
            Standing::True => {}
            Standing::Open(one, other) => {
                self.watch(clause, one, other)?;
            }
            Standing::Unit(literal) => {
                let visited = self.trail.len();
                self.trail.push(literal, None)?;
                self.refuted = self.propagate(visited)?;
            }
            Standing::False => {
                self.refuted = true;
            }
        }
        Ok(())
    }

    /// Whether setting the literals of the clause to false leads to a clause that is false.
    fn attempt(&mut self, clause: &[Literal]) -> Result<bool, NoMemory>
        requires stored { IsStored self.old (pos 0) [] }
        requires idle { self.old.pending ≡ [] }
        requires complete { IsComplete self.old }
        requires literals { All (IsWithin self.old.trail.room) clause.now }
        ensures keeps { Keeps self.old self.new }
        ensures reasons { OnOk result (IsReasoned self.old → IsReasoned self.new) }
        ensures tried { IfOk result (λ yes. IsTried clause.now self.old self.new yes) }
    {
        let visited = self.trail.len();
        if deny(clause, &mut self.trail)? {
            return Ok(true);
        }
        let fails = self.propagate(visited)?;
        Ok(fails)
    }

    /// Whether the clause follows from the known ones.
    pub fn follows(&mut self, clause: &[Literal]) -> Result<bool, NoMemory>
        requires ready { (known : List (List ℤ)) × IsReady known self.old }
        requires literals { All (IsWithin self.old.trail.room) clause.now }
        ensures room { self.new.trail.room ≡ self.old.trail.room }
        ensures follows { IfOk result (λ yes. (known : List (List ℤ)) → IsReady known self.old → Decides yes (Follows known clause.now)) }
        ensures reasons { OnOk result (IsReasoned self.old → IsReasoned self.new) }
        ensures ready { OnOk result ((known : List (List ℤ)) → IsReady known self.old → IsReady known self.new) }
    {
        if self.refuted {
            return Ok(true);
        }
        let root = self.trail.len();
        let follows = self.attempt(clause)?;
        self.trail.truncate(root);
        Ok(follows)
    }

    /// Makes true a literal that has no value, and what follows, and says whether a clause is false.
    pub fn assume(&mut self, literal: Literal) -> Result<bool, NoMemory>
        requires ready { (known : List (List ℤ)) × (root : List ℤ) × IsAbove known root self.old }
        requires complete { IsComplete self.old }
        requires literal { IsWithin self.old.trail.room literal }
        requires fresh { ¬ Contains self.old.trail.literals literal }
        ensures room { self.new.trail.room ≡ self.old.trail.room }
        ensures reasons { OnOk result (IsReasoned self.old → IsReasoned self.new) }
        ensures above { OnOk result ((known : List (List ℤ)) (root : List ℤ) → IsAbove known root self.old → IsAbove known root self.new) }
        ensures refuted { self.new.refuted ≡ self.old.refuted }
        ensures extends { OnOk result (Extends self.old.trail.literals self.new.trail.literals) }
        ensures watched { OnOk result (StaysWatched self.old self.new) }
        ensures complete { IfOk result (λ fails. fails ≢ true → IsComplete self.new) }
        ensures spreads { IfOk result (λ fails. (known : List (List ℤ)) (root : List ℤ) → IsAbove known root self.old
            → Spreads known (self.old.trail.literals ++ literal ∷ []) self.new.trail.literals fails) }
    {
        let visited = self.trail.len();
        self.trail.push(literal, None)?;
        let fails = self.propagate(visited)?;
        Ok(fails)
    }

    /// Adds a clause all of whose literals but this one are false to the known ones, watched by this one and another literal of it,
    /// makes the literal true, with what follows, and says whether a clause is false.
    pub(crate) fn imply(
        &mut self,
        clause: &Literals,
        literal: Literal,
        other: Literal,
    ) -> Result<bool, NoMemory>
        requires ready { (known : List (List ℤ)) × (root : List ℤ) × IsAbove known root self.old }
        requires complete { IsComplete self.old }
        requires literals { All (IsWithin self.old.trail.room) clause.now }
        requires unit { IsUnit self.old.trail.literals clause.now literal }
        requires other { Contains clause.now other × (other ≢ literal) }
        ensures room { self.new.trail.room ≡ self.old.trail.room }
        ensures reasons { OnOk result (IsReasoned self.old → IsReasoned self.new) }
        ensures implies { IfOk result (λ fails. Implies clause.now other self.old self.new fails) }
    {
        let place = self.clauses.len();
        self.watch(clause, literal, other)?;
        let visited = self.trail.len();
        self.trail.push(literal, Some(place))?;
        let fails = self.propagate(visited)?;
        Ok(fails)
    }

    /// Goes back to the first `count` literals, the root among them.
    pub fn restart(&mut self, count: usize)
        ensures room { self.new.trail.room ≡ self.old.trail.room }
        ensures literals { self.new.trail.literals ≡ take count self.old.trail.literals }
        ensures reasons { IsReasoned self.old → IsReasoned self.new }
        ensures ready { (known : List (List ℤ)) (root : List ℤ) → count ≡ length root → IsAbove known root self.old → IsReady known self.new }
        ensures above { (known : List (List ℤ)) (root : List ℤ) → length root ≤ count → IsAbove known root self.old → IsAbove known root self.new }
        ensures refuted { self.new.refuted ≡ self.old.refuted }
        ensures watched { StaysWatched self.old self.new }
    {
        self.trail.truncate(count);
    }

    /// How many literals are true.
    pub fn len(&self) -> usize
        ensures { result ≡ length self.now.trail.literals }
    {
        self.trail.len()
    }

    /// Whether a known clause is false where nothing is assumed.
    pub fn is_refuted(&self) -> bool
        ensures { result ≡ self.now.refuted }
    {
        self.refuted
    }

    /// Whether the literal is true.
    pub fn holds(&self, literal: Literal) -> bool
        requires { IsWithin self.now.trail.room literal }
        ensures { result ≡ list_any (int_eq literal) self.now.trail.literals }
    {
        self.trail.holds(literal)
    }

    /// Whether the literal and its opposite have numbers for which there is room.
    pub fn is_within(&self, literal: Literal) -> bool
        ensures { Decides result (IsWithin self.now.trail.room literal) }
    {
        literal.code() < self.trail.room() && literal.opposite().code() < self.trail.room()
    }

    /// The literal at this place of the trail.
    pub fn literal(&self, place: usize) -> Option<Literal>
        ensures { result ≡ slice_get self.now.trail.literals place }
    {
        if place < self.trail.len() {
            Some(self.trail.get(place))
        } else {
            None
        }
    }

    /// Where the literal stands on the trail, if it is true.
    pub fn place_of(&self, literal: Literal) -> Option<usize>
        ensures stands { IfSome result (λ place. slice_get self.now.trail.literals place ≡ Some literal) }
        ensures first { IfSome result (λ place. list_any (int_eq literal) (take place self.now.trail.literals) ≡ false) }
    {
        self.trail.place_of(literal)
    }

    /// The clause that made the literal at this place of the trail true, or no literals.
    pub fn reason(&self, place: usize) -> &[Literal]
        ensures { result.now ≡ clause_at self.now.clauses.items (slice_index_or self.now.trail.reasons place None) }
    {
        self.literals_at(self.trail.reason_at(place))
    }

    /// The clause that became false last, or no literals.
    pub fn conflict(&self) -> &[Literal]
        ensures { result.now ≡ clause_at self.now.clauses.items self.now.conflict }
    {
        self.literals_at(self.conflict)
    }

    fn literals_at(&self, place: Option<usize>) -> &[Literal]
        ensures { result.now ≡ clause_at self.now.clauses.items place }
    {
        match place {
            Some(place) if place < self.clauses.len() => self.clauses[place].as_slice(),
            _ => &[],
        }
    }
}
