//! Literals that are true, in the order in which they were made true.
ghost use Rattle.std.specs.Prelude.{◌≡◌, ◌<◌, ◌≤◌, ◌-◌, ◌++◌, ◌∷◌, [], None, Some, false, slice_get, IfSome, pos, neg_ℤ, length, take, slice_index_or, IfOk, OnOk};
ghost use Rattle.std.specs.List.{list_any};
ghost use Rattle.std.specs.Ordering.{int_eq};
ghost use Rattle.watched_literals.specs.Literals.{IsWithin};

use crate::literal::Literal;
use std::alloc::Global;
use std::marker::Model;
use word_kit::NoMemory;

/// Notes where the literal stands.
fn note(places: &mut [usize], literal: Literal, place: usize) {
    if let Some(noted) = places.get_mut(literal.code()) {
        *noted = place;
    }
}

/// True literals, which ones they are by their numbers, and where they stand. Contracts see how many numbers there are, the
/// literals and their reasons.
#[derive(Drop)]
pub struct Trail {
    literals: Vec<Literal>,
    reasons: Vec<Option<usize>>,
    truth: Vec<bool>,
    places: Vec<usize>,
}

impl Model for Trail {
    ghost use Rattle.std.specs.Prelude.{length};
    ghost use Rattle.watched_literals.specs.Literals.{Assigned, IsTruth};

    ghost Value = { Assigned };

    ghost view = { λ t. record { room = length t.truth.items; literals = t.literals.items; reasons = t.reasons.items } };

    ghost invariant = { λ t. IsTruth t.truth.items t.literals.items };
}

impl Trail {
    /// Nothing is true.
    pub fn new(alloc: Global, room: usize) -> Result<Trail, NoMemory>
        ensures room { IfOk result (λ t. t.room ≡ room) }
        ensures literals { IfOk result (λ t. t.literals ≡ []) }
        ensures reasons { IfOk result (λ t. t.reasons ≡ []) }
    {
        let truth = vec![in alloc; false; room]?;
        let places = vec![in alloc; 0usize; room]?;
        Ok(Trail {
            literals: Vec::new(alloc),
            reasons: Vec::new(alloc),
            truth,
            places,
        })
    }

    /// How many numbers there are.
    pub fn room(&self) -> usize
        ensures { result ≡ self.now.room }
    {
        self.truth.len()
    }

    pub fn len(&self) -> usize
        ensures { result ≡ length self.now.literals }
    {
        self.literals.len()
    }

    pub fn get(&self, place: usize) -> Literal
        requires { place < length self.now.literals }
        ensures literal { result ≡ slice_index_or self.now.literals place (pos 0) }
        ensures within { IsWithin self.now.room result }
    {
        self.literals[place]
    }

    pub fn holds(&self, literal: Literal) -> bool
        requires { IsWithin self.now.room literal }
        ensures { result ≡ list_any (int_eq literal) self.now.literals }
    {
        self.truth[literal.code()]
    }

    /// Where the literal stands, if it is true.
    pub fn place_of(&self, literal: Literal) -> Option<usize>
        ensures stands { IfSome result (λ place. slice_get self.now.literals place ≡ Some literal) }
        ensures first { IfSome result (λ place. list_any (int_eq literal) (take place self.now.literals) ≡ false) }
    {
        let place = *self.places.get(literal.code())?;
        if *self.literals.get(place)? == literal {
            Some(place)
        } else {
            None
        }
    }

    /// The clause that made the literal at this place true.
    pub fn reason_at(&self, place: usize) -> Option<usize>
        ensures { result ≡ slice_index_or self.now.reasons place None }
    {
        *self.reasons.get(place)?
    }

    pub fn push(&mut self, literal: Literal, reason: Option<usize>) -> Result<(), NoMemory>
        requires within { IsWithin self.old.room literal }
        requires fresh { list_any (int_eq literal) self.old.literals ≡ false }
        ensures room { self.new.room ≡ self.old.room }
        ensures literals { OnOk result (self.new.literals ≡ self.old.literals ++ literal ∷ []) }
        ensures reasons { OnOk result (self.new.reasons ≡ self.old.reasons ++ reason ∷ []) }
    {
        note(&mut self.places, literal, self.literals.len());
        self.reasons.push(reason)?;
        self.literals.push(literal)?;
        self.truth[literal.code()] = true;
        Ok(())
    }

    fn pop(&mut self)
        ensures room { self.new.room ≡ self.old.room }
        ensures literals { self.new.literals ≡ take (length self.old.literals - 1) self.old.literals }
        ensures reasons { self.new.reasons ≡ self.old.reasons }
    {
        if let Some(literal) = self.literals.pop() {
            self.truth[literal.code()] = false;
        }
    }

    /// Keeps the first `count` literals.
    pub fn truncate(&mut self, count: usize)
        ensures room { self.new.room ≡ self.old.room }
        ensures literals { self.new.literals ≡ take count self.old.literals }
        ensures reasons { self.new.reasons ≡ take count self.old.reasons }
    {
        for _more in count..self.len() {
            self.pop();
        }
        self.reasons.truncate(count);
    }
}
