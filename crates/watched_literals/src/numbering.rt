//! Variables numbered in the order in which they are met.
ghost use Rattle.std.specs.Prelude.{◌≡◌, ◌+◌, ◌*◌, [], List, ℤ, map, IfOk, OnOk};
ghost use Rattle.std.specs.List.{All};
ghost use Rattle.word_kit.specs.Prelude.{IsLiteral, AreClauses};
ghost use Rattle.watched_literals.specs.Literals.{IsWithin};
ghost use Rattle.watched_literals.specs.Numbers.{AreNames, IsNumbered, behind, Grown};

use crate::clauses::Literals;
use crate::literal::Literal;
use indexmap::IndexSet;
use std::alloc::Global;
use word_kit::{Clause, NoMemory};

/// The place of the last variable whose number a literal can name.
const LAST: usize = 0x7FFF_FFFE;

/// The variables that have numbers, from 1 on.
#[derive(Drop)]
pub struct Numbering {
    pub variables: IndexSet<u32>,
}

impl Numbering {
    /// No variable has a number.
    pub fn new(alloc: Global) -> Numbering
        ensures { result.variables.keys ≡ [] }
    {
        Numbering {
            variables: IndexSet::new(alloc),
        }
    }

    /// The literal with its variable's number in place of the variable, which gets the next number if it has none.
    fn number(&mut self, literal: i32) -> Result<Literal, NoMemory>
        requires literal { IsLiteral literal }
        requires names { AreNames self.old.variables.keys }
        ensures grown { OnOk result (Grown self.old.variables.keys self.new.variables.keys) }
        ensures numbered { IfOk result (λ number. IsNumbered self.new.variables.keys number) }
        ensures behind { IfOk result (λ number. behind self.new.variables.keys number ≡ literal) }
    {
        let (place, _is_new) = self.variables.insert_full(literal.unsigned_abs())?;
        if place > LAST {
            return Err(NoMemory);
        }
        let number = Literal::of_variable((place + 1) as u32);
        if literal < 0 {
            Ok(number.opposite())
        } else {
            Ok(number)
        }
    }

    /// The clause with numbers in place of its variables.
    ///
    /// # Errors
    /// `NoMemory` where memory ran out, or where 2^31 - 1 variables have numbers already.
    pub fn renumber(&mut self, alloc: Global, clause: &[i32]) -> Result<Literals, NoMemory>
        requires literals { All IsLiteral clause.now }
        requires names { AreNames self.old.variables.keys }
        ensures grown { OnOk result (Grown self.old.variables.keys self.new.variables.keys) }
        ensures numbered { IfOk result (All (IsNumbered self.new.variables.keys)) }
        ensures behind { IfOk result (λ numbers. map (behind self.new.variables.keys) numbers ≡ clause.now) }
    {
        let mut numbers = Vec::new(alloc);
        for literal in clause {
            numbers.push(self.number(*literal)?)?;
        }
        Literals::new(numbers)
    }

    /// The clauses with numbers in place of their variables.
    ///
    /// # Errors
    /// `NoMemory` where memory ran out, or where 2^31 - 1 variables have numbers already.
    pub fn renumber_all(
        &mut self,
        alloc: Global,
        clauses: &[Clause],
    ) -> Result<Vec<Literals>, NoMemory>
        requires literals { AreClauses clauses.now }
        requires names { AreNames self.old.variables.keys }
        ensures grown { OnOk result (Grown self.old.variables.keys self.new.variables.keys) }
        ensures numbered { IfOk result (λ items. All (λ clause. All (IsNumbered self.new.variables.keys) clause) items.items) }
        ensures behind { IfOk result (λ items. map (map (behind self.new.variables.keys)) items.items ≡ clauses.now) }
    {
        let mut items = Vec::new(alloc);
        for clause in clauses {
            items.push(self.renumber(alloc, clause.as_slice())?)?;
        }
        Ok(items)
    }

    /// Literals of numbered variables have numbers below this one.
    pub fn room(&self) -> usize
        ensures { (number : ℤ) → IsNumbered self.now.variables.keys number → IsWithin result number }
    {
        2 * self.variables.len().min(LAST + 1) + 2
    }
}
