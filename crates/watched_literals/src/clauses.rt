//! Clauses of literals, and the written ones that they stand for.
ghost use Rattle.std.specs.Prelude.{◌≡◌, IfOk};
ghost use Rattle.std.specs.List.{All};
ghost use Rattle.word_kit.specs.Prelude.{IsLiteral, AreClauses};

use crate::literal::Literal;
use std::alloc::Global;
use std::marker::Model;
use std::rc::RcSlice;
use word_kit::{Clause, NoMemory};

/// The literals of a clause, which stand once, however many hold them. Contracts see the list of them.
#[derive(Drop)]
pub struct Literals {
    items: RcSlice<Literal>,
}

impl Model for Literals {
    ghost use Rattle.std.specs.Prelude.{List, ℤ};
    ghost use Rattle.std.specs.Rc.{rc_slice_items};

    ghost Value = { List ℤ };

    ghost view = { λ l. rc_slice_items l.items };
}

impl Literals {
    pub fn new(items: Vec<Literal>) -> Result<Literals, NoMemory>
        ensures { IfOk result (λ literals. literals ≡ items.items) }
    {
        let items = RcSlice::from_vec(items)?;
        Ok(Literals { items })
    }

    /// The same literals for another holder.
    pub fn share(&self) -> Result<Literals, NoMemory>
        ensures { IfOk result (λ literals. literals ≡ self.now) }
    {
        let items = self.items.clone()?;
        Ok(Literals { items })
    }

    pub fn as_slice(&self) -> &[Literal]
        ensures { result.now ≡ self.now }
    {
        self.items.as_slice()
    }
}

/// The literals of a written clause.
fn literals_of(alloc: Global, clause: &[i32]) -> Result<Literals, NoMemory>
    requires { All IsLiteral clause.now }
    ensures { IfOk result (λ literals. literals ≡ clause.now) }
{
    let mut literals = Vec::new(alloc);
    for number in clause {
        literals.push(Literal::new(*number))?;
    }
    Literals::new(literals)
}

/// The literals of each written clause.
pub fn literals_of_all(alloc: Global, clauses: &[Clause]) -> Result<Vec<Literals>, NoMemory>
    requires { AreClauses clauses.now }
    ensures { IfOk result (λ items. items.items ≡ clauses.now) }
{
    let mut items = Vec::new(alloc);
    for clause in clauses {
        items.push(literals_of(alloc, clause.as_slice())?)?;
    }
    Ok(items)
}

/// The clause of these literals, as a formula writes it.
pub fn written(alloc: Global, literals: &[Literal]) -> Result<Clause, NoMemory>
    ensures { IfOk result (λ clause. clause ≡ literals.now) }
{
    let mut numbers = Vec::new(alloc);
    for literal in literals {
        numbers.push(literal.number())?;
    }
    Ok(Clause::from(numbers))
}
