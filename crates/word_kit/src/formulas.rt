//! Formulas and refutations: lists of clauses of literals.

ghost use Rattle.std.specs.Prelude.{◌≡◌};

use std::marker::Model;

/// The literals of a clause, which is true where one of them is. A literal is the number of a variable, with a minus
/// where it is negated. Contracts see the list of them.
#[derive(Drop)]
pub struct Clause {
    literals: Vec<i32>,
}

impl Model for Clause {
    ghost use Rattle.std.specs.Prelude.{List, ℤ};

    ghost Value = { List ℤ };

    ghost view = { λ c. c.literals.items };
}

impl From<Vec<i32>> for Clause {
    ghost from_gives = { λ vec clause. clause ≡ vec.items };

    /// Takes no memory.
    fn from(literals: Vec<i32>) -> Clause {
        Clause { literals }
    }
}

impl Clause {
    pub fn as_slice(&self) -> &[i32]
        ensures { result.now ≡ self.now }
    {
        self.literals.as_slice()
    }

    /// Takes no memory.
    pub fn into_vec(self) -> Vec<i32>
        ensures { result.items ≡ self }
    {
        self.literals
    }
}

/// Clauses in order. Contracts see the list of them, each a list of literals.
#[derive(Drop)]
pub struct Clauses {
    items: Vec<Clause>,
}

impl Model for Clauses {
    ghost use Rattle.std.specs.Prelude.{List, ℤ};

    ghost Value = { List (List ℤ) };

    ghost view = { λ c. c.items.items };
}

impl From<Vec<Clause>> for Clauses {
    ghost from_gives = { λ vec clauses. clauses ≡ vec.items };

    /// Takes no memory.
    fn from(items: Vec<Clause>) -> Clauses {
        Clauses { items }
    }
}

impl Clauses {
    pub fn as_slice(&self) -> &[Clause]
        ensures { result.now ≡ self.now }
    {
        self.items.as_slice()
    }

    /// Takes no memory.
    pub fn into_vec(self) -> Vec<Clause>
        ensures { result.items ≡ self }
    {
        self.items
    }
}

/// Clauses that are to hold at once, over the variables from 1 to `variables`.
#[derive(Drop)]
pub struct Formula {
    pub variables: u32,
    pub clauses: Clauses,
}

/// The steps of a refutation: clauses each of which is to follow from a formula and the earlier steps.
#[derive(Drop)]
pub struct Refutation {
    pub clauses: Clauses,
}
