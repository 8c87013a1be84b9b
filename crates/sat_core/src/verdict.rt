//! What the solver says of a formula.
ghost use Rattle.std.specs.Prelude.{◌≡◌};

use std::marker::Model;
use word_kit::Refutation;

/// A value for each variable of a formula, by number: the first is that of variable 1. Contracts see the list of them.
#[derive(Drop)]
pub struct Values {
    items: Vec<bool>,
}

impl Model for Values {
    ghost use Rattle.std.specs.Prelude.{List, Bool};

    ghost Value = { List Bool };

    ghost view = { λ v. v.items.items };
}

impl From<Vec<bool>> for Values {
    ghost from_gives = { λ vec values. values ≡ vec.items };

    /// Takes no memory.
    fn from(items: Vec<bool>) -> Values {
        Values { items }
    }
}

impl Values {
    pub fn as_slice(&self) -> &[bool]
        ensures { result.now ≡ self.now }
    {
        self.items.as_slice()
    }

    /// Takes no memory.
    pub fn into_vec(self) -> Vec<bool>
        ensures { result.items ≡ self }
    {
        self.items
    }
}

/// What the solver says of a formula.
#[derive(Drop)]
pub enum Verdict {
    /// Values that satisfy the formula.
    Model(Values),
    /// A refutation of the formula.
    Refuted(Refutation),
    /// As many learned clauses as were allowed, with no answer.
    Spent(Refutation),
}
