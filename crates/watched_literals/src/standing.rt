//! How a clause stands where some literals are true.
ghost use Rattle.std.specs.Prelude.{◌≡◌};
ghost use Rattle.std.specs.List.{All};
ghost use Rattle.watched_literals.specs.Literals.{IsWithin};
ghost use Rattle.watched_literals.specs.Propagators.{Stands};

use crate::literal::Literal;
use crate::trail::Trail;

/// How a clause stands.
#[derive(Clone, Copy)]
pub enum Standing {
    /// One of its literals is true.
    True,
    /// None is true, and these two aren't false.
    Open(Literal, Literal),
    /// All its literals but this one are false.
    Unit(Literal),
    /// All its literals are false.
    False,
}

/// How the clause stands where the literals of the trail are true.
pub fn standing_of(clause: &[Literal], trail: &Trail) -> Standing
    requires { All (IsWithin trail.now.room) clause.now }
    ensures { Stands trail.now.literals clause.now result }
{
    let mut left = None;
    for literal in clause {
        if trail.holds(*literal) {
            return Standing::True;
        }
        if !trail.holds(literal.opposite()) {
            match left {
                None => {
                    left = Some(*literal);
                }
                Some(other) => {
                    if other != *literal {
                        return Standing::Open(other, *literal);
                    }
                }
            }
        }
    }
    match left {
        Some(literal) => Standing::Unit(literal),
        None => Standing::False,
    }
}
