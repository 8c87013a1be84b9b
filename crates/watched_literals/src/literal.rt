//! Literals.
ghost use Rattle.std.specs.Prelude.{◌≡◌, ◌<◌, ◌^◌, pos, neg_ℤ};
ghost use Rattle.word_kit.specs.Prelude.{IsLiteral, variable};
ghost use Rattle.watched_literals.specs.Literals.{code};

use std::marker::Model;

/// A variable, or the negation of one. Contracts see the number of the variable, with a minus where it is negated.
#[derive(Clone, Copy, PartialEq)]
pub struct Literal {
    number: i32,
}

impl Model for Literal {
    ghost use Rattle.std.specs.Prelude.{ℤ};
    ghost use Rattle.word_kit.specs.Formulas.{IsLiteral};

    ghost Value = { ℤ };

    ghost view = { λ l. l.number };

    ghost invariant = { λ l. IsLiteral l.number };

    ghost inverse = { λ number. record { number = number } };
}

impl Literal {
    /// The literal that a formula writes as this number.
    pub fn new(number: i32) -> Literal
        requires { IsLiteral number }
        ensures { result ≡ number }
    {
        Literal { number }
    }

    /// The literal that is true where the variable is.
    pub fn of_variable(variable: u32) -> Literal
        requires above { 0 < variable }
        requires below { variable < 2 ^ 31 }
        ensures { result ≡ pos variable }
    {
        Literal {
            number: variable as i32,
        }
    }

    /// The number that a formula writes for the literal.
    pub fn number(self) -> i32
        ensures { result ≡ self }
    {
        self.number
    }

    pub fn variable(self) -> u32
        ensures { result ≡ variable self }
    {
        self.number.unsigned_abs()
    }

    /// The literal that is true where this one is false.
    pub fn opposite(self) -> Literal
        ensures { result ≡ neg_ℤ self }
    {
        Literal {
            number: -self.number,
        }
    }

    /// The number of a literal, by which arrays are indexed: twice its variable, and one more where it is negated.
    pub fn code(self) -> usize
        ensures literal { IsLiteral self }
        ensures code { result ≡ code self }
    {
        if self.number < 0 {
            2 * (-self.number) as usize + 1
        } else {
            2 * self.number as usize
        }
    }
}
