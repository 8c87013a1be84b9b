//! Literals.

ghost use Rattle.std.specs.Prelude.{◌≡◌, ◌<◌, ◌^◌, ◌+◌, ℕ, Bool, not, pos};
ghost use Rattle.word_kit.specs.Prelude.{same};
ghost use Rattle.circuit.specs.Literals.{lit_truth, lit_reach, is_true, signed_variable};
ghost use Rattle.circuit.specs.Made.{opposite, turned, same_lit};

/// A constant, or the number of a variable with a minus where it is negated.
#[derive(Clone, Copy, PartialEq, Eq, Hash, Debug)]
pub enum Lit {
    Const(bool),
    Var(i32),
}

impl Lit {
    /// The other truth.
    #[tactic(auto, unfolding(crate::specs::Made::opposite))]
    pub fn flip(self) -> Lit
        requires { lit_reach self < 2 ^ 31 }
        ensures owned { lit_reach result ≡ lit_reach self }
        ensures means { (v : ℕ → Bool) → lit_truth result v ≡ not (lit_truth self v) }
        ensures made { result ≡ opposite self }
    {
        match self {
            Lit::Const(b) => Lit::Const(!b),
            Lit::Var(x) => Lit::Var(-x),
        }
    }

    /// The other truth where `minus` is true.
    #[tactic(auto, unfolding(crate::specs::Made::turned))]
    pub fn turned(self, minus: bool) -> Lit
        requires { lit_reach self < 2 ^ 31 }
        ensures owned { lit_reach result ≡ lit_reach self }
        ensures means { (v : ℕ → Bool) → lit_truth result v ≡ not (same (lit_truth self v) minus) }
        ensures made { result ≡ turned self minus }
    {
        if minus { self.flip() } else { self }
    }

    /// Whether it is the constant that is true.
    pub fn is_true(self) -> bool
        ensures { result ≡ is_true self }
    {
        match self {
            Lit::Const(b) => b,
            Lit::Var(_) => false,
        }
    }

    /// The variable with its sign, where it is no constant.
    pub fn signed_variable(self) -> Option<i32>
        ensures { result ≡ signed_variable self }
    {
        match self {
            Lit::Const(_) => None,
            Lit::Var(x) => Some(x),
        }
    }

    /// Whether it is the same literal.
    pub fn is(self, other: Lit) -> bool
        ensures { result ≡ same_lit self other }
    {
        match (self, other) {
            (Lit::Const(a), Lit::Const(b)) => a == b,
            (Lit::Var(x), Lit::Var(y)) => x == y,
            _ => false,
        }
    }
}

/// The literal of the variable that a node at this index has.
pub fn literal_at(index: usize) -> Lit
    requires { index + 1 < 2 ^ 31 }
    ensures { result ≡ Lit.Var (pos (index + 1)) }
{
    Lit::Var(index as i32 + 1)
}
