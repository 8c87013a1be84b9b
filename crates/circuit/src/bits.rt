//! What is made of a few literals: or, choice, sum, equality.

ghost use Rattle.std.specs.Prelude.{◌≡◌, ◌≤◌, ◌+◌, ◌*◌, ℕ, Bool, IfOk, OnOk, ◌&&◌, ◌||◌, cond, length};
ghost use Rattle.word_kit.specs.Prelude.{same, one_if};
ghost use Rattle.circuit.specs.Literals.{lit_truth, lit_reach};
ghost use Rattle.circuit.specs.Nodes.{AllAgree};
ghost use Rattle.circuit.specs.Frame.{IsLater};
ghost use Rattle.circuit.specs.Made.{or_made, choice_made, full_made, link_made};

use crate::gates::Gates;
use crate::literals::Lit;
use crate::nodes::Node;
use word_kit::NoMemory;

impl Gates {
    /// Or is And with signs.
    #[tactic(auto, unfolding(crate::specs::Made::or_made))]
    pub fn or_gate(&mut self, b: Lit, c: Lit) -> Result<Lit, NoMemory>
        requires b_owned { lit_reach b ≤ length self.old.nodes.keys }
        requires c_owned { lit_reach c ≤ length self.old.nodes.keys }
        ensures later { IsLater self.old.nodes.keys self.new.nodes.keys }
        ensures means { IfOk result (λ r. (v : ℕ → Bool) → AllAgree self.new.nodes.keys v → lit_truth r v ≡ lit_truth b v || lit_truth c v) }
        ensures owned { IfOk result (λ r. lit_reach r ≤ length self.new.nodes.keys) }
        ensures made { IfOk result (λ r. r ≡ (or_made ⟦<Node as PartialEq>⟧.eq self.old.nodes.keys b c).flag) }
        ensures held { OnOk result (self.new.nodes.keys ≡ (or_made ⟦<Node as PartialEq>⟧.eq self.old.nodes.keys b c).held) }
    {
        let neither = self.and_gate(b.flip(), c.flip())?;
        Ok(neither.flip())
    }

    /// `x` where `s` is true, else `y`.
    #[tactic(auto, unfolding(crate::specs::Made::choice_made))]
    pub fn choice(&mut self, s: Lit, x: Lit, y: Lit) -> Result<Lit, NoMemory>
        requires s_owned { lit_reach s ≤ length self.old.nodes.keys }
        requires x_owned { lit_reach x ≤ length self.old.nodes.keys }
        requires y_owned { lit_reach y ≤ length self.old.nodes.keys }
        ensures later { IsLater self.old.nodes.keys self.new.nodes.keys }
        ensures means { IfOk result (λ r. (v : ℕ → Bool) → AllAgree self.new.nodes.keys v → lit_truth r v ≡ cond (lit_truth s v) (lit_truth x v) (lit_truth y v)) }
        ensures owned { IfOk result (λ r. lit_reach r ≤ length self.new.nodes.keys) }
        ensures made { IfOk result (λ r. r ≡ (choice_made ⟦<Node as PartialEq>⟧.eq self.old.nodes.keys s x y).flag) }
        ensures held { OnOk result (self.new.nodes.keys ≡ (choice_made ⟦<Node as PartialEq>⟧.eq self.old.nodes.keys s x y).held) }
    {
        if x.is(y) {
            return Ok(x);
        }
        let first = self.and_gate(s, x)?;
        let second = self.and_gate(s.flip(), y)?;
        self.or_gate(first, second)
    }

    /// The sum of three bits, and its carry.
    #[tactic(auto, unfolding(crate::specs::Made::full_made))]
    pub fn full_sum(&mut self, x: Lit, y: Lit, c: Lit) -> Result<(Lit, Lit), NoMemory>
        requires x_owned { lit_reach x ≤ length self.old.nodes.keys }
        requires y_owned { lit_reach y ≤ length self.old.nodes.keys }
        requires c_owned { lit_reach c ≤ length self.old.nodes.keys }
        ensures later { IsLater self.old.nodes.keys self.new.nodes.keys }
        ensures sum_owned { IfOk result (λ r. lit_reach r.0 ≤ length self.new.nodes.keys) }
        ensures carry_owned { IfOk result (λ r. lit_reach r.1 ≤ length self.new.nodes.keys) }
        ensures means { IfOk result (λ r. (v : ℕ → Bool) → AllAgree self.new.nodes.keys v → one_if (lit_truth r.0 v) + 2 * one_if (lit_truth r.1 v) ≡ one_if (lit_truth x v) + one_if (lit_truth y v) + one_if (lit_truth c v)) }
        ensures made_sum { IfOk result (λ r. r.0 ≡ (full_made ⟦<Node as PartialEq>⟧.eq self.old.nodes.keys x y c).word) }
        ensures made_carry { IfOk result (λ r. r.1 ≡ (full_made ⟦<Node as PartialEq>⟧.eq self.old.nodes.keys x y c).carry) }
        ensures held { OnOk result (self.new.nodes.keys ≡ (full_made ⟦<Node as PartialEq>⟧.eq self.old.nodes.keys x y c).held) }
    {
        let differs = self.xor_gate(x, y)?;
        let sum = self.xor_gate(differs, c)?;
        let made = self.and_gate(x, y)?;
        let passed = self.and_gate(c, differs)?;
        let carry = self.or_gate(made, passed)?;
        Ok((sum, carry))
    }

    /// Whether `n` is true and two bits are equal.
    #[tactic(auto, unfolding(crate::specs::Made::link_made))]
    pub fn link(&mut self, n: Lit, x: Lit, y: Lit) -> Result<Lit, NoMemory>
        requires n_owned { lit_reach n ≤ length self.old.nodes.keys }
        requires x_owned { lit_reach x ≤ length self.old.nodes.keys }
        requires y_owned { lit_reach y ≤ length self.old.nodes.keys }
        ensures later { IsLater self.old.nodes.keys self.new.nodes.keys }
        ensures means { IfOk result (λ r. (v : ℕ → Bool) → AllAgree self.new.nodes.keys v → lit_truth r v ≡ lit_truth n v && same (lit_truth x v) (lit_truth y v)) }
        ensures owned { IfOk result (λ r. lit_reach r ≤ length self.new.nodes.keys) }
        ensures made { IfOk result (λ r. r ≡ (link_made ⟦<Node as PartialEq>⟧.eq self.old.nodes.keys n x y).flag) }
        ensures held { OnOk result (self.new.nodes.keys ≡ (link_made ⟦<Node as PartialEq>⟧.eq self.old.nodes.keys n x y).held) }
    {
        let differs = self.xor_gate(x, y)?;
        self.and_gate(n, differs.flip())
    }
}
