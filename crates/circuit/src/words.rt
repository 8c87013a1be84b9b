//! Words made of gates, bit by bit.

ghost use Rattle.std.specs.Prelude.{◌≡◌, ◌≤◌, ◌<◌, ◌+◌, ◌*◌, ◌^◌, ℕ, Bool, IfOk, OnOk, eqb, length};
ghost use Rattle.word_kit.specs.Prelude.{one_if, bit_of};
ghost use Rattle.circuit.specs.Literals.{lit_truth, lit_reach, word_value, word_reach_below};
ghost use Rattle.circuit.specs.Sharing.{IsApart};
ghost use Rattle.circuit.specs.Nodes.{AllAgree, free_value, free_reach};
ghost use Rattle.circuit.specs.Frame.{IsLater, MayUntie};
ghost use Rattle.circuit.specs.WordsMade.{at, gate_made, bitwise_made, free_made, sum_made, equal_made};
ghost use Rattle.circuit.specs.BitGates.{gate_truth, gate_reach};

use crate::gates::Gates;
use crate::literals::Lit;
use crate::nodes::{FreeWord, Node};
use crate::wiring::blank;
use word_kit::NoMemory;

/// A gate that goes bit by bit: and, or, exclusive or, or the first word's bit where a literal is true.
#[derive(Clone, Copy)]
pub enum BitGate {
    Both,
    Either,
    Differ,
    Choice(Lit),
}

impl Gates {
    /// One bit.
    fn gate(&mut self, op: BitGate, x: Lit, y: Lit) -> Result<Lit, NoMemory>
        requires op_owned { gate_reach op ≤ length self.old.nodes.keys }
        requires x_owned { lit_reach x ≤ length self.old.nodes.keys }
        requires y_owned { lit_reach y ≤ length self.old.nodes.keys }
        ensures later { IsLater self.old.nodes.keys self.new.nodes.keys }
        ensures owned { IfOk result (λ r. lit_reach r ≤ length self.new.nodes.keys) }
        ensures means { IfOk result (λ r. (v : ℕ → Bool) → AllAgree self.new.nodes.keys v → lit_truth r v ≡ gate_truth op v (lit_truth x v) (lit_truth y v)) }
        ensures made { IfOk result (λ r. r ≡ (gate_made ⟦<Node as PartialEq>⟧.eq op self.old.nodes.keys x y).flag) }
        ensures held { OnOk result (self.new.nodes.keys ≡ (gate_made ⟦<Node as PartialEq>⟧.eq op self.old.nodes.keys x y).held) }
    {
        match op {
            BitGate::Both => self.and_gate(x, y),
            BitGate::Either => self.or_gate(x, y),
            BitGate::Differ => self.xor_gate(x, y),
            BitGate::Choice(s) => self.choice(s, x, y),
        }
    }

    /// Two words, bit by bit.
    pub fn bitwise(
        &mut self,
        op: BitGate,
        x: [Lit; 32],
        y: [Lit; 32],
    ) -> Result<[Lit; 32], NoMemory>
        requires op_owned { gate_reach op ≤ length self.old.nodes.keys }
        requires x_owned { word_reach_below 32 x ≤ length self.old.nodes.keys }
        requires y_owned { word_reach_below 32 y ≤ length self.old.nodes.keys }
        ensures later { IsLater self.old.nodes.keys self.new.nodes.keys }
        ensures owned { IfOk result (λ r. word_reach_below 32 r ≤ length self.new.nodes.keys) }
        ensures means { IfOk result (λ r. (v : ℕ → Bool) → AllAgree self.new.nodes.keys v → (k : ℕ) → k < 32 → lit_truth (at r k) v ≡ gate_truth op v (lit_truth (at x k) v) (lit_truth (at y k) v)) }
        ensures made { IfOk result (λ r. r ≡ (bitwise_made ⟦<Node as PartialEq>⟧.eq op self.old.nodes.keys x y).word) }
        ensures held { OnOk result (self.new.nodes.keys ≡ (bitwise_made ⟦<Node as PartialEq>⟧.eq op self.old.nodes.keys x y).held) }
    {
        let mut out = x;
        for i in 0..32 {
            let bit = self.gate(op, x[i], y[i])?;
            out[i] = bit;
        }
        Ok(out)
    }

    /// A word that no gate ties.
    pub fn free_word(&mut self, word: FreeWord) -> Result<[Lit; 32], NoMemory>
        requires owned { free_reach word ≤ length self.old.nodes.keys }
        requires apart { IsApart self.old.nodes.keys (Node.Free word 0) }
        ensures later { MayUntie self.old.nodes.keys self.new.nodes.keys }
        ensures owned { IfOk result (λ r. word_reach_below 32 r ≤ length self.new.nodes.keys) }
        ensures means { IfOk result (λ r. (v : ℕ → Bool) → AllAgree self.new.nodes.keys v → (k : ℕ) → k < 32 → lit_truth (at r k) v ≡ bit_of (free_value word v) k) }
        ensures made { IfOk result (λ r. r ≡ (free_made ⟦<Node as PartialEq>⟧.eq self.old.nodes.keys word).word) }
        ensures held { OnOk result (self.new.nodes.keys ≡ (free_made ⟦<Node as PartialEq>⟧.eq self.old.nodes.keys word).held) }
    {
        let mut out = blank();
        for i in 0..32 {
            let bit = self.variable(Node::Free(word, i as u8))?;
            out[i] = bit;
        }
        Ok(out)
    }

    /// The sum of two words and a carry, and the carry out of it.
    pub fn sum(
        &mut self,
        x: [Lit; 32],
        y: [Lit; 32],
        carry: Lit,
    ) -> Result<([Lit; 32], Lit), NoMemory>
        requires x_owned { word_reach_below 32 x ≤ length self.old.nodes.keys }
        requires y_owned { word_reach_below 32 y ≤ length self.old.nodes.keys }
        requires carry_owned { lit_reach carry ≤ length self.old.nodes.keys }
        ensures later { IsLater self.old.nodes.keys self.new.nodes.keys }
        ensures sum_owned { IfOk result (λ r. word_reach_below 32 r.0 ≤ length self.new.nodes.keys) }
        ensures carry_owned { IfOk result (λ r. lit_reach r.1 ≤ length self.new.nodes.keys) }
        ensures means { IfOk result (λ r. (v : ℕ → Bool) → AllAgree self.new.nodes.keys v → word_value 32 r.0 v + one_if (lit_truth r.1 v) * 2 ^ 32 ≡ word_value 32 x v + word_value 32 y v + one_if (lit_truth carry v)) }
        ensures made { IfOk result (λ r. r.0 ≡ (sum_made ⟦<Node as PartialEq>⟧.eq 32 self.old.nodes.keys x y carry).word) }
        ensures made_carry { IfOk result (λ r. r.1 ≡ (sum_made ⟦<Node as PartialEq>⟧.eq 32 self.old.nodes.keys x y carry).carry) }
        ensures held { OnOk result (self.new.nodes.keys ≡ (sum_made ⟦<Node as PartialEq>⟧.eq 32 self.old.nodes.keys x y carry).held) }
    {
        let mut out = x;
        let mut over = carry;
        for i in 0..32 {
            let (bit, next) = self.full_sum(x[i], y[i], over)?;
            out[i] = bit;
            over = next;
        }
        Ok((out, over))
    }

    /// Whether two words are equal.
    pub fn equality(&mut self, x: [Lit; 32], y: [Lit; 32]) -> Result<Lit, NoMemory>
        requires x_owned { word_reach_below 32 x ≤ length self.old.nodes.keys }
        requires y_owned { word_reach_below 32 y ≤ length self.old.nodes.keys }
        ensures later { IsLater self.old.nodes.keys self.new.nodes.keys }
        ensures owned { IfOk result (λ r. lit_reach r ≤ length self.new.nodes.keys) }
        ensures means { IfOk result (λ r. (v : ℕ → Bool) → AllAgree self.new.nodes.keys v → lit_truth r v ≡ eqb (word_value 32 x v) (word_value 32 y v)) }
        ensures made { IfOk result (λ r. r ≡ (equal_made ⟦<Node as PartialEq>⟧.eq 32 self.old.nodes.keys x y).flag) }
        ensures held { OnOk result (self.new.nodes.keys ≡ (equal_made ⟦<Node as PartialEq>⟧.eq 32 self.old.nodes.keys x y).held) }
    {
        let mut alike = Lit::Const(true);
        for i in 0..32 {
            let next = self.link(alike, x[i], y[i])?;
            alike = next;
        }
        Ok(alike)
    }
}
