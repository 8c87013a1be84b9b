//! Shifts, orders, products and divisions of words.

ghost use Rattle.std.specs.Prelude.{false, ◌≡◌, ◌≤◌, ◌<◌, ◌^◌, ℕ, Bool, IfOk, OnOk, cond, length};
ghost use Rattle.word_kit.specs.Prelude.{is_less, product_low, product_high};
ghost use Rattle.circuit.specs.Literals.{lit_truth, lit_reach, word_value, word_reach_below};
ghost use Rattle.circuit.specs.Turns.{turned_word};
ghost use Rattle.circuit.specs.Sharing.{IsApart};
ghost use Rattle.circuit.specs.Nodes.{AllAgree, free_value, free_reach};
ghost use Rattle.circuit.specs.Frame.{IsLater};
ghost use Rattle.circuit.specs.WordsMade.{at, top_flipped, stage_made, shift_made, less_made, low_word, high_word, moved_by};

use crate::gates::Gates;
use crate::literals::Lit;
use crate::nodes::{FreeWord, Node};
use crate::wiring::{Turn, complement_of, moved_word};
use crate::words::BitGate;
use word_kit::NoMemory;

/// How far a stage of a shift moves.
fn amount_of(stage: usize) -> usize
    requires { stage < 5 }
    ensures { result ≡ 2 ^ stage }
{
    1 << stage
}

/// The word with its top bit turned over.
fn with_top_flipped(x: [Lit; 32]) -> [Lit; 32]
    requires { word_reach_below 32 x < 2 ^ 31 }
    ensures made { result ≡ top_flipped x }
    ensures owned { word_reach_below 32 result ≤ word_reach_below 32 x }
{
    let mut out = x;
    out[31] = x[31].flip();
    out
}

/// The word whose order as it is is that of `x`.
fn ordered(x: [Lit; 32], signed: bool) -> [Lit; 32]
    requires { word_reach_below 32 x < 2 ^ 31 }
    ensures made { result ≡ cond signed (top_flipped x) x }
    ensures owned { word_reach_below 32 result ≤ word_reach_below 32 x }
{
    if signed { with_top_flipped(x) } else { x }
}

impl Gates {
    /// One stage of a shift: by `2 ^ stage` where that bit of the amount is true.
    fn stage(
        &mut self,
        turn: Turn,
        x: [Lit; 32],
        by: [Lit; 32],
        stage: usize,
    ) -> Result<[Lit; 32], NoMemory>
        requires within { stage < 5 }
        requires x_owned { word_reach_below 32 x ≤ length self.old.nodes.keys }
        requires by_owned { word_reach_below 32 by ≤ length self.old.nodes.keys }
        ensures later { IsLater self.old.nodes.keys self.new.nodes.keys }
        ensures owned { IfOk result (λ r. word_reach_below 32 r ≤ length self.new.nodes.keys) }
        ensures means { IfOk result (λ r. (v : ℕ → Bool) → AllAgree self.new.nodes.keys v → (k : ℕ) → k < 32 → lit_truth (at r k) v ≡ cond (lit_truth (at by stage) v) (moved_by false turn (2 ^ stage) (λ j. lit_truth (at x j) v) k) (lit_truth (at x k) v)) }
        ensures made { IfOk result (λ r. r ≡ (stage_made ⟦<Node as PartialEq>⟧.eq turn stage self.old.nodes.keys x by).word) }
        ensures held { OnOk result (self.new.nodes.keys ≡ (stage_made ⟦<Node as PartialEq>⟧.eq turn stage self.old.nodes.keys x by).held) }
    {
        let moved = moved_word(turn, x, amount_of(stage));
        let out = self.bitwise(BitGate::Choice(by[stage]), moved, x)?;
        Ok(out)
    }

    /// A shift or a rotate by the low five bits of `by`.
    pub fn shift(&mut self, turn: Turn, x: [Lit; 32], by: [Lit; 32]) -> Result<[Lit; 32], NoMemory>
        requires x_owned { word_reach_below 32 x ≤ length self.old.nodes.keys }
        requires by_owned { word_reach_below 32 by ≤ length self.old.nodes.keys }
        ensures later { IsLater self.old.nodes.keys self.new.nodes.keys }
        ensures owned { IfOk result (λ r. word_reach_below 32 r ≤ length self.new.nodes.keys) }
        ensures means { IfOk result (λ r. (v : ℕ → Bool) → AllAgree self.new.nodes.keys v → word_value 32 r v ≡ turned_word turn (word_value 32 x v) (word_value 32 by v)) }
        ensures made { IfOk result (λ r. r ≡ (shift_made ⟦<Node as PartialEq>⟧.eq turn 5 self.old.nodes.keys x by).word) }
        ensures held { OnOk result (self.new.nodes.keys ≡ (shift_made ⟦<Node as PartialEq>⟧.eq turn 5 self.old.nodes.keys x by).held) }
    {
        let mut out = x;
        for stage in 0..5 {
            let next = self.stage(turn, out, by, stage)?;
            out = next;
        }
        Ok(out)
    }

    /// Whether `x` is below `y`, both read as signed or neither: the carry of `x + not y + 1`, turned over.
    pub fn below(&mut self, x: [Lit; 32], y: [Lit; 32], signed: bool) -> Result<Lit, NoMemory>
        requires x_owned { word_reach_below 32 x ≤ length self.old.nodes.keys }
        requires y_owned { word_reach_below 32 y ≤ length self.old.nodes.keys }
        ensures later { IsLater self.old.nodes.keys self.new.nodes.keys }
        ensures owned { IfOk result (λ r. lit_reach r ≤ length self.new.nodes.keys) }
        ensures means { IfOk result (λ r. (v : ℕ → Bool) → AllAgree self.new.nodes.keys v → lit_truth r v ≡ is_less (word_value 32 x v) (word_value 32 y v) signed) }
        ensures made { IfOk result (λ r. r ≡ (less_made ⟦<Node as PartialEq>⟧.eq self.old.nodes.keys x y signed).flag) }
        ensures held { OnOk result (self.new.nodes.keys ≡ (less_made ⟦<Node as PartialEq>⟧.eq self.old.nodes.keys x y signed).held) }
    {
        let first = ordered(x, signed);
        let second = complement_of(ordered(y, signed));
        let (_sum, carry) = self.sum(first, second, Lit::Const(true))?;
        Ok(carry.flip())
    }

    /// The low word of a product, under the order of its operands that came first.
    pub fn low_product(&self, x: [Lit; 32], y: [Lit; 32]) -> FreeWord
        ensures made { result ≡ low_word ⟦<Node as PartialEq>⟧.eq self.now.nodes.keys x y }
        ensures means { (v : ℕ → Bool) → free_value result v ≡ product_low (word_value 32 x v) (word_value 32 y v) }
        ensures owned { (m : ℕ) → word_reach_below 32 x ≤ m → word_reach_below 32 y ≤ m → free_reach result ≤ m }
        ensures apart { IsApart self.now.nodes.keys (Node.Free result 0) }
    {
        let swapped = FreeWord::ProductLow(y, x);
        if self.nodes.contains(&Node::Free(swapped, 0)) {
            swapped
        } else {
            FreeWord::ProductLow(x, y)
        }
    }

    /// The high word of a product, under the order of its operands that came first.
    pub fn high_product(&self, x: [Lit; 32], y: [Lit; 32], signed: bool) -> FreeWord
        ensures made { result ≡ high_word ⟦<Node as PartialEq>⟧.eq self.now.nodes.keys signed x y }
        ensures means { (v : ℕ → Bool) → free_value result v ≡ product_high (word_value 32 x v) (word_value 32 y v) signed }
        ensures owned { (m : ℕ) → word_reach_below 32 x ≤ m → word_reach_below 32 y ≤ m → free_reach result ≤ m }
        ensures apart { IsApart self.now.nodes.keys (Node.Free result 0) }
    {
        let swapped = FreeWord::ProductHigh(signed, y, x);
        if self.nodes.contains(&Node::Free(swapped, 0)) {
            swapped
        } else {
            FreeWord::ProductHigh(signed, x, y)
        }
    }
}
