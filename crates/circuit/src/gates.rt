//! Circuits, and the gates of two literals.

ghost use Rattle.std.specs.Prelude.{false, ◌≡◌, ◌<◌, ◌≤◌, ◌^◌, ◌+◌, ◌++◌, ◌∷◌, [], ℕ, Bool, IfOk, OnOk, not, ◌&&◌, pos, length};
ghost use Rattle.word_kit.specs.Prelude.{same, literal_truth};
ghost use Rattle.circuit.specs.Literals.{lit_truth, lit_reach, signed_reach};
ghost use Rattle.circuit.specs.Nodes.{AllAgree, IsInput, IsOrdered, Says, free_count, node_reach, told_place, is_free};
ghost use Rattle.circuit.specs.Frame.{IsLater, MayUntie};
ghost use Rattle.circuit.specs.Sharing.{IsShared, IsApart, IsBegun};
ghost use Rattle.circuit.specs.Extensions.{GatesAgree, GateSays};
ghost use Rattle.circuit.specs.Made.{node_made, and_made, xor_made, xor_node_made};
ghost use Rattle.indexmap.specs.IndexSet.{index_set_len};

use crate::literals::{Lit, literal_at};
use crate::nodes::Node;
use indexmap::IndexSet;
use std::alloc::Global;
use word_kit::NoMemory;

/// Inputs, gates, and words that no gate ties. The node at each index has the variable that follows that index, and
/// equal nodes have the same one. There are fewer than 2^31 variables.
#[derive(Drop)]
pub struct Gates {
    pub nodes: IndexSet<Node>,
    ghost few: { index_set_len nodes < 2 ^ 31 },
    ghost ordered: { IsOrdered nodes.keys },
    ghost shared: { IsShared nodes.keys },
}

impl Gates {
    /// No variables yet.
    pub fn fresh(alloc: Global) -> Gates
        ensures { result.nodes.keys ≡ [] }
    {
        Gates {
            nodes: IndexSet::new(alloc),
        }
    }

    /// The variable of a node: the one that it has, or the next.
    #[tactic(auto, unfolding(crate::specs::Nodes::AllAgree, crate::specs::Extensions::GatesAgree, crate::specs::Made::node_made))]
    pub fn variable(&mut self, node: Node) -> Result<Lit, NoMemory>
        requires reads { node_reach node ≤ length self.old.nodes.keys }
        requires places { told_place node (length self.old.nodes.keys) ≡ length self.old.nodes.keys }
        requires apart { IsApart self.old.nodes.keys node }
        requires begun { IsBegun self.old.nodes.keys node }
        ensures later { MayUntie self.old.nodes.keys self.new.nodes.keys }
        ensures gates { (v : ℕ → Bool) → GatesAgree self.new.nodes.keys v → GatesAgree self.old.nodes.keys v }
        ensures free { is_free node ≡ false → free_count self.new.nodes.keys ≡ free_count self.old.nodes.keys }
        ensures owned { IfOk result (λ r. lit_reach r ≤ length self.new.nodes.keys) }
        ensures means { IfOk result (λ r. (v : ℕ → Bool) → AllAgree self.new.nodes.keys v → Says node (lit_truth r v) v) }
        ensures gate { IfOk result (λ r. (v : ℕ → Bool) → GatesAgree self.new.nodes.keys v → GateSays node (lit_truth r v) v) }
        ensures made { IfOk result (λ r. r ≡ (node_made ⟦<Node as PartialEq>⟧.eq self.old.nodes.keys node).flag) }
        ensures held { OnOk result (self.new.nodes.keys ≡ (node_made ⟦<Node as PartialEq>⟧.eq self.old.nodes.keys node).held) }
    {
        if self.nodes.len() >= 0x7FFF_FFFF {
            return Err(NoMemory);
        }
        match self.nodes.insert_full(node) {
            Ok((index, _)) => Ok(literal_at(index)),
            Err(_) => Err(NoMemory),
        }
    }

    /// The next variable, which no clause ties.
    pub fn input(&mut self) -> Result<Lit, NoMemory>
        ensures later { IsLater self.old.nodes.keys self.new.nodes.keys }
        ensures owned { IfOk result (λ r. lit_reach r ≤ length self.new.nodes.keys) }
        ensures next { IfOk result (λ r. r ≡ Lit.Var (pos (length self.old.nodes.keys + 1))) }
        ensures held { OnOk result (self.new.nodes.keys ≡ self.old.nodes.keys ++ Node.Input (length self.old.nodes.keys) ∷ []) }
        ensures stands { OnOk result (IsInput self.new.nodes.keys (length self.old.nodes.keys)) }
    {
        if self.nodes.len() >= 0x7FFF_FFFF {
            return Err(NoMemory);
        }
        let number = self.nodes.len() as u32;
        self.variable(Node::Input(number))
    }

    /// And: constants, equal and opposite literals are folded, and the smaller variable goes first.
    #[tactic(auto, unfolding(crate::specs::Made::and_made))]
    pub fn and_gate(&mut self, b: Lit, c: Lit) -> Result<Lit, NoMemory>
        requires b_owned { lit_reach b ≤ length self.old.nodes.keys }
        requires c_owned { lit_reach c ≤ length self.old.nodes.keys }
        ensures later { IsLater self.old.nodes.keys self.new.nodes.keys }
        ensures owned { IfOk result (λ r. lit_reach r ≤ length self.new.nodes.keys) }
        ensures means { IfOk result (λ r. (v : ℕ → Bool) → AllAgree self.new.nodes.keys v → lit_truth r v ≡ lit_truth b v && lit_truth c v) }
        ensures made { IfOk result (λ r. r ≡ (and_made ⟦<Node as PartialEq>⟧.eq self.old.nodes.keys b c).flag) }
        ensures held { OnOk result (self.new.nodes.keys ≡ (and_made ⟦<Node as PartialEq>⟧.eq self.old.nodes.keys b c).held) }
    {
        match (b, c) {
            (Lit::Const(false), _) => Ok(Lit::Const(false)),
            (_, Lit::Const(false)) => Ok(Lit::Const(false)),
            (Lit::Const(true), other) => Ok(other),
            (other, Lit::Const(true)) => Ok(other),
            (Lit::Var(x), Lit::Var(y)) => {
                if x == y {
                    Ok(b)
                } else if x == -y {
                    Ok(Lit::Const(false))
                } else if x.unsigned_abs() < y.unsigned_abs() {
                    self.variable(Node::And(x, y))
                } else {
                    self.variable(Node::And(y, x))
                }
            }
        }
    }

    /// Xor, with its sign outside: constants, equal and opposite literals are folded, and the smaller variable goes first.
    #[tactic(auto, unfolding(crate::specs::Made::xor_made, crate::specs::Made::xor_signed_made))]
    pub fn xor_gate(&mut self, b: Lit, c: Lit) -> Result<Lit, NoMemory>
        requires b_owned { lit_reach b ≤ length self.old.nodes.keys }
        requires c_owned { lit_reach c ≤ length self.old.nodes.keys }
        ensures later { IsLater self.old.nodes.keys self.new.nodes.keys }
        ensures gates { (v : ℕ → Bool) → GatesAgree self.new.nodes.keys v → GatesAgree self.old.nodes.keys v }
        ensures owned { IfOk result (λ r. lit_reach r ≤ length self.new.nodes.keys) }
        ensures means { IfOk result (λ r. (v : ℕ → Bool) → AllAgree self.new.nodes.keys v → lit_truth r v ≡ not (same (lit_truth b v) (lit_truth c v))) }
        ensures gate { IfOk result (λ r. (v : ℕ → Bool) → GatesAgree self.new.nodes.keys v → lit_truth r v ≡ not (same (lit_truth b v) (lit_truth c v))) }
        ensures made { IfOk result (λ r. r ≡ (xor_made ⟦<Node as PartialEq>⟧.eq self.old.nodes.keys b c).flag) }
        ensures held { OnOk result (self.new.nodes.keys ≡ (xor_made ⟦<Node as PartialEq>⟧.eq self.old.nodes.keys b c).held) }
    {
        match (b, c) {
            (Lit::Const(false), other) => Ok(other),
            (Lit::Const(true), other) => Ok(other.flip()),
            (other, Lit::Const(false)) => Ok(other),
            (other, Lit::Const(true)) => Ok(other.flip()),
            (Lit::Var(x), Lit::Var(y)) => {
                if x == y {
                    Ok(Lit::Const(false))
                } else if x == -y {
                    Ok(Lit::Const(true))
                } else {
                    let sum = self.xor_node(x.abs(), y.abs())?;
                    Ok(sum.turned((x < 0) != (y < 0)))
                }
            }
        }
    }

    /// The Xor of two variables.
    fn xor_node(&mut self, x: i32, y: i32) -> Result<Lit, NoMemory>
        requires x_owned { signed_reach x ≤ length self.old.nodes.keys }
        requires y_owned { signed_reach y ≤ length self.old.nodes.keys }
        ensures later { IsLater self.old.nodes.keys self.new.nodes.keys }
        ensures gates { (v : ℕ → Bool) → GatesAgree self.new.nodes.keys v → GatesAgree self.old.nodes.keys v }
        ensures owned { IfOk result (λ r. lit_reach r ≤ length self.new.nodes.keys) }
        ensures means { IfOk result (λ r. (v : ℕ → Bool) → AllAgree self.new.nodes.keys v → lit_truth r v ≡ not (same (literal_truth x v) (literal_truth y v))) }
        ensures gate { IfOk result (λ r. (v : ℕ → Bool) → GatesAgree self.new.nodes.keys v → lit_truth r v ≡ not (same (literal_truth x v) (literal_truth y v))) }
        ensures made { IfOk result (λ r. r ≡ (xor_node_made ⟦<Node as PartialEq>⟧.eq self.old.nodes.keys x y).flag) }
        ensures held { OnOk result (self.new.nodes.keys ≡ (xor_node_made ⟦<Node as PartialEq>⟧.eq self.old.nodes.keys x y).held) }
    {
        if x < y {
            self.variable(Node::Xor(x, y))
        } else {
            self.variable(Node::Xor(y, x))
        }
    }
}
