//! Pairs of literals that are to be the same.

ghost use Rattle.std.specs.Prelude.{◌≡◌, ◌↔◌, ◌≤◌, ◌++◌, ◌∷◌, [], ℕ, Bool, IfOk, OnOk, length};
ghost use Rattle.word_kit.specs.Prelude.{IsFormula};
ghost use Rattle.circuit.specs.Prelude.{lit_truth, lit_reach, word_value, word_reach_below, AllAgree, IsLater, GatesAgree, AreClausesFor, differences_made, AreOwned, CanDiffer, final_clause, IsSatisfiable};
ghost use Rattle.chosen_inputs.specs.Pairs.{AreAlike, bit_pairs};

use circuit::{Gates, Lit, Node};
use std::alloc::Global;
use word_kit::{Formula, NoMemory};

/// Two words that are to be the same.
pub fn push_word(pairs: &mut Vec<(Lit, Lit)>, x: [Lit; 32], y: [Lit; 32]) -> Result<(), NoMemory>
    ensures pushed { OnOk result (pairs.new.items ≡ pairs.old.items ++ bit_pairs 32 x y) }
    ensures alike { OnOk result ((w : ℕ → Bool) → AreAlike w pairs.new.items ↔ (AreAlike w pairs.old.items × (word_value 32 x w ≡ word_value 32 y w))) }
    ensures owned { OnOk result ((m : ℕ) → AreOwned m pairs.old.items → word_reach_below 32 x ≤ m → word_reach_below 32 y ≤ m → AreOwned m pairs.new.items) }
{
    for i in 0..32 {
        pairs.push((x[i], y[i]))?;
    }
    Ok(())
}

/// Two truths that are to be the same.
pub fn push_flag(pairs: &mut Vec<(Lit, Lit)>, x: Lit, y: Lit) -> Result<(), NoMemory>
    ensures pushed { OnOk result (pairs.new.items ≡ pairs.old.items ++ (x, y) ∷ []) }
    ensures alike { OnOk result ((w : ℕ → Bool) → AreAlike w pairs.new.items ↔ (AreAlike w pairs.old.items × (lit_truth x w ≡ lit_truth y w))) }
    ensures owned { OnOk result ((m : ℕ) → AreOwned m pairs.old.items → lit_reach x ≤ m → lit_reach y ≤ m → AreOwned m pairs.new.items) }
{
    pairs.push((x, y))?;
    Ok(())
}

/// The formula that says that a pair differs. Where it has no model, no pair differs under any assignment that fits every gate
/// and gives each product half and division its values.
pub fn formula_of_pairs(
    alloc: Global,
    gates: &mut Gates,
    pairs: &[(Lit, Lit)],
) -> Result<Formula, NoMemory>
    requires owned { AreOwned (length gates.old.nodes.keys) pairs.now }
    ensures later { IsLater gates.old.nodes.keys gates.new.nodes.keys }
    ensures held { OnOk result (gates.new.nodes.keys ≡ (differences_made ⟦<Node as PartialEq>⟧.eq gates.old.nodes.keys pairs.now).held) }
    ensures variables { IfOk result (λ f. f.variables ≡ length gates.new.nodes.keys) }
    ensures clauses { IfOk result (λ f. AreClausesFor gates.new.nodes.keys (final_clause (differences_made ⟦<Node as PartialEq>⟧.eq gates.old.nodes.keys pairs.now).word) f.clauses) }
    ensures formula { IfOk result (λ f. IsFormula f) }
    ensures satisfiable { IfOk result (λ f. IsSatisfiable f.clauses ↔ CanDiffer gates.old.nodes.keys pairs.now) }
    ensures alike { IfOk result (λ f. ¬ IsSatisfiable f.clauses → (w : ℕ → Bool) → AllAgree gates.old.nodes.keys w → AreAlike w pairs.now) }
{
    gates.miter(alloc, pairs)
}
