//! The formula that says that a pair of literals differs.

ghost use Rattle.std.specs.Prelude.{◌≡◌, ◌↔◌, ◌≤◌, ◌<◌, ℕ, Bool, IfOk, OnOk, IfSome, length};
ghost use Rattle.std.specs.List.{All, list_any, filter_map};
ghost use Rattle.word_kit.specs.Prelude.{IsFormula};
ghost use Rattle.circuit.specs.Literals.{lit_truth, lit_reach, signed_reach, is_true, signed_variable};
ghost use Rattle.circuit.specs.WordsMade.{at};
ghost use Rattle.circuit.specs.Frame.{IsLater};
ghost use Rattle.circuit.specs.Extensions.{GatesAgree};
ghost use Rattle.circuit.specs.Clauses.{AreClausesFor};
ghost use Rattle.circuit.specs.Miters.{differences_made, pair_at, differs, AreOwned, CanDiffer, final_clause, IsSatisfiable};

use crate::clauses::chosen_clauses;
use crate::gates::Gates;
use crate::literals::Lit;
use crate::nodes::Node;
use crate::reached::reached;
use std::alloc::Global;
use word_kit::{Clause, Clauses, Formula, NoMemory};

/// Whether one of the literals is the constant that is true.
fn has_true(literals: &[Lit]) -> bool
    ensures { result ≡ list_any is_true literals.now }
{
    literals.iter().any(|literal| literal.is_true())
}

/// The literals that are no constants.
fn signed_variables(alloc: Global, literals: &[Lit]) -> Result<Vec<i32>, NoMemory>
    ensures { IfOk result (λ r. r.items ≡ filter_map signed_variable literals.now) }
{
    let signed = literals
        .iter()
        .filter_map(|literal| literal.signed_variable())
        .collect(alloc)?;
    Ok(signed)
}

/// The clause by which one of the literals is true: false constants are left out, and where one is true there is none.
#[tactic(auto, unfolding(crate::specs::Miters::final_clause))]
fn final_clause(alloc: Global, literals: &[Lit]) -> Result<Option<Clause>, NoMemory>
    ensures { IfOk result (λ r. r ≡ final_clause literals.now) }
{
    if has_true(literals) {
        return Ok(None);
    }
    let signed = signed_variables(alloc, literals)?;
    Ok(Some(Clause::from(signed)))
}

impl Gates {
    /// The Xor of each pair, in order.
    fn differences(&mut self, alloc: Global, pairs: &[(Lit, Lit)]) -> Result<Vec<Lit>, NoMemory>
        requires owned { AreOwned (length self.old.nodes.keys) pairs.now }
        ensures later { IsLater self.old.nodes.keys self.new.nodes.keys }
        ensures gates { (v : ℕ → Bool) → GatesAgree self.new.nodes.keys v → GatesAgree self.old.nodes.keys v }
        ensures owned { IfOk result (λ r. (k : ℕ) → k < length pairs.now → lit_reach (at r.items k) ≤ length self.new.nodes.keys) }
        ensures count { IfOk result (λ r. length r.items ≡ length pairs.now) }
        ensures means { IfOk result (λ r. (v : ℕ → Bool) → GatesAgree self.new.nodes.keys v → (k : ℕ) → k < length pairs.now → lit_truth (at r.items k) v ≡ differs v (pair_at pairs.now k)) }
        ensures made { IfOk result (λ r. r.items ≡ (differences_made ⟦<Node as PartialEq>⟧.eq self.old.nodes.keys pairs.now).word) }
        ensures held { OnOk result (self.new.nodes.keys ≡ (differences_made ⟦<Node as PartialEq>⟧.eq self.old.nodes.keys pairs.now).held) }
    {
        let mut out = Vec::new(alloc);
        for i in 0..pairs.len() {
            let (first, second) = pairs[i];
            let bit = self.xor_gate(first, second)?;
            out.push(bit)?;
        }
        Ok(out)
    }

    /// The clauses of every gate that the final clause reaches, by rising variable, and then the final clause.
    fn clauses_to(&self, alloc: Global, last: Clause) -> Result<Vec<Clause>, NoMemory>
        requires { All (λ literal. signed_reach literal ≤ length self.now.nodes.keys) last }
        ensures { IfOk result (λ r. AreClausesFor self.now.nodes.keys (Some last) r.items) }
    {
        let nodes = self.nodes.as_slice();
        let marks = reached(alloc, nodes, last.as_slice())?;
        let mut clauses = chosen_clauses(alloc, &marks, nodes)?;
        clauses.push(last)?;
        Ok(clauses)
    }

    /// The clauses of the formula with this final clause: none where there is none.
    fn clauses_for(&self, alloc: Global, last: Option<Clause>) -> Result<Vec<Clause>, NoMemory>
        requires { IfSome last (λ clause. All (λ literal. signed_reach literal ≤ length self.now.nodes.keys) clause) }
        ensures { IfOk result (λ r. AreClausesFor self.now.nodes.keys last r.items) }
    {
        match last {
            Some(last) => self.clauses_to(alloc, last),
            None => Ok(Vec::new(alloc)),
        }
    }

    /// The formula that is satisfiable exactly where the gates allow a pair to differ: the clauses of every gate that the final
    /// clause reaches, and the final clause, by which one of the Xors of the pairs is true. Inputs, product halves and
    /// divisions are free here. Xors that are not there yet are made.
    pub fn miter(&mut self, alloc: Global, pairs: &[(Lit, Lit)]) -> Result<Formula, NoMemory>
        requires owned { AreOwned (length self.old.nodes.keys) pairs.now }
        ensures later { IsLater self.old.nodes.keys self.new.nodes.keys }
        ensures gates { (v : ℕ → Bool) → GatesAgree self.new.nodes.keys v → GatesAgree self.old.nodes.keys v }
        ensures held { OnOk result (self.new.nodes.keys ≡ (differences_made ⟦<Node as PartialEq>⟧.eq self.old.nodes.keys pairs.now).held) }
        ensures variables { IfOk result (λ f. f.variables ≡ length self.new.nodes.keys) }
        ensures clauses { IfOk result (λ f. AreClausesFor self.new.nodes.keys (final_clause (differences_made ⟦<Node as PartialEq>⟧.eq self.old.nodes.keys pairs.now).word) f.clauses) }
        ensures formula { IfOk result (λ f. IsFormula f) }
        ensures satisfiable { IfOk result (λ f. IsSatisfiable f.clauses ↔ CanDiffer self.old.nodes.keys pairs.now) }
    {
        let differences = self.differences(alloc, pairs)?;
        let last = final_clause(alloc, &differences)?;
        let clauses = self.clauses_for(alloc, last)?;
        Ok(Formula {
            variables: self.nodes.len() as u32,
            clauses: Clauses::from(clauses),
        })
    }
}
