//! What holds of every circuit.

ghost use Rattle.std.specs.Prelude.{◌≡◌, ℕ, ℤ, Bool, List, Option, Some, slice_get};
ghost use Rattle.circuit.specs.Nodes.{AllAgree};
ghost use Rattle.circuit.specs.Extensions.{Extends, GatesAgree};
ghost use Rattle.circuit.specs.Clauses.{AreClausesFor, SatisfiesGates};
ghost use Rattle.circuit.specs.Sharing.{IsOneOfEach};
ghost use Rattle.circuit.specs.declared.nodes.Node.{Node as AnyNode};

use crate::gates::Gates;

/// Every choice of the inputs extends to an assignment that fits every gate and gives each product half and division its
/// values.
pub fn inputs_extend(gates: &Gates)
    ensures { (v : ℕ → Bool) → (w : ℕ → Bool) × Extends gates.now.nodes.keys v w }
{
    let _count = gates.nodes.len();
}

/// No clause ties an input, a product half or a division: whatever truths they have, some assignment with these truths
/// satisfies the clauses of every gate.
pub fn untied(gates: &Gates)
    ensures { (v : ℕ → Bool) → (w : ℕ → Bool) × SatisfiesGates gates.now.nodes.keys v w }
{
    let _count = gates.nodes.len();
}

/// Equal gates have the same variable, and so have the bits of products of the same two words, in either order, and those of
/// divisions of the same words.
pub fn one_of_each(gates: &Gates)
    ensures { IsOneOfEach gates.now.nodes.keys }
{
    let _count = gates.nodes.len();
}

/// An assignment that gives each product half and division its values fits every gate.
pub fn fits_gates()
    ensures { (nodes : List AnyNode) (v : ℕ → Bool) → AllAgree nodes v → GatesAgree nodes v }
{}

/// One list of clauses alone belongs to a final clause.
pub fn one_formula()
    ensures { (nodes : List AnyNode) (last : Option (List ℤ)) (first second : List (List ℤ)) → AreClausesFor nodes last first → AreClausesFor nodes last second → first ≡ second }
{}
