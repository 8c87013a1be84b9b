//! The clauses of gates.

ghost use Rattle.std.specs.Prelude.{false, ◌≡◌, ◌<◌, ◌≤◌, ◌^◌, ◌+◌, ◌++◌, ◌∷◌, [], pos, neg_ℤ, IfOk, OnOk, length, slice_index_or};
ghost use Rattle.word_kit.specs.Prelude.{variable};
ghost use Rattle.circuit.specs.Nodes.{IsOrdered, node_reach};
ghost use Rattle.circuit.specs.Clauses.{gate_clauses, chosen_clauses};

use crate::nodes::Node;
use std::alloc::Global;
use word_kit::{Clause, NoMemory};

/// The opposite literal.
fn opposite(literal: i32) -> i32
    requires { variable literal < 2 ^ 31 }
    ensures { result ≡ neg_ℤ literal }
{
    -literal
}

/// Puts the clause of two literals behind the others.
fn push_two(alloc: Global, out: &mut Vec<Clause>, x: i32, y: i32) -> Result<(), NoMemory>
    ensures { OnOk result (out.new.items ≡ out.old.items ++ (x ∷ y ∷ []) ∷ []) }
{
    let clause = vec![in alloc; x, y]?;
    out.push(Clause::from(clause))?;
    Ok(())
}

/// Puts the clause of three literals behind the others.
fn push_three(alloc: Global, out: &mut Vec<Clause>, x: i32, y: i32, z: i32) -> Result<(), NoMemory>
    ensures { OnOk result (out.new.items ≡ out.old.items ++ (x ∷ y ∷ z ∷ []) ∷ []) }
{
    let clause = vec![in alloc; x, y, z]?;
    out.push(Clause::from(clause))?;
    Ok(())
}

/// Puts the clauses by which `v` is true where `x` and `y` are.
fn push_and(alloc: Global, out: &mut Vec<Clause>, v: i32, x: i32, y: i32) -> Result<(), NoMemory>
    requires v_within { variable v < 2 ^ 31 }
    requires x_within { variable x < 2 ^ 31 }
    requires y_within { variable y < 2 ^ 31 }
    ensures { OnOk result (out.new.items ≡ out.old.items ++ gate_clauses v (Node.And x y)) }
{
    let not_v = opposite(v);
    push_two(alloc, out, not_v, x)?;
    push_two(alloc, out, not_v, y)?;
    push_three(alloc, out, v, opposite(x), opposite(y))
}

/// Puts the clauses by which `v` is true where one of `x` and `y` is.
fn push_xor(alloc: Global, out: &mut Vec<Clause>, v: i32, x: i32, y: i32) -> Result<(), NoMemory>
    requires v_within { variable v < 2 ^ 31 }
    requires x_within { variable x < 2 ^ 31 }
    requires y_within { variable y < 2 ^ 31 }
    ensures { OnOk result (out.new.items ≡ out.old.items ++ gate_clauses v (Node.Xor x y)) }
{
    let not_v = opposite(v);
    let not_x = opposite(x);
    let not_y = opposite(y);
    push_three(alloc, out, not_v, x, y)?;
    push_three(alloc, out, not_v, not_x, not_y)?;
    push_three(alloc, out, v, not_x, y)?;
    push_three(alloc, out, v, x, not_y)
}

/// Puts the clauses by which the variable `v` has the truth of its gate. Nothing else has any.
fn push_gate(alloc: Global, out: &mut Vec<Clause>, v: i32, node: Node) -> Result<(), NoMemory>
    requires v_within { variable v < 2 ^ 31 }
    requires reads { node_reach node < 2 ^ 31 }
    ensures { OnOk result (out.new.items ≡ out.old.items ++ gate_clauses v node) }
{
    match node {
        Node::And(x, y) => push_and(alloc, out, v, x, y),
        Node::Xor(x, y) => push_xor(alloc, out, v, x, y),
        Node::Input(_) | Node::Free(_, _) => Ok(()),
    }
}

/// The variable of the node at this index.
fn variable_at(index: usize) -> i32
    requires { index + 1 < 2 ^ 31 }
    ensures { result ≡ pos (index + 1) }
{
    index as i32 + 1
}

/// The clauses of the nodes whose variables are chosen, by rising variable.
pub fn chosen_clauses(
    alloc: Global,
    chosen: &[bool],
    nodes: &[Node],
) -> Result<Vec<Clause>, NoMemory>
    requires ordered { IsOrdered nodes.now }
    requires few { length nodes.now < 2 ^ 31 }
    requires count { length chosen.now ≡ length nodes.now + 1 }
    ensures { IfOk result (λ r. r.items ≡ chosen_clauses (λ k. slice_index_or chosen.now k false) 1 nodes.now) }
{
    let mut out = Vec::new(alloc);
    for k in 0..nodes.len() {
        if chosen[k + 1] {
            push_gate(alloc, &mut out, variable_at(k), nodes[k])?;
        }
    }
    Ok(out)
}
