//! The variables that a clause reaches.

ghost use Rattle.std.specs.Prelude.{false, ◌≡◌, ◌↔◌, ◌∷◌, [], ◌<◌, ◌≤◌, ◌^◌, ◌+◌, ℕ, true, IsTrue, IfOk, length, replicate, slice_set, slice_index_or};
ghost use Rattle.std.specs.List.{All};
ghost use Rattle.word_kit.specs.Prelude.{variable};
ghost use Rattle.circuit.specs.Nodes.{IsOrdered, node_reach};
ghost use Rattle.circuit.specs.Clauses.{inputs_of, IsReached};
ghost use Rattle.circuit.specs.Marks.{marked};

use crate::nodes::Node;
use std::alloc::Global;
use word_kit::NoMemory;

/// Marks the variable of a literal.
fn mark(marks: &mut [bool], literal: i32)
    requires { variable literal < length marks.old }
    ensures { marks.new ≡ slice_set marks.old (variable literal) true }
{
    marks[literal.unsigned_abs() as usize] = true;
}

/// Marks the variables of two literals.
fn mark_both(marks: &mut [bool], x: i32, y: i32)
    requires x_within { variable x < length marks.old }
    requires y_within { variable y < length marks.old }
    ensures { marks.new ≡ marked (x ∷ y ∷ []) marks.old }
{
    mark(marks, x);
    mark(marks, y);
}

/// Marks the variables that a gate reads.
fn mark_inputs(marks: &mut [bool], node: Node)
    requires { node_reach node < length marks.old }
    ensures { marks.new ≡ marked (inputs_of node) marks.old }
{
    match node {
        Node::And(x, y) => mark_both(marks, x, y),
        Node::Xor(x, y) => mark_both(marks, x, y),
        Node::Input(_) | Node::Free(_, _) => {}
    }
}

/// Marks for this number of variables, where those of the clause are marked.
fn marks_of(alloc: Global, count: usize, clause: &[i32]) -> Result<Vec<bool>, NoMemory>
    requires { All (λ literal. variable literal < count) clause.now }
    ensures { IfOk result (λ r. r.items ≡ marked clause.now (replicate count false)) }
{
    let mut marks = vec![in alloc; false; count]?;
    for literal in clause {
        mark(&mut marks, *literal);
    }
    Ok(marks)
}

/// Whether the clause reaches a variable, by the number of the variable. Gates read earlier variables alone, so one pass from
/// the last one down finds all of them.
pub fn reached(alloc: Global, nodes: &[Node], clause: &[i32]) -> Result<Vec<bool>, NoMemory>
    requires ordered { IsOrdered nodes.now }
    requires few { length nodes.now < 2 ^ 31 }
    requires named { All (λ literal. variable literal ≤ length nodes.now) clause.now }
    ensures count { IfOk result (λ r. length r.items ≡ length nodes.now + 1) }
    ensures exact { IfOk result (λ r. (k : ℕ) → IsTrue (slice_index_or r.items k false) ↔ IsReached nodes.now clause.now k) }
{
    let mut marks = marks_of(alloc, nodes.len() + 1, clause)?;
    for k in (0..nodes.len()).rev() {
        if marks[k + 1] {
            mark_inputs(&mut marks, nodes[k]);
        }
    }
    Ok(marks)
}
