//! The ops of a rule where it matches.

ghost use Rattle.std.specs.Prelude.{◌≡◌, ◌≤◌, List, IfOk};
ghost use Rattle.machines.specs.Prelude.{Instr};
ghost use Rattle.rule_soundness.specs.Prelude.{AreWordsOf, laid_line as line_for};
ghost use Rattle.rule_match.specs.Bindings.{constant_at as constant, match_of, instantiated};

use crate::binding::Binding;
use crate::filling::{constant_of, filled_op, hole_value};
use crate::placing::placed;
use ia_codec::Op;
use ppc_isa::decode;
use rule_body::{HostLine, Rule};
use std::alloc::Global;
use word_kit::NoMemory;

// The constant of a word of the window, counted from 0.
fn constant_at(window: &[u32], place: u8) -> u16
    ensures { (found : List Instr) → AreWordsOf window.now found → result ≡ constant found place }
{
    match window.get(place as usize) {
        None => 0,
        Some(word) => match decode(*word) {
            None => 0,
            Some(instr) => constant_of(&instr),
        },
    }
}

// A line where the rule is laid.
fn laid_line(window: &[u32], binding: &Binding, line: &HostLine) -> Op
    ensures { (found : List Instr) → AreWordsOf window.now found → result ≡ line_for (match_of found binding.now) line.now }
{
    match line.hole {
        None => placed(binding, &line.op),
        Some((hole, place)) => {
            let number = hole_value(hole, constant_at(window, place));
            placed(binding, &filled_op(&line.op, number))
        }
    }
}

/// The ops of a rule for a binding at a window of words, in their order. Absolute operands are offsets in the home page.
///
/// # Errors
/// Where there is no memory for them.
pub fn instantiate(
    alloc: Global,
    rule: &Rule,
    window: &[u32],
    binding: &Binding,
) -> Result<Vec<Op>, NoMemory>
    requires { rule.now.body.count ≤ 4 }
    ensures { (found : List Instr) → AreWordsOf window.now found → IfOk result (λ ops. ops.items ≡ instantiated rule.now found binding.now) }
{
    let mut ops = Vec::new(alloc);
    for line in &rule.body.lines[..rule.body.count as usize] {
        ops.push(laid_line(window, binding, line))?;
    }
    Ok(ops)
}
