//! The formula of a rule.

ghost use Rattle.std.specs.Prelude.{IfOk};
ghost use Rattle.word_kit.specs.Prelude.{IsFormula};
ghost use Rattle.circuit.specs.Prelude.{IsSatisfiable};
ghost use Rattle.rule_body.specs.Prelude.{IsRule};
ghost use Rattle.rule_soundness.specs.Prelude.{IsSound};
ghost use Rattle.rule_meaning.specs.Formula.{IsFormulaOfRule};

use crate::laws::runs_make_sound;
use circuit::Node;
use ppc_isa::one_instruction;
use rule_body::Rule;
use rule_lines::{bodies_run, body_lines};
use rule_places::{homes, needed_ends, take, widths};
use rule_rows::{window_rows, window_width, windows_run};
use std::alloc::Global;
use window_circuits::formula_of as formula_over;
use word_kit::{Formula, NoMemory};

/// The formula that says that, of some inputs and some choices of the processor, a rule's window and its body differ. Where it
/// has no model, the rule is sound.
///
/// # Errors
/// Where there is no memory for it.
pub fn formula_of(alloc: Global, rule: &Rule) -> Result<Formula, NoMemory>
    requires { IsRule rule.now }
    ensures makes { IfOk result (λ f. IsFormulaOfRule ⟦<Node as PartialEq>⟧.eq rule.now f) }
    ensures formula { IfOk result (λ f. IsFormula f) }
    ensures sound { IfOk result (λ f. ¬ IsSatisfiable f.clauses → IsSound rule.now) }
{
    one_instruction();
    windows_run();
    bodies_run();
    runs_make_sound();
    let goal = &rule.goal;
    let rows = window_rows(alloc, goal)?;
    let lines = body_lines(alloc, goal, &rule.body)?;
    let branch = take(&rule.body);
    let wanted = needed_ends(alloc, goal)?;
    let bits = widths(goal, window_width(goal));
    formula_over(alloc, &rows, &lines, &branch, bits, homes(), &wanted)
}
