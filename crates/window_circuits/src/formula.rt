//! The formula of a rule.

ghost use Rattle.std.specs.Prelude.{◌≡◌, ◌≤◌, ℕ, Bool, IsTrue, IfOk, OnOk, length};
ghost use Rattle.std.specs.List.{All};
ghost use Rattle.word_kit.specs.Prelude.{IsFormula};
ghost use Rattle.circuit.specs.Prelude.{AllAgree, MayUntie, AreOwned, IsSatisfiable};
ghost use Rattle.chosen_inputs.specs.Choices.{CanChoose};
ghost use Rattle.chosen_inputs.specs.Pairs.{AreAlike};
ghost use Rattle.row_runs.specs.Accesses.{always};
ghost use Rattle.row_runs.specs.Windows.{guest_steps};
ghost use Rattle.row_runs.specs.Bodies.{Pick, host_steps};
ghost use Rattle.place_circuits.specs.Fields.{IsField};
ghost use Rattle.row_circuits.specs.Windows.{IsWindowRow, ShowsWindow, WindowOwned};
ghost use Rattle.row_circuits.specs.Bodies.{IsBodyLine, ShowsBody, BodyOwned};
ghost use Rattle.window_circuits.specs.Starts.{AreWidths, AreWithin, ArePicks, loaded_bytes, window_begins, body_begins};
ghost use Rattle.window_circuits.specs.Runs.{row_at, line_at};
ghost use Rattle.window_circuits.specs.Rules.{IsEnd, IsTake, IsSoundFor, IsSoundOver};
ghost use Rattle.row_circuits.specs.WindowTerms.{window_made};
ghost use Rattle.row_circuits.specs.BodyTerms.{body_made};
ghost use Rattle.window_circuits.specs.Terms.{run_term, rule_made, IsFormulaOf};

use crate::inputs::input_places;
use crate::loops::{all_lines, all_rows};
use crate::pairs::{End, push_pairs};
use crate::starts::{body_start, start_bytes, window_start};
use chosen_inputs::formula_of_pairs;
use circuit::{Gates, Node, inputs_extend};
use ia_codec::Op;
use place_circuits::Field;
use row_circuits::{BodyCircuit, BodyLine, WindowCircuit, WindowRow};
use row_runs::same_accesses_load_alike;
use std::alloc::Global;
use word_kit::{Alg, Formula, NoMemory};

// Where a window and a body end.
#[derive(Drop)]
struct Run {
    window: WindowCircuit,
    body: BodyCircuit,
}

// The window and the body over new inputs.
fn run_both(
    alloc: Global,
    gates: &mut Gates,
    rows: &[WindowRow],
    lines: &[BodyLine],
    widths: [u8; 64],
    homes: [Field; 20],
) -> Result<Run, NoMemory>
    requires rows { All IsWindowRow rows.now }
    requires lines { All IsBodyLine lines.now }
    requires widths { AreWidths widths }
    requires homes { All IsField homes }
    ensures makes { IfOk result (λ r. record { window = window_made r.window gates.new.nodes.keys; body = body_made r.body gates.new.nodes.keys } ≡ run_term ⟦<Gates as Alg>⟧.ops rows.now lines.now widths homes gates.old.nodes.keys) }
    ensures window_owned { IfOk result (λ r. WindowOwned (length gates.new.nodes.keys) r.window) }
    ensures body_owned { IfOk result (λ r. BodyOwned (length gates.new.nodes.keys) r.body) }
    ensures chosen { IfOk result (λ r. (t : ℕ → ℕ) (picks : ℕ → Pick) → AreWithin widths t → ArePicks picks → CanChoose gates.old.nodes.keys gates.new.nodes.keys (λ w. AllAgree gates.new.nodes.keys w → ShowsWindow w r.window (guest_steps (length rows.now) (always (loaded_bytes t)) (row_at rows.now) (window_begins t)) × ShowsBody w r.body (host_steps (length lines.now) (always (loaded_bytes t)) (line_at lines.now) picks (body_begins homes t)))) }
{
    let inputs = input_places(gates, widths)?;
    let bytes = start_bytes(&inputs);
    let mut window = window_start(alloc, gates, &inputs);
    let mut body = body_start(alloc, gates, homes, &inputs)?;
    all_rows(gates, rows, bytes, &mut window)?;
    all_lines(gates, lines, bytes, &mut body)?;
    Ok(Run { window, body })
}

/// The formula that says that, of some inputs and some choices of the processor, a window and a body differ in a place that is
/// asked for, in an access, or in the branch. Where the accesses differ in number, way or width it has no clause.
/// It is exactly that of the gates of the new inputs, the rows, the lines, the branch's condition and the pairs, in this order.
///
/// `widths` are the inputs' bits by place, `homes` the bits of inputs that the home page's bytes from 128 on hold at the start,
/// `take` an op whose condition is the branch's.
pub fn formula_of(
    alloc: Global,
    rows: &[WindowRow],
    lines: &[BodyLine],
    take: &Option<Op>,
    widths: [u8; 64],
    homes: [Field; 20],
    ends: &[End],
) -> Result<Formula, NoMemory>
    requires rows { All IsWindowRow rows.now }
    requires lines { All IsBodyLine lines.now }
    requires take { IsTake take.now }
    requires widths { AreWidths widths }
    requires homes { All IsField homes }
    requires ends { All IsEnd ends.now }
    ensures makes { IfOk result (λ f. IsFormulaOf (rule_made ⟦<Node as PartialEq>⟧.eq rows.now lines.now take.now widths homes ends.now) f) }
    ensures formula { IfOk result (λ f. IsFormula f) }
    ensures sound { IfOk result (λ f. ¬ IsSatisfiable f.clauses → IsSoundFor rows.now lines.now take.now widths homes ends.now) }
    ensures memory { IfOk result (λ f. ¬ IsSatisfiable f.clauses → IsSoundOver rows.now lines.now take.now widths homes ends.now) }
{
    let mut gates = Gates::fresh(alloc);
    let run = run_both(alloc, &mut gates, rows, lines, widths, homes)?;
    let mut pairs = Vec::new(alloc);
    push_pairs(&mut gates, &mut pairs, take, ends, &run.window, &run.body)?;
    same_accesses_load_alike();
    inputs_extend(&gates);
    formula_of_pairs(alloc, &mut gates, &pairs)
}
