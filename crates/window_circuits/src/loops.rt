//! Rows and lines one after another.

ghost use Rattle.std.specs.Prelude.{◌≡◌, ◌≤◌, List, ℕ, Bool, OnOk, length};
ghost use Rattle.std.specs.List.{All};
ghost use Rattle.circuit.specs.Prelude.{AllAgree, MayUntie};
ghost use Rattle.chosen_inputs.specs.Choices.{CanChoose};
ghost use Rattle.row_runs.specs.Accesses.{always};
ghost use Rattle.row_runs.specs.Windows.{WindowRun, guest_steps};
ghost use Rattle.row_runs.specs.Bodies.{BodyRun, Pick, host_steps};
ghost use Rattle.access_circuits.specs.Bytes.{HoldsBytes, BytesOwned};
ghost use Rattle.row_circuits.specs.Windows.{IsWindowRow, ShowsWindow, WindowOwned};
ghost use Rattle.row_circuits.specs.Bodies.{IsBodyLine, ShowsBody, BodyOwned};
ghost use Rattle.window_circuits.specs.Starts.{ArePicks};
ghost use Rattle.window_circuits.specs.Runs.{row_at, line_at};
ghost use Rattle.row_circuits.specs.WindowTerms.{window_made};
ghost use Rattle.row_circuits.specs.BodyTerms.{body_made};
ghost use Rattle.window_circuits.specs.Terms.{rows_made, lines_made};

use circuit::{Gates, Lit};
use row_circuits::{BodyCircuit, BodyLine, WindowCircuit, WindowRow, one_line, one_row};
use word_kit::{Alg, NoMemory};

/// The rows of a window, each over what the one before left. `bytes` are those that every load finds.
pub fn all_rows(
    gates: &mut Gates,
    rows: &[WindowRow],
    bytes: [[Lit; 32]; 4],
    window: &mut WindowCircuit,
) -> Result<(), NoMemory>
    requires rows { All IsWindowRow rows.now }
    requires window_owned { WindowOwned (length gates.old.nodes.keys) window.old }
    requires bytes_owned { BytesOwned (length gates.old.nodes.keys) bytes }
    ensures later { MayUntie gates.old.nodes.keys gates.new.nodes.keys }
    ensures makes { OnOk result (window_made window.new gates.new.nodes.keys ≡ rows_made ⟦<Gates as Alg>⟧.ops (length rows.now) rows.now bytes (window_made window.old gates.old.nodes.keys)) }
    ensures owned { OnOk result (WindowOwned (length gates.new.nodes.keys) window.new) }
    ensures means { OnOk result ((w : ℕ → Bool) (run : WindowRun) (f : ℕ → ℕ) → AllAgree gates.new.nodes.keys w → ShowsWindow w window.old run → HoldsBytes w bytes f → ShowsWindow w window.new (guest_steps (length rows.now) (always f) (row_at rows.now) run)) }
{
    for i in 0..rows.len() {
        one_row(gates, &rows[i], bytes, window)?;
    }
    Ok(())
}

/// The lines of a body, one after another. `bytes` are those that every load finds.
pub fn all_lines(
    gates: &mut Gates,
    lines: &[BodyLine],
    bytes: [[Lit; 32]; 4],
    body: &mut BodyCircuit,
) -> Result<(), NoMemory>
    requires lines { All IsBodyLine lines.now }
    requires body_owned { BodyOwned (length gates.old.nodes.keys) body.old }
    requires bytes_owned { BytesOwned (length gates.old.nodes.keys) bytes }
    ensures later { MayUntie gates.old.nodes.keys gates.new.nodes.keys }
    ensures makes { OnOk result (body_made body.new gates.new.nodes.keys ≡ lines_made ⟦<Gates as Alg>⟧.ops (length lines.now) lines.now bytes (body_made body.old gates.old.nodes.keys)) }
    ensures owned { OnOk result (BodyOwned (length gates.new.nodes.keys) body.new) }
    ensures means { OnOk result ((run : BodyRun) (picks : ℕ → Pick) (f : ℕ → ℕ) → ArePicks picks → CanChoose gates.old.nodes.keys gates.new.nodes.keys (λ w. AllAgree gates.new.nodes.keys w → ShowsBody w body.old run → HoldsBytes w bytes f → ShowsBody w body.new (host_steps (length lines.now) (always f) (line_at lines.now) picks run))) }
{
    for i in 0..lines.len() {
        one_line(gates, &lines[i], bytes, body)?;
    }
    Ok(())
}
