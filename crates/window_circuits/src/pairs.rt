//! What is to be the same at the end of a window and of a body.

ghost use Rattle.std.specs.Prelude.{◌≡◌, ◌≤◌, ◌++◌, List, ℕ, Bool, Option, IfOk, OnOk, length};
ghost use Rattle.std.specs.List.{All};
ghost use Rattle.circuit.specs.Prelude.{lit_truth, lit_reach, AllAgree, IsLater, MayUntie, AreOwned};
ghost use Rattle.chosen_inputs.specs.Pairs.{AreAlike};
ghost use Rattle.row_runs.specs.Windows.{WindowRun};
ghost use Rattle.row_runs.specs.Bodies.{BodyRun};
ghost use Rattle.row_runs.specs.Accesses.{Accessed};
ghost use Rattle.access_circuits.specs.Lists.{AreAccesses, AccessesOwned};
ghost use Rattle.place_circuits.specs.Places.{HoldsPlaces, PlacesOwned};
ghost use Rattle.row_circuits.specs.Windows.{ShowsWindow, WindowOwned};
ghost use Rattle.row_circuits.specs.Bodies.{ShowsBody, BodyOwned};
ghost use Rattle.window_circuits.specs.Rules.{IsEnd, IsTake, IsTaken, EndAlike, Follows};
ghost use Rattle.row_circuits.specs.WindowTerms.{window_made};
ghost use Rattle.row_circuits.specs.BodyTerms.{body_made};
ghost use Rattle.window_circuits.specs.Terms.{taken_term, ends_term, accesses_paired, pairs_term};

use access_circuits::{AccessWords, pair_accesses};
use chosen_inputs::{push_flag, push_word};
use circuit::{Gates, Lit};
use ia_codec::Op;
use place_circuits::{Field, Places, read_field};
use row_circuits::{BodyCircuit, WindowCircuit, condition};
use word_kit::{Alg, NoMemory};

/// Bits of a place of the window, and the place of the body that is to hold the number that they are.
#[derive(Clone, Copy)]
pub struct End {
    pub from: Field,
    pub to: u8,
}

// The branch and its condition, where there is one.
fn push_taken(
    gates: &mut Gates,
    pairs: &mut Vec<(Lit, Lit)>,
    take: &Option<Op>,
    window: &WindowCircuit,
    body: &BodyCircuit,
) -> Result<(), NoMemory>
    requires take { IsTake take.now }
    requires window_owned { WindowOwned (length gates.old.nodes.keys) window.now }
    requires body_owned { BodyOwned (length gates.old.nodes.keys) body.now }
    requires pairs_owned { AreOwned (length gates.old.nodes.keys) pairs.old.items }
    ensures later { MayUntie gates.old.nodes.keys gates.new.nodes.keys }
    ensures makes { OnOk result (record { pairs = pairs.new.items; held = gates.new.nodes.keys } ≡ taken_term ⟦<Gates as Alg>⟧.ops take.now window.now.taken (body_made body.now gates.old.nodes.keys) pairs.old.items) }
    ensures owned { OnOk result (AreOwned (length gates.new.nodes.keys) pairs.new.items) }
    ensures alike { OnOk result ((w : ℕ → Bool) (g : WindowRun) (h : BodyRun) → AllAgree gates.new.nodes.keys w → ShowsWindow w window.now g → ShowsBody w body.now h → AreAlike w pairs.new.items → AreAlike w pairs.old.items × IsTaken take.now g h) }
{
    match take {
        None => Ok(()),
        Some(op) => {
            let holds = condition(gates, op, body)?;
            push_flag(pairs, window.taken, holds)
        }
    }
}

fn push_ends(
    gates: &mut Gates,
    pairs: &mut Vec<(Lit, Lit)>,
    ends: &[End],
    window: &Places,
    body: &Places,
) -> Result<(), NoMemory>
    requires ends { All IsEnd ends.now }
    requires window_owned { PlacesOwned (length gates.old.nodes.keys) window.now }
    requires body_owned { PlacesOwned (length gates.old.nodes.keys) body.now }
    requires pairs_owned { AreOwned (length gates.old.nodes.keys) pairs.old.items }
    ensures later { IsLater gates.old.nodes.keys gates.new.nodes.keys }
    ensures makes { OnOk result (record { pairs = pairs.new.items; held = gates.new.nodes.keys } ≡ ends_term ⟦<Gates as Alg>⟧.ops (length ends.now) ends.now window.now body.now (record { pairs = pairs.old.items; held = gates.old.nodes.keys })) }
    ensures owned { OnOk result (AreOwned (length gates.new.nodes.keys) pairs.new.items) }
    ensures alike { OnOk result ((w : ℕ → Bool) (t u : ℕ → ℕ) → AllAgree gates.new.nodes.keys w → HoldsPlaces w window.now t → HoldsPlaces w body.now u → AreAlike w pairs.new.items → AreAlike w pairs.old.items × EndAlike ends.now t u) }
{
    for i in 0..ends.len() {
        let end = ends[i];
        let from = read_field(gates, end.from, window)?;
        push_word(pairs, from, body.words[end.to as usize])?;
    }
    Ok(())
}

// The accesses. Where they differ in number, way or width, the pair that differs under every assignment.
fn push_accesses(
    pairs: &mut Vec<(Lit, Lit)>,
    window: &[AccessWords],
    body: &[AccessWords],
) -> Result<(), NoMemory>
    ensures pushed { OnOk result (pairs.new.items ≡ pairs.old.items ++ accesses_paired window.now body.now) }
    ensures owned { OnOk result ((m : ℕ) → AreOwned m pairs.old.items → AccessesOwned m window.now → AccessesOwned m body.now → AreOwned m pairs.new.items) }
    ensures alike { OnOk result ((w : ℕ → Bool) (ts us : List Accessed) → AreAccesses w window.now ts → AreAccesses w body.now us → AreAlike w pairs.new.items → AreAlike w pairs.old.items × (ts ≡ us)) }
{
    let same = pair_accesses(pairs, window, body)?;
    if same {
        Ok(())
    } else {
        push_flag(pairs, Lit::Const(true), Lit::Const(false))
    }
}

/// The pairs that are to be the same, of the branch, of the accesses and of the ends. Where no pair differs, the body did what
/// the window did.
pub fn push_pairs(
    gates: &mut Gates,
    pairs: &mut Vec<(Lit, Lit)>,
    take: &Option<Op>,
    ends: &[End],
    window: &WindowCircuit,
    body: &BodyCircuit,
) -> Result<(), NoMemory>
    requires take { IsTake take.now }
    requires ends { All IsEnd ends.now }
    requires window_owned { WindowOwned (length gates.old.nodes.keys) window.now }
    requires body_owned { BodyOwned (length gates.old.nodes.keys) body.now }
    requires pairs_owned { AreOwned (length gates.old.nodes.keys) pairs.old.items }
    ensures later { MayUntie gates.old.nodes.keys gates.new.nodes.keys }
    ensures makes { OnOk result (record { pairs = pairs.new.items; held = gates.new.nodes.keys } ≡ pairs_term ⟦<Gates as Alg>⟧.ops take.now ends.now (window_made window.now gates.old.nodes.keys) (body_made body.now gates.old.nodes.keys) pairs.old.items) }
    ensures owned { OnOk result (AreOwned (length gates.new.nodes.keys) pairs.new.items) }
    ensures alike { OnOk result ((w : ℕ → Bool) (g : WindowRun) (h : BodyRun) → AllAgree gates.new.nodes.keys w → ShowsWindow w window.now g → ShowsBody w body.now h → AreAlike w pairs.new.items → Follows ends.now take.now g h) }
{
    push_taken(gates, pairs, take, window, body)?;
    push_accesses(pairs, &window.accesses, &body.accesses)?;
    push_ends(gates, pairs, ends, &window.places, &body.places)?;
    Ok(())
}
