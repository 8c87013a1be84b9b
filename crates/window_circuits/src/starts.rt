//! Where a window and a body begin.

ghost use Rattle.std.specs.Prelude.{◌≡◌, ◌≤◌, ℕ, Bool, IfOk, length};
ghost use Rattle.std.specs.List.{All};
ghost use Rattle.circuit.specs.Prelude.{lit_truth, lit_reach, word_value, word_reach_below, AllAgree, IsLater};
ghost use Rattle.access_circuits.specs.Bytes.{HoldsBytes, BytesOwned};
ghost use Rattle.place_circuits.specs.Places.{HoldsPlaces, PlacesOwned};
ghost use Rattle.place_circuits.specs.Fields.{IsField};
ghost use Rattle.row_circuits.specs.Windows.{ShowsWindow, WindowOwned};
ghost use Rattle.row_circuits.specs.Bodies.{ShowsBody, BodyOwned};
ghost use Rattle.window_circuits.specs.Starts.{xer_of, loaded_bytes, window_begins, with_homes, body_begins};
ghost use Rattle.row_circuits.specs.WindowTerms.{window_made};
ghost use Rattle.row_circuits.specs.BodyTerms.{body_made};
ghost use Rattle.window_circuits.specs.Terms.{xer_term, window_start_term, homes_term, body_start_term, start_bytes_term};

use circuit::{Gates, Lit};
use place_circuits::{Field, Places, read_field};
use row_circuits::{BodyCircuit, WindowCircuit};
use std::alloc::Global;
use word_kit::{Alg, NoMemory};

fn whole_xer(gates: &mut Gates, inputs: &Places) -> [Lit; 32]
    requires inputs_owned { PlacesOwned (length gates.old.nodes.keys) inputs.now }
    ensures same { gates.new ≡ gates.old }
    ensures makes { result ≡ xer_term ⟦<Gates as Alg>⟧.ops inputs.now }
    ensures owned { word_reach_below 32 result ≤ length gates.new.nodes.keys }
    ensures means { (w : ℕ → Bool) (t : ℕ → ℕ) → HoldsPlaces w inputs.now t → word_value 32 result w ≡ xer_of t }
{
    let ca = gates.bit(inputs.words[8], 0);
    let ov = gates.bit(inputs.words[9], 0);
    let so = gates.bit(inputs.words[10], 0);
    let with_ca = gates.put_bit(inputs.words[7], 29, ca);
    let with_ov = gates.put_bit(with_ca, 30, ov);
    gates.put_bit(with_ov, 31, so)
}

/// A window before its first row.
#[tactic(auto, using(crate::proofs::Starting::no_accesses, crate::proofs::Starting::no_accesses_owned))]
pub fn window_start(alloc: Global, gates: &mut Gates, inputs: &Places) -> WindowCircuit
    requires inputs_owned { PlacesOwned (length gates.old.nodes.keys) inputs.now }
    ensures same { gates.new ≡ gates.old }
    ensures makes { window_made result gates.new.nodes.keys ≡ window_start_term ⟦<Gates as Alg>⟧.ops inputs.now gates.old.nodes.keys }
    ensures owned { WindowOwned (length gates.new.nodes.keys) result }
    ensures means { (w : ℕ → Bool) (t : ℕ → ℕ) → HoldsPlaces w inputs.now t → ShowsWindow w result (window_begins t) }
{
    let mut places = *inputs;
    let xer = whole_xer(gates, inputs);
    places.put(7, xer);
    let taken = gates.flag(false);
    WindowCircuit {
        places,
        accesses: Vec::new(alloc),
        taken,
    }
}

// The inputs, and behind them the bytes of the homes.
fn host_places(gates: &mut Gates, homes: [Field; 20], inputs: &Places) -> Result<Places, NoMemory>
    requires homes { All IsField homes }
    requires inputs_owned { PlacesOwned (length gates.old.nodes.keys) inputs.now }
    ensures later { IsLater gates.old.nodes.keys gates.new.nodes.keys }
    ensures makes { IfOk result (λ r. record { places = r; held = gates.new.nodes.keys } ≡ homes_term ⟦<Gates as Alg>⟧.ops 20 homes inputs.now gates.old.nodes.keys) }
    ensures owned { IfOk result (λ r. PlacesOwned (length gates.new.nodes.keys) r) }
    ensures means { IfOk result (λ r. (w : ℕ → Bool) (t : ℕ → ℕ) → AllAgree gates.new.nodes.keys w → HoldsPlaces w inputs.now t → HoldsPlaces w r (with_homes 20 homes t)) }
{
    let mut places = *inputs;
    for i in 0..20 {
        let byte = read_field(gates, homes[i], inputs)?;
        places.put(32 + i as u8, byte);
    }
    Ok(places)
}

/// A body before its first line.
#[tactic(auto, using(crate::proofs::Starting::no_accesses, crate::proofs::Starting::no_accesses_owned))]
pub fn body_start(
    alloc: Global,
    gates: &mut Gates,
    homes: [Field; 20],
    inputs: &Places,
) -> Result<BodyCircuit, NoMemory>
    requires homes { All IsField homes }
    requires inputs_owned { PlacesOwned (length gates.old.nodes.keys) inputs.now }
    ensures later { IsLater gates.old.nodes.keys gates.new.nodes.keys }
    ensures makes { IfOk result (λ r. body_made r gates.new.nodes.keys ≡ body_start_term ⟦<Gates as Alg>⟧.ops homes inputs.now gates.old.nodes.keys) }
    ensures owned { IfOk result (λ r. BodyOwned (length gates.new.nodes.keys) r) }
    ensures means { IfOk result (λ r. (w : ℕ → Bool) (t : ℕ → ℕ) → AllAgree gates.new.nodes.keys w → HoldsPlaces w inputs.now t → ShowsBody w r (body_begins homes t)) }
{
    let places = host_places(gates, homes, inputs)?;
    let cf = gates.bit(inputs.words[16], 0);
    let zf = gates.bit(inputs.words[17], 0);
    let sf = gates.bit(inputs.words[18], 0);
    let of = gates.bit(inputs.words[19], 0);
    Ok(BodyCircuit {
        places,
        cf,
        zf,
        sf,
        of,
        accesses: Vec::new(alloc),
    })
}

/// The bytes that a load finds.
pub fn start_bytes(inputs: &Places) -> [[Lit; 32]; 4]
    ensures makes { result ≡ start_bytes_term inputs.now }
    ensures owned { (m : ℕ) → PlacesOwned m inputs.now → BytesOwned m result }
    ensures means { (w : ℕ → Bool) (t : ℕ → ℕ) → HoldsPlaces w inputs.now t → HoldsBytes w result (loaded_bytes t) }
{
    let b0 = inputs.words[23];
    let b1 = inputs.words[24];
    let b2 = inputs.words[25];
    let b3 = inputs.words[26];
    [b0, b1, b2, b3]
}
