//! Rows of a window.

ghost use Rattle.std.specs.Prelude.{◌≡◌, ◌≤◌, ◌<◌, ◌++◌, List, ℕ, Bool, false, IfOk, OnOk, length};
ghost use Rattle.circuit.specs.Prelude.{lit_truth, lit_reach, word_value, word_reach_below, AllAgree, free_count, IsLater, MayUntie};
ghost use Rattle.ppc_isa.specs.Effect.{Effect as Outcome};
ghost use Rattle.ppc_isa.specs.Rows.{guest_row};
ghost use Rattle.ppc_parts.specs.Prelude.{IsOwned, values_of, EffectOwned, effect_of};
ghost use Rattle.ppc_alu.specs.RowTerms.{is_product_row};
ghost use Rattle.row_runs.specs.Accesses.{Accessed, always};
ghost use Rattle.row_runs.specs.Windows.{WindowRun, with_loaded, row_effect as run_effect, row_accesses, guest_step};
ghost use Rattle.access_circuits.specs.Bytes.{HoldsBytes, BytesOwned};
ghost use Rattle.access_circuits.specs.Lists.{AreAccesses, AccessesOwned};
ghost use Rattle.place_circuits.specs.Places.{HoldsPlaces, PlacesOwned};
ghost use Rattle.row_circuits.specs.Windows.{IsTarget, IsWindowRow, loaded_number, with_target, row_reads, row_puts, row_of, ShowsWindow, WindowOwned};
ghost use Rattle.row_circuits.specs.WindowTerms.{values_term, loaded_term, effect_term, target_term, effect_put_term, accesses_term, window_made, row_made};

use access_circuits::{AccessWords, big_word, push_access};
use circuit::{Gates, Lit};
use place_circuits::{Places, Source, lowest, read_source};
use ppc_alu::{Access, Effect, GuestIn, effect};
use ppc_isa::Instr;
use row_runs::rows_are_prompt;
use word_kit::{Alg, NoMemory};

/// A row of a window: its instruction, how many bytes it loads, what it reads as rA, as rB or immediate, and as rS, and the
/// places to which its results for rD and rA go. CR and XER are at places 6 and 7, LR and CTR at 11 and 12.
#[derive(Clone, Copy)]
pub struct WindowRow {
    pub instr: Instr,
    pub width: u8,
    pub a: Source,
    pub b: Source,
    pub s: Source,
    pub d_to: Option<u8>,
    pub a_to: Option<u8>,
}

/// Where a window stands: its places, its accesses so far, and whether the last row's branch is taken.
#[derive(Drop)]
pub struct WindowCircuit {
    pub places: Places,
    pub accesses: Vec<AccessWords>,
    pub taken: Lit,
}

// What a row reads, where this word was loaded.
fn values(
    gates: &mut Gates,
    row: &WindowRow,
    loaded: [Lit; 32],
    places: &Places,
) -> Result<GuestIn<Gates>, NoMemory>
    requires row { IsWindowRow row.now }
    requires loaded_owned { word_reach_below 32 loaded ≤ length gates.old.nodes.keys }
    requires places_owned { PlacesOwned (length gates.old.nodes.keys) places.now }
    ensures later { IsLater gates.old.nodes.keys gates.new.nodes.keys }
    ensures makes { IfOk result (λ r. record { values = r; held = gates.new.nodes.keys } ≡ values_term ⟦<Gates as Alg>⟧.ops row.now loaded places.now gates.old.nodes.keys) }
    ensures owned { IfOk result (λ r. IsOwned (word_reach_below 32) (length gates.new.nodes.keys) r) }
    ensures means { IfOk result (λ r. (w : ℕ → Bool) (t : ℕ → ℕ) (n : ℕ) → AllAgree gates.new.nodes.keys w → HoldsPlaces w places.now t → word_value 32 loaded w ≡ n → values_of (λ x. word_value 32 x w) r ≡ with_loaded (row_reads row.now t) n) }
{
    let a = read_source(gates, row.a, places)?;
    let b = read_source(gates, row.b, places)?;
    let s = read_source(gates, row.s, places)?;
    let cr = places.words[6];
    let xer = places.words[7];
    let lr = places.words[11];
    let ctr = places.words[12];
    Ok(GuestIn {
        a,
        b,
        s,
        cr,
        xer,
        lr,
        ctr,
        loaded,
    })
}

// What a load of so many bytes finds, and zero where nothing is loaded. It takes no gate.
fn loaded_word(gates: &mut Gates, bytes: [[Lit; 32]; 4], width: u8) -> [Lit; 32]
    requires bytes_owned { BytesOwned (length gates.old.nodes.keys) bytes }
    ensures same { gates.new ≡ gates.old }
    ensures makes { result ≡ loaded_term ⟦<Gates as Alg>⟧.ops bytes width }
    ensures owned { word_reach_below 32 result ≤ length gates.new.nodes.keys }
    ensures means { (w : ℕ → Bool) (f : ℕ → ℕ) → HoldsBytes w bytes f → word_value 32 result w ≡ loaded_number width f }
{
    if width == 0 {
        gates.lit(0)
    } else {
        big_word(gates, bytes, width)
    }
}

// A row's effect, where its load finds the bytes.
fn row_effect(
    gates: &mut Gates,
    row: &WindowRow,
    bytes: [[Lit; 32]; 4],
    places: &Places,
) -> Result<Effect<Gates>, NoMemory>
    requires row { IsWindowRow row.now }
    requires bytes_owned { BytesOwned (length gates.old.nodes.keys) bytes }
    requires places_owned { PlacesOwned (length gates.old.nodes.keys) places.now }
    ensures later { MayUntie gates.old.nodes.keys gates.new.nodes.keys }
    ensures opaque { is_product_row row.now.instr ≡ false → free_count gates.new.nodes.keys ≡ free_count gates.old.nodes.keys }
    ensures makes { IfOk result (λ r. record { effect = r; held = gates.new.nodes.keys } ≡ effect_term ⟦<Gates as Alg>⟧.ops row.now bytes places.now gates.old.nodes.keys) }
    ensures owned { IfOk result (λ r. EffectOwned (word_reach_below 32) lit_reach (length gates.new.nodes.keys) r) }
    ensures means { IfOk result (λ r. (w : ℕ → Bool) (t f : ℕ → ℕ) → AllAgree gates.new.nodes.keys w → HoldsPlaces w places.now t → HoldsBytes w bytes f → effect_of (λ x. word_value 32 x w) (λ b. lit_truth b w) r ≡ run_effect (always f) (row_of row.now) t) }
{
    rows_are_prompt();
    let loaded = loaded_word(gates, bytes, row.width);
    let from = values(gates, row, loaded, places)?;
    effect(gates, &row.instr, &from)
}

fn put_target(places: &mut Places, target: Option<u8>, x: [Lit; 32])
    requires target { IsTarget target }
    ensures means { (w : ℕ → Bool) (t : ℕ → ℕ) (n : ℕ) → HoldsPlaces w places.old t → word_value 32 x w ≡ n → HoldsPlaces w places.new (with_target target n t) }
    ensures makes { places.new ≡ target_term target x places.old }
    ensures owned { (m : ℕ) → PlacesOwned m places.old → word_reach_below 32 x ≤ m → PlacesOwned m places.new }
{
    if let Some(place) = target {
        places.put(place, x);
    }
}

fn put_effect(places: &mut Places, row: &WindowRow, e: &Effect<Gates>)
    requires row { IsWindowRow row.now }
    ensures means { (w : ℕ → Bool) (t : ℕ → ℕ) (o : Outcome) → HoldsPlaces w places.old t → effect_of (λ x. word_value 32 x w) (λ b. lit_truth b w) e.now ≡ o → HoldsPlaces w places.new (row_puts row.now o t) }
    ensures makes { places.new ≡ effect_put_term row.now e.now places.old }
    ensures owned { (m : ℕ) → PlacesOwned m places.old → EffectOwned (word_reach_below 32) lit_reach m e.now → PlacesOwned m places.new }
{
    let d = e.d;
    put_target(places, row.d_to, d);
    let a = e.a;
    put_target(places, row.a_to, a);
    let cr = e.cr;
    places.put(6, cr);
    let xer = e.xer;
    places.put(7, xer);
    let lr = e.lr;
    places.put(11, lr);
    let ctr = e.ctr;
    places.put(12, ctr);
}

fn push_effect(
    gates: &mut Gates,
    accesses: &mut Vec<AccessWords>,
    e: &Effect<Gates>,
) -> Result<(), NoMemory>
    requires effect_owned { EffectOwned (word_reach_below 32) lit_reach (length gates.old.nodes.keys) e.now }
    ensures same { gates.new ≡ gates.old }
    ensures makes { OnOk result (accesses.new.items ≡ accesses.old.items ++ accesses_term ⟦<Gates as Alg>⟧.ops e.now.kind e.now) }
    ensures means { OnOk result ((w : ℕ → Bool) (ts : List Accessed) (o : Outcome) → AreAccesses w accesses.old.items ts → effect_of (λ x. word_value 32 x w) (λ b. lit_truth b w) e.now ≡ o → AreAccesses w accesses.new.items (ts ++ row_accesses o.kind o)) }
    ensures owned { OnOk result (AccessesOwned (length gates.old.nodes.keys) accesses.old.items → AccessesOwned (length gates.new.nodes.keys) accesses.new.items) }
{
    let address = e.address;
    let width = e.width;
    match e.kind {
        Access::None => Ok(()),
        Access::Load => {
            let stored = gates.lit(0);
            push_access(
                accesses,
                AccessWords {
                    loads: true,
                    width,
                    address,
                    stored,
                },
            )
        }
        Access::Store => {
            let stored = lowest(gates, e.stored, width);
            push_access(
                accesses,
                AccessWords {
                    loads: false,
                    width,
                    address,
                    stored,
                },
            )
        }
    }
}

/// One row more, over what the window left. `bytes` are those that its load finds, wherever it loads; their number is that of
/// the row's width.
#[tactic(auto, unfolding(crate::specs::WindowTerms::row_made))]
pub fn one_row(
    gates: &mut Gates,
    row: &WindowRow,
    bytes: [[Lit; 32]; 4],
    window: &mut WindowCircuit,
) -> Result<(), NoMemory>
    requires row { IsWindowRow row.now }
    requires window_owned { WindowOwned (length gates.old.nodes.keys) window.old }
    requires bytes_owned { BytesOwned (length gates.old.nodes.keys) bytes }
    ensures later { MayUntie gates.old.nodes.keys gates.new.nodes.keys }
    ensures opaque { is_product_row row.now.instr ≡ false → free_count gates.new.nodes.keys ≡ free_count gates.old.nodes.keys }
    ensures makes { OnOk result (window_made window.new gates.new.nodes.keys ≡ row_made Gates ⟦<Gates as Alg>⟧.ops row.now bytes (window_made window.old gates.old.nodes.keys)) }
    ensures owned { OnOk result (WindowOwned (length gates.new.nodes.keys) window.new) }
    ensures means { OnOk result ((w : ℕ → Bool) (run : WindowRun) (f : ℕ → ℕ) → AllAgree gates.new.nodes.keys w → ShowsWindow w window.old run → HoldsBytes w bytes f → ShowsWindow w window.new (guest_step (always f) (row_of row.now) run)) }
{
    let e = row_effect(gates, row, bytes, &window.places)?;
    put_effect(&mut window.places, row, &e);
    push_effect(gates, &mut window.accesses, &e)?;
    window.taken = e.taken;
    Ok(())
}
