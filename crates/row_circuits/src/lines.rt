//! Lines of a body.

ghost use Rattle.std.specs.Prelude.{◌≡◌, ◌≤◌, ◌<◌, ◌^◌, ◌++◌, List, ℕ, Bool, false, IfOk, OnOk, length};
ghost use Rattle.circuit.specs.Prelude.{lit_truth, lit_reach, word_value, word_reach_below, AllAgree, free_count, IsLater, MayUntie};
ghost use Rattle.ia_codec.specs.Prelude.{IsInProfile};
ghost use Rattle.ia_alu.specs.Values.{is_product};
ghost use Rattle.chosen_inputs.specs.Choices.{CanChoose};
ghost use Rattle.row_runs.specs.Accesses.{Accessed, always, little_number};
ghost use Rattle.row_runs.specs.Bodies.{Pick, BodyRun, operand as run_operand, operand_accesses, result_accesses, host_step, condition_holds};
ghost use Rattle.access_circuits.specs.Bytes.{HoldsBytes, BytesOwned};
ghost use Rattle.access_circuits.specs.Lists.{AreAccesses, AccessesOwned};
ghost use Rattle.place_circuits.specs.Places.{HoldsPlaces, PlacesOwned};
ghost use Rattle.place_circuits.specs.Results.{AreResults};
ghost use Rattle.row_circuits.specs.Bodies.{IsOperand, IsBodyLine, operand_read, stored_to, line_of, ShowsBody, BodyOwned};
ghost use Rattle.row_circuits.specs.BodyTerms.{operand_term, stored_term, body_made, line_made, condition_term};

use crate::choices::{Leaves, new_choice};
use access_circuits::{AccessWords, big_word, bytes_of, little_word, push_access};
use circuit::{Gates, Lit};
use ia_alu::{HostEffect, HostIn, effect};
use ia_codec::Op;
use place_circuits::{Address, Places, Results, Source, put_results, read_address, read_source};
use word_kit::{Alg, NoMemory};

/// The second operand of an op: one of its own, or so many bytes that are loaded from an address on.
#[derive(Clone, Copy)]
pub enum Operand {
    Own(Source),
    Loaded(Address, u8),
}

/// A line of a body: its op, what it may leave undefined, its operands, and where its results go. edx is at place 15.
#[derive(Clone, Copy)]
pub struct BodyLine {
    pub op: Op,
    pub leaves: Leaves,
    pub x: Source,
    pub y: Operand,
    pub results: Results,
}

/// Where a body stands: its places, its flags, and its accesses so far.
#[derive(Drop)]
pub struct BodyCircuit {
    pub places: Places,
    pub cf: Lit,
    pub zf: Lit,
    pub sf: Lit,
    pub of: Lit,
    pub accesses: Vec<AccessWords>,
}

// The second operand, and its access.
fn read_operand(
    gates: &mut Gates,
    operand: Operand,
    bytes: [[Lit; 32]; 4],
    places: &Places,
    accesses: &mut Vec<AccessWords>,
) -> Result<[Lit; 32], NoMemory>
    requires operand { IsOperand operand }
    requires bytes_owned { BytesOwned (length gates.old.nodes.keys) bytes }
    requires places_owned { PlacesOwned (length gates.old.nodes.keys) places.now }
    requires accesses_owned { AccessesOwned (length gates.old.nodes.keys) accesses.old.items }
    ensures later { IsLater gates.old.nodes.keys gates.new.nodes.keys }
    ensures makes { IfOk result (λ r. record { word = r; accesses = accesses.new.items; held = gates.new.nodes.keys } ≡ operand_term ⟦<Gates as Alg>⟧.ops operand bytes places.now accesses.old.items gates.old.nodes.keys) }
    ensures owned { IfOk result (λ r. word_reach_below 32 r ≤ length gates.new.nodes.keys) }
    ensures accesses_owned { OnOk result (AccessesOwned (length gates.new.nodes.keys) accesses.new.items) }
    ensures means { IfOk result (λ r. (w : ℕ → Bool) (t f : ℕ → ℕ) → AllAgree gates.new.nodes.keys w → HoldsPlaces w places.now t → HoldsBytes w bytes f → word_value 32 r w ≡ run_operand (always f) (operand_read operand) t) }
    ensures accesses { OnOk result ((w : ℕ → Bool) (t : ℕ → ℕ) (ts : List Accessed) → AllAgree gates.new.nodes.keys w → HoldsPlaces w places.now t → AreAccesses w accesses.old.items ts → AreAccesses w accesses.new.items (ts ++ operand_accesses (operand_read operand) t)) }
{
    match operand {
        Operand::Own(source) => read_source(gates, source, places),
        Operand::Loaded(from, width) => {
            let at = read_address(gates, &from, places)?;
            let stored = gates.lit(0);
            push_access(
                accesses,
                AccessWords {
                    loads: true,
                    width,
                    address: at,
                    stored,
                },
            )?;
            Ok(little_word(gates, bytes, width))
        }
    }
}

// The access of a result that is stored, at an address over the places before the op.
fn push_result(
    gates: &mut Gates,
    results: Results,
    x: [Lit; 32],
    places: &Places,
    accesses: &mut Vec<AccessWords>,
) -> Result<(), NoMemory>
    requires results { AreResults results }
    requires x_owned { word_reach_below 32 x ≤ length gates.old.nodes.keys }
    requires places_owned { PlacesOwned (length gates.old.nodes.keys) places.now }
    requires accesses_owned { AccessesOwned (length gates.old.nodes.keys) accesses.old.items }
    ensures later { IsLater gates.old.nodes.keys gates.new.nodes.keys }
    ensures makes { OnOk result (record { accesses = accesses.new.items; held = gates.new.nodes.keys } ≡ stored_term ⟦<Gates as Alg>⟧.ops results x places.now accesses.old.items gates.old.nodes.keys) }
    ensures owned { OnOk result (AccessesOwned (length gates.new.nodes.keys) accesses.new.items) }
    ensures means { OnOk result ((w : ℕ → Bool) (t : ℕ → ℕ) (n : ℕ) (ts : List Accessed) → AllAgree gates.new.nodes.keys w → HoldsPlaces w places.now t → word_value 32 x w ≡ n → AreAccesses w accesses.old.items ts → AreAccesses w accesses.new.items (ts ++ result_accesses (stored_to results) n t)) }
{
    if let Results::Store(to, width) = results {
        let at = read_address(gates, &to, places)?;
        let split = bytes_of(gates, x);
        let stored = big_word(gates, split, width);
        push_access(
            accesses,
            AccessWords {
                loads: false,
                width,
                address: at,
                stored,
            },
        )?;
    }
    Ok(())
}

/// One line more: its operands, then new inputs for what it may leave undefined, then its effect, then where its results go.
/// `bytes` are those that its load finds, wherever it loads.
pub fn one_line(
    gates: &mut Gates,
    line: &BodyLine,
    bytes: [[Lit; 32]; 4],
    body: &mut BodyCircuit,
) -> Result<(), NoMemory>
    requires line { IsBodyLine line.now }
    requires body_owned { BodyOwned (length gates.old.nodes.keys) body.old }
    requires bytes_owned { BytesOwned (length gates.old.nodes.keys) bytes }
    ensures later { MayUntie gates.old.nodes.keys gates.new.nodes.keys }
    ensures opaque { is_product line.now.op ≡ false → free_count gates.new.nodes.keys ≡ free_count gates.old.nodes.keys }
    ensures makes { OnOk result (body_made body.new gates.new.nodes.keys ≡ line_made Gates ⟦<Gates as Alg>⟧.ops line.now bytes (body_made body.old gates.old.nodes.keys)) }
    ensures owned { OnOk result (BodyOwned (length gates.new.nodes.keys) body.new) }
    ensures means { OnOk result ((run : BodyRun) (pick : Pick) (f : ℕ → ℕ) → pick.value < 2 ^ 32 → CanChoose gates.old.nodes.keys gates.new.nodes.keys (λ w. AllAgree gates.new.nodes.keys w → ShowsBody w body.old run → HoldsBytes w bytes f → ShowsBody w body.new (host_step (always f) (line_of line.now) pick run))) }
{
    let x = read_source(gates, line.x, &body.places)?;
    let y = read_operand(gates, line.y, bytes, &body.places, &mut body.accesses)?;
    let choice = new_choice(gates, line.leaves)?;
    let free = choice.value;
    let high = body.places.words[15];
    let from = HostIn {
        x,
        y,
        high,
        cf: body.cf,
        zf: body.zf,
        sf: body.sf,
        of: body.of,
        free,
        free_cf: choice.cf,
        free_zf: choice.zf,
        free_sf: choice.sf,
        free_of: choice.of,
    };
    let e: HostEffect<Gates> = effect(gates, &line.op, &from)?;
    push_result(
        gates,
        line.results,
        e.result,
        &body.places,
        &mut body.accesses,
    )?;
    put_results(gates, line.results, e.result, e.high, &mut body.places);
    body.cf = e.cf;
    body.zf = e.zf;
    body.sf = e.sf;
    body.of = e.of;
    Ok(())
}

/// Whether the condition of an op holds on the flags that a body left.
pub fn condition(gates: &mut Gates, op: &Op, body: &BodyCircuit) -> Result<Lit, NoMemory>
    requires profile { IsInProfile op.now }
    requires body_owned { BodyOwned (length gates.old.nodes.keys) body.now }
    ensures later { MayUntie gates.old.nodes.keys gates.new.nodes.keys }
    ensures opaque { is_product op.now ≡ false → free_count gates.new.nodes.keys ≡ free_count gates.old.nodes.keys }
    ensures makes { IfOk result (λ r. record { flag = r; held = gates.new.nodes.keys } ≡ condition_term Gates ⟦<Gates as Alg>⟧.ops op.now (body_made body.now gates.old.nodes.keys)) }
    ensures owned { IfOk result (λ r. lit_reach r ≤ length gates.new.nodes.keys) }
    ensures means { IfOk result (λ r. (w : ℕ → Bool) (run : BodyRun) → AllAgree gates.new.nodes.keys w → ShowsBody w body.now run → lit_truth r w ≡ condition_holds op.now run) }
{
    let zero = gates.lit(0);
    let no = gates.flag(false);
    let from = HostIn {
        x: zero,
        y: zero,
        high: zero,
        cf: body.cf,
        zf: body.zf,
        sf: body.sf,
        of: body.of,
        free: zero,
        free_cf: no,
        free_zf: no,
        free_sf: no,
        free_of: no,
    };
    let e: HostEffect<Gates> = effect(gates, op, &from)?;
    Ok(e.holds)
}
