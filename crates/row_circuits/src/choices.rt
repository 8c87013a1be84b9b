//! What the processor chooses.

ghost use Rattle.std.specs.Prelude.{◌≡◌, ◌≤◌, ◌<◌, ◌^◌, ◌&&◌, if◌then◌else◌, ℕ, Bool, IfOk, length};
ghost use Rattle.circuit.specs.Prelude.{lit_truth, lit_reach, word_value, word_reach_below, IsLater};
ghost use Rattle.chosen_inputs.specs.Choices.{CanChoose};
ghost use Rattle.row_runs.specs.Bodies.{Pick};
ghost use Rattle.row_circuits.specs.Choices.{ShowsPick, ChoiceOwned, left_pick};
ghost use Rattle.row_circuits.specs.ChoiceTerms.{flag_where_term, word_where_term, choice_term};

use chosen_inputs::{input_flag, input_word};
use circuit::{Gates, Lit};
use word_kit::{Alg, NoMemory};

/// What an op may leave undefined: its result, and each flag.
#[derive(Clone, Copy)]
pub struct Leaves {
    pub value: bool,
    pub cf: bool,
    pub zf: bool,
    pub sf: bool,
    pub of: bool,
}

/// What the processor chooses for one op.
#[derive(Clone, Copy)]
pub struct Choice {
    pub value: [Lit; 32],
    pub cf: Lit,
    pub zf: Lit,
    pub sf: Lit,
    pub of: Lit,
}

// A new input where that is asked, else false.
fn flag_where(gates: &mut Gates, asked: bool) -> Result<Lit, NoMemory>
    ensures later { IsLater gates.old.nodes.keys gates.new.nodes.keys }
    ensures makes { IfOk result (λ r. record { flag = r; held = gates.new.nodes.keys } ≡ flag_where_term ⟦<Gates as Alg>⟧.ops asked gates.old.nodes.keys) }
    ensures owned { IfOk result (λ r. lit_reach r ≤ length gates.new.nodes.keys) }
    ensures chosen { IfOk result (λ r. (b : Bool) → CanChoose gates.old.nodes.keys gates.new.nodes.keys (λ w. lit_truth r w ≡ (asked && b))) }
{
    if asked {
        input_flag(gates)
    } else {
        Ok(gates.flag(false))
    }
}

// A word of new inputs where that is asked, else zero.
fn word_where(gates: &mut Gates, asked: bool) -> Result<[Lit; 32], NoMemory>
    ensures later { IsLater gates.old.nodes.keys gates.new.nodes.keys }
    ensures makes { IfOk result (λ r. record { word = r; held = gates.new.nodes.keys } ≡ word_where_term ⟦<Gates as Alg>⟧.ops asked gates.old.nodes.keys) }
    ensures owned { IfOk result (λ r. word_reach_below 32 r ≤ length gates.new.nodes.keys) }
    ensures chosen { IfOk result (λ r. (n : ℕ) → n < 2 ^ 32 → CanChoose gates.old.nodes.keys gates.new.nodes.keys (λ w. word_value 32 r w ≡ (if asked then n else 0))) }
{
    if asked {
        input_word(gates, 32)
    } else {
        Ok(gates.lit(0))
    }
}

/// New inputs for what an op may leave undefined: the result's first, then those of CF, ZF, SF and OF. What it defines is 0 or
/// false. Every choice of the processor can be chosen for them.
pub fn new_choice(gates: &mut Gates, leaves: Leaves) -> Result<Choice, NoMemory>
    ensures later { IsLater gates.old.nodes.keys gates.new.nodes.keys }
    ensures makes { IfOk result (λ r. record { choice = r; held = gates.new.nodes.keys } ≡ choice_term ⟦<Gates as Alg>⟧.ops leaves gates.old.nodes.keys) }
    ensures owned { IfOk result (λ r. ChoiceOwned (length gates.new.nodes.keys) r) }
    ensures chosen { IfOk result (λ r. (pick : Pick) → pick.value < 2 ^ 32 → CanChoose gates.old.nodes.keys gates.new.nodes.keys (λ w. ShowsPick w r (left_pick leaves pick))) }
{
    let value = word_where(gates, leaves.value)?;
    let cf = flag_where(gates, leaves.cf)?;
    let zf = flag_where(gates, leaves.zf)?;
    let sf = flag_where(gates, leaves.sf)?;
    let of = flag_where(gates, leaves.of)?;
    Ok(Choice {
        value,
        cf,
        zf,
        sf,
        of,
    })
}
