//! Inputs.

ghost use Rattle.std.specs.Prelude.{◌≡◌, ◌≤◌, ◌<◌, ◌+◌, ◌^◌, ℕ, Bool, IfOk, OnOk, length, pos};
ghost use Rattle.circuit.specs.Prelude.{lit_truth, lit_reach, word_value, word_reach_below, IsLater};
ghost use Rattle.chosen_inputs.specs.Inputs.{with_inputs, word_of_inputs};
ghost use Rattle.chosen_inputs.specs.Choices.{CanChoose};

use circuit::{Gates, Lit};
use word_kit::{Alg, NoMemory};

/// A word of so many new inputs, the lowest bit first, with zeros above them. Every number of so many bits can be chosen for
/// it.
pub fn input_word(gates: &mut Gates, bits: usize) -> Result<[Lit; 32], NoMemory>
    requires within { bits ≤ 32 }
    ensures later { IsLater gates.old.nodes.keys gates.new.nodes.keys }
    ensures owned { IfOk result (λ r. word_reach_below 32 r ≤ length gates.new.nodes.keys) }
    ensures chosen { IfOk result (λ r. (x : ℕ) → x < 2 ^ bits → CanChoose gates.old.nodes.keys gates.new.nodes.keys (λ w. word_value 32 r w ≡ x)) }
    ensures made { IfOk result (λ r. r ≡ word_of_inputs (length gates.old.nodes.keys) bits) }
    ensures held { OnOk result (gates.new.nodes.keys ≡ with_inputs bits gates.old.nodes.keys) }
{
    let mut out = gates.lit(0);
    for i in 0..bits {
        let bit = gates.input()?;
        out[i] = bit;
    }
    Ok(out)
}

/// A new input, for which either truth can be chosen.
pub fn input_flag(gates: &mut Gates) -> Result<Lit, NoMemory>
    ensures later { IsLater gates.old.nodes.keys gates.new.nodes.keys }
    ensures owned { IfOk result (λ r. lit_reach r ≤ length gates.new.nodes.keys) }
    ensures chosen { IfOk result (λ r. (b : Bool) → CanChoose gates.old.nodes.keys gates.new.nodes.keys (λ w. lit_truth r w ≡ b)) }
    ensures made { IfOk result (λ r. r ≡ Lit.Var (pos (length gates.old.nodes.keys + 1))) }
    ensures held { OnOk result (gates.new.nodes.keys ≡ with_inputs 1 gates.old.nodes.keys) }
{
    let flag = gates.input()?;
    Ok(flag)
}
