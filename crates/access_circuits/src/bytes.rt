//! Bytes as words.

ghost use Rattle.std.specs.Prelude.{◌≡◌, ◌≤◌, ◌<◌, ◌^◌, ℕ, Bool, IfOk, length};
ghost use Rattle.word_kit.specs.Prelude.{byte_of};
ghost use Rattle.circuit.specs.Prelude.{word_value, word_reach_below, IsLater};
ghost use Rattle.chosen_inputs.specs.Choices.{CanChoose};
ghost use Rattle.row_runs.specs.Accesses.{big_number, little_number};
ghost use Rattle.access_circuits.specs.Bytes.{HoldsBytes, BytesOwned};
ghost use Rattle.access_circuits.specs.Terms.{big_term, little_term, bytes_term, input_bytes_term};

use chosen_inputs::input_word;
use circuit::{Gates, Lit};
use word_kit::{Alg, NoMemory};

/// The number that the first bytes are, 4, 2 or else 1, the first being the highest. It takes no gate.
pub fn big_word(gates: &mut Gates, bytes: [[Lit; 32]; 4], width: u8) -> [Lit; 32]
    requires bytes_owned { BytesOwned (length gates.old.nodes.keys) bytes }
    ensures same { gates.new ≡ gates.old }
    ensures makes { result ≡ big_term ⟦<Gates as Alg>⟧.ops bytes width }
    ensures owned { word_reach_below 32 result ≤ length gates.new.nodes.keys }
    ensures means { (w : ℕ → Bool) (f : ℕ → ℕ) → HoldsBytes w bytes f → word_value 32 result w ≡ big_number width f }
{
    let zero = gates.lit(0);
    let b0 = bytes[0];
    let b1 = bytes[1];
    let b2 = bytes[2];
    let b3 = bytes[3];
    if width == 4 {
        gates.join(b0, b1, b2, b3)
    } else if width == 2 {
        gates.join(zero, zero, b0, b1)
    } else {
        gates.join(zero, zero, zero, b0)
    }
}

/// The number that the first bytes are, 4, 2 or else 1, the first being the lowest. It takes no gate.
pub fn little_word(gates: &mut Gates, bytes: [[Lit; 32]; 4], width: u8) -> [Lit; 32]
    requires bytes_owned { BytesOwned (length gates.old.nodes.keys) bytes }
    ensures same { gates.new ≡ gates.old }
    ensures makes { result ≡ little_term ⟦<Gates as Alg>⟧.ops bytes width }
    ensures owned { word_reach_below 32 result ≤ length gates.new.nodes.keys }
    ensures means { (w : ℕ → Bool) (f : ℕ → ℕ) → HoldsBytes w bytes f → word_value 32 result w ≡ little_number width f }
{
    let zero = gates.lit(0);
    let b0 = bytes[0];
    let b1 = bytes[1];
    let b2 = bytes[2];
    let b3 = bytes[3];
    if width == 4 {
        gates.join(b3, b2, b1, b0)
    } else if width == 2 {
        gates.join(zero, zero, b1, b0)
    } else {
        gates.join(zero, zero, zero, b0)
    }
}

/// The bytes of a word, the lowest first. They take no gate.
pub fn bytes_of(gates: &mut Gates, x: [Lit; 32]) -> [[Lit; 32]; 4]
    requires x_owned { word_reach_below 32 x ≤ length gates.old.nodes.keys }
    ensures same { gates.new ≡ gates.old }
    ensures makes { result ≡ bytes_term ⟦<Gates as Alg>⟧.ops x }
    ensures owned { BytesOwned (length gates.new.nodes.keys) result }
    ensures means { (w : ℕ → Bool) (n : ℕ) → word_value 32 x w ≡ n → HoldsBytes w result (λ k. byte_of n k) }
{
    let b0 = gates.byte(x, 0);
    let b1 = gates.byte(x, 1);
    let b2 = gates.byte(x, 2);
    let b3 = gates.byte(x, 3);
    [b0, b1, b2, b3]
}

/// Four bytes of new inputs, for which any bytes can be chosen.
pub fn input_bytes(gates: &mut Gates) -> Result<[[Lit; 32]; 4], NoMemory>
    ensures later { IsLater gates.old.nodes.keys gates.new.nodes.keys }
    ensures makes { IfOk result (λ r. record { bytes = r; held = gates.new.nodes.keys } ≡ input_bytes_term gates.old.nodes.keys) }
    ensures owned { IfOk result (λ r. BytesOwned (length gates.new.nodes.keys) r) }
    ensures chosen { IfOk result (λ r. (f : ℕ → ℕ) → ((k : ℕ) → f k < 2 ^ 8) → CanChoose gates.old.nodes.keys gates.new.nodes.keys (λ w. HoldsBytes w r f)) }
{
    let b0 = input_word(gates, 8)?;
    let b1 = input_word(gates, 8)?;
    let b2 = input_word(gates, 8)?;
    let b3 = input_word(gates, 8)?;
    Ok([b0, b1, b2, b3])
}
