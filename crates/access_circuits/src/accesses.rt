//! Lists of accesses.

ghost use Rattle.std.specs.Prelude.{◌≡◌, ◌↔◌, ◌≤◌, ◌++◌, ◌∷◌, [], if◌then◌else◌, List, ℕ, Bool, IsTrue, IfOk, OnOk, length};
ghost use Rattle.circuit.specs.Prelude.{word_value, word_reach_below, AreOwned};
ghost use Rattle.chosen_inputs.specs.Pairs.{AreAlike};
ghost use Rattle.row_runs.specs.Accesses.{Accessed};
ghost use Rattle.access_circuits.specs.Lists.{IsAccess, AreAccesses, AccessesOwned, HaveSameShapes};
ghost use Rattle.access_circuits.specs.Terms.{is_shaped_alike, have_same_shapes, byte_pairs, access_pairs};

use chosen_inputs::{push_flag, push_word};
use circuit::Lit;
use word_kit::NoMemory;

/// An access: whether it loads, how many bytes, from which address on, and the bytes that are stored, as the number whose
/// highest byte comes first.
#[derive(Clone, Copy)]
pub struct AccessWords {
    pub loads: bool,
    pub width: u8,
    pub address: [Lit; 32],
    pub stored: [Lit; 32],
}

/// One access more.
pub fn push_access(accesses: &mut Vec<AccessWords>, access: AccessWords) -> Result<(), NoMemory>
    ensures pushed { OnOk result (accesses.new.items ≡ accesses.old.items ++ access ∷ []) }
    ensures means { OnOk result ((w : ℕ → Bool) (ts : List Accessed) (a : Accessed) → AreAccesses w accesses.old.items ts → IsAccess w access a → AreAccesses w accesses.new.items (ts ++ a ∷ [])) }
    ensures owned { OnOk result ((m : ℕ) → AccessesOwned m accesses.old.items → word_reach_below 32 access.address ≤ m → word_reach_below 32 access.stored ≤ m → AccessesOwned m accesses.new.items) }
{
    accesses.push(access)?;
    Ok(())
}

// Whether two accesses go the same way and are as wide.
fn shaped_alike(x: &AccessWords, y: &AccessWords) -> bool
    ensures { result ≡ is_shaped_alike x.now y.now }
{
    x.loads == y.loads && x.width == y.width
}

// Whether accesses agree in number, way and width.
#[tactic(auto, using(crate::proofs::Shapes::shapes_go_on))]
fn same_shapes(xs: &[AccessWords], ys: &[AccessWords]) -> bool
    ensures made { result ≡ have_same_shapes xs.now ys.now }
    ensures shapes { IsTrue result ↔ HaveSameShapes xs.now ys.now }
{
    if xs.len() != ys.len() {
        return false;
    }
    let mut same = true;
    for i in 0..xs.len() {
        let alike = shaped_alike(&xs[i], &ys[i]);
        same = same && alike;
    }
    same
}

// The bytes that are stored, as pairs, in the order of their addresses; of each byte the lowest bit first.
fn push_bytes(pairs: &mut Vec<(Lit, Lit)>, x: [Lit; 32], y: [Lit; 32]) -> Result<(), NoMemory>
    ensures pushed { OnOk result (pairs.new.items ≡ pairs.old.items ++ byte_pairs 32 x y) }
    ensures alike { OnOk result ((w : ℕ → Bool) → AreAlike w pairs.new.items → AreAlike w pairs.old.items × (word_value 32 x w ≡ word_value 32 y w)) }
    ensures owned { OnOk result ((m : ℕ) → AreOwned m pairs.old.items → word_reach_below 32 x ≤ m → word_reach_below 32 y ≤ m → AreOwned m pairs.new.items) }
{
    for i in 0..32 {
        let place = 24 - i / 8 * 8 + i % 8;
        push_flag(pairs, x[place], y[place])?;
    }
    Ok(())
}

/// Accesses that are to be the same: of each the pairs of the address and of the stored bytes. False exactly where they differ
/// in number, way or width; then there is no pair more.
pub fn pair_accesses(
    pairs: &mut Vec<(Lit, Lit)>,
    xs: &[AccessWords],
    ys: &[AccessWords],
) -> Result<bool, NoMemory>
    ensures made { IfOk result (λ same. same ≡ have_same_shapes xs.now ys.now) }
    ensures pushed { IfOk result (λ same. pairs.new.items ≡ pairs.old.items ++ (if same then access_pairs (length xs.now) xs.now ys.now else [])) }
    ensures shapes { IfOk result (λ same. IsTrue same ↔ HaveSameShapes xs.now ys.now) }
    ensures alike { IfOk result (λ same. IsTrue same → (w : ℕ → Bool) (ts us : List Accessed) → AreAlike w pairs.new.items → AreAccesses w xs.now ts → AreAccesses w ys.now us → AreAlike w pairs.old.items × (ts ≡ us)) }
    ensures owned { OnOk result ((m : ℕ) → AreOwned m pairs.old.items → AccessesOwned m xs.now → AccessesOwned m ys.now → AreOwned m pairs.new.items) }
{
    if !same_shapes(xs, ys) {
        return Ok(false);
    }
    for i in 0..xs.len() {
        let x = xs[i];
        let y = ys[i];
        push_word(pairs, x.address, y.address)?;
        push_bytes(pairs, x.stored, y.stored)?;
    }
    Ok(true)
}
