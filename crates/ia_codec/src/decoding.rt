//! From bytes to ops.

ghost use Rattle.std.specs.Prelude.{◌≡◌, ℕ, List, ◌++◌, IfSome, MatchOption, Option, Some};
ghost use Rattle.ia_codec.specs.Spelling.{IsSpelt, IsInProfile, IsReading, spelling};
ghost use Rattle.ia_codec.specs.declared.op.Op.{Op};

use crate::encoding::encode;
use crate::op::Op;
use crate::profile::in_profile;
use crate::reading::candidate;

// How long the spelling of the op is, if it is in the profile and the bytes begin with it.
fn spelled_len(op: Op, bytes: &[u8]) -> Option<usize>
    ensures { MatchOption result ((k : ℕ) → IsSpelt op bytes.now k → ⊥) (λ k. IsSpelt op bytes.now k) }
{
    if !in_profile(&op) {
        return None;
    }
    let spelled = encode(&op);
    let len = spelled.len as usize;
    if bytes.starts_with(&spelled.bytes[..len]) {
        Some(len)
    } else {
        None
    }
}

/// The op whose spelling the bytes begin with, and how many bytes that is: None exactly where they begin with none.
pub fn decode(bytes: &[u8]) -> Option<(Op, usize)>
    ensures found { IfSome result (λ x. IsSpelt x.0 bytes.now x.1) }
    ensures only { (op : Op) (k : ℕ) → IsSpelt op bytes.now k → result ≡ Some (op, k) }
{
    let (op, _) = candidate(bytes)?;
    let len = spelled_len(op, bytes)?;
    Some((op, len))
}

/// No spelling begins another.
pub fn one_spelling()
    ensures { (a b : Op) (x y : List ℕ) → IsInProfile a → IsInProfile b → spelling a ++ x ≡ spelling b ++ y → a ≡ b }
{}

/// There is a reading of bytes, and there is no other.
pub fn one_reading()
    ensures exists { (reading : List ℕ → Option (Op × ℕ)) × IsReading reading }
    ensures agree { (f g : List ℕ → Option (Op × ℕ)) → IsReading f → IsReading g → (bytes : List ℕ) → f bytes ≡ g bytes }
{}
