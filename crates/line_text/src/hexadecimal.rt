//! Numbers that are read in hexadecimal, in lower case.

ghost use Rattle.std.specs.Prelude.{◌≡◌, ◌≢◌, ◌↔◌, ◌≤◌, ◌<◌, ◌^◌, ℕ, length, IsTrue, MatchOption};
ghost use Rattle.std.specs.Int.{w32, to_be_bytes};
ghost use Rattle.hex.specs.Hex.{encode_lower};

use crate::pieces::is;

/// Whether the text is that of the bytes, of which there are at most twelve, in two digits each.
pub fn is_hexadecimal(text: &[u8], bytes: &[u8]) -> bool
    requires { length bytes.now ≤ 12 }
    ensures { IsTrue result ↔ (text.now ≡ encode_lower bytes.now) }
{
    let mut digits = [0; 24];
    let len = 2 * bytes.len();
    hex::encode_to_slice(bytes, &mut digits[..len]).unwrap();
    is(text, &digits[..len])
}

// The word of these four bytes, the highest first, if the text is theirs.
fn word_in(text: &[u8], bytes: &[u8]) -> Option<u32>
    requires { length bytes.now ≡ 4 }
    ensures { MatchOption result
        (text.now ≢ encode_lower bytes.now)
        (λ w. text.now ≡ encode_lower (to_be_bytes w32 w)) }
{
    if is_hexadecimal(text, bytes) {
        Some(u32::from_be_bytes([bytes[0], bytes[1], bytes[2], bytes[3]]))
    } else {
        None
    }
}

/// The word that the text has in eight digits, the highest first.
pub fn word_of(text: &[u8]) -> Option<u32>
    ensures { MatchOption result
        ((w : ℕ) → w < 2 ^ 32 → text.now ≢ encode_lower (to_be_bytes w32 w))
        (λ w. text.now ≡ encode_lower (to_be_bytes w32 w)) }
{
    let mut bytes = [0; 4];
    if hex::decode_to_slice(text, &mut bytes).is_err() {
        return None;
    }
    word_in(text, &bytes)
}
