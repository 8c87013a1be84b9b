// Numbers as a user writes them.
ghost use Rattle.std.specs.Prelude.{◌≡◌, ◌≢◌, ◌≤◌, ◌↔◌, ℕ, IsTrue, MatchOption, decimal};
ghost use Rattle.outside.specs.Numerals.{BeginsNumeral};

use std::str;

/// The number that the text writes in decimal: digits, without a leading 0 unless it is `0` itself.
/// None where the text is no such numeral, or the number is above `most`.
pub fn decimal(text: &[u8], most: u64) -> Option<u64>
    ensures { MatchOption result ((n : ℕ) → n ≤ most → text.now ≢ decimal n) (λ n. (n ≤ most) × (text.now ≡ decimal n)) }
{
    if !begins_numeral(text) {
        return None;
    }
    let Ok(text) = str::from_utf8(text) else {
        return None;
    };
    let Ok(number) = text.parse::<u64>() else {
        return None;
    };
    if number <= most { Some(number) } else { None }
}

// Whether a digit stands first, and a 0 there stands alone.
fn begins_numeral(text: &[u8]) -> bool
    ensures { IsTrue result ↔ BeginsNumeral text.now }
{
    match text.first() {
        Some(b'0') => text.len() == 1,
        Some(first) => first.is_ascii_digit(),
        None => false,
    }
}
