//! Quotients of 64 bits by a word.

ghost use Rattle.std.specs.Prelude.{◌≡◌, ◌≢◌, ◌/◌, ◌%◌, ◌^◌, ◌<◌, pos, SomeIff, int_div, int_rem, IsTrue};
ghost use Rattle.word_kit.specs.Words.{two_complement};
ghost use Rattle.word_kit.specs.Products.{fits_word};

/// The quotient and the remainder, and None where the divisor is 0 or the quotient doesn't fit a word.
pub(crate) fn unsigned_parts(dividend: u64, by: u32) -> Option<(u32, u32)>
    ensures { SomeIff result ((by ≢ 0) × (dividend / by < 2 ^ 32)) (dividend / by, dividend % by) }
{
    let quotient = dividend.checked_div(by as u64)?;
    let fitting = u32::try_from(quotient).ok()?;
    Some((fitting, (dividend % by as u64) as u32))
}

/// The quotient toward 0 and the remainder as words, and None where the divisor is 0 or the quotient doesn't fit a word.
pub(crate) fn signed_parts(dividend: i64, by: i32) -> Option<(u32, u32)>
    ensures { SomeIff result ((by ≢ pos 0) × IsTrue (fits_word (int_div dividend by))) (two_complement 32 (int_div dividend by), two_complement 32 (int_rem dividend by)) }
{
    let quotient = dividend.checked_div(by as i64)?;
    let fitting = i32::try_from(quotient).ok()?;
    let remainder = (dividend % by as i64) as i32;
    Some((fitting.cast_unsigned(), remainder.cast_unsigned()))
}
