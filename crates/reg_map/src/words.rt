//! Immediates as words.

ghost use Rattle.std.specs.Prelude.{◌≡◌};
ghost use Rattle.std.specs.Int.{w16, w32, cast_signed};
ghost use Rattle.reg_map.specs.Words.{sign_extended};

/// A 16-bit immediate read as signed, modulo 2^32.
pub fn signed_immediate(field: u16) -> u32
    ensures extended { result ≡ sign_extended 16 field }
    ensures signed { cast_signed w32 result ≡ cast_signed w16 field }
{
    let value = field as u32;
    if value < 0x8000 {
        value
    } else {
        value + 0xFFFF_0000
    }
}
