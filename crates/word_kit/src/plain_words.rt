//! Words and flags as they are.

ghost use Rattle.std.specs.Prelude.{false, ◌≡◌, ◌/◌, ◌^◌, ◌<◌};
ghost use Rattle.word_kit.specs.PlainOperations.{plain_operations};
ghost use Rattle.word_kit.specs.PlainRange.{below_word};

use crate::quotients::{signed_parts, unsigned_parts};
use crate::{Alg, NoMemory};

/// The algebra whose words are numbers and whose flags are truths. It owns all of them, takes no memory, and its calls
/// always succeed. Its opaque number is 0.
#[derive(Clone, Copy)]
pub struct Plain;

impl Alg for Plain {
    type W = u32;

    type B = bool;

    ghost word = { λ x a. x };

    ghost truth = { λ b a. b };

    ghost extent = { λ s. 0 };

    ghost word_reach = { λ x. x / 2 ^ 32 };

    ghost flag_reach = { λ b. 0 };

    ghost admits = { λ s a. Unit {0} };

    ghost inputs = { λ s k. Unit {0} };

    ghost opaque = { λ s. 0 };

    ghost takes_memory = { false };

    ghost Held = { Unit {0} };

    ghost held = { λ s. tt };

    ghost ops = { plain_operations };

    fn lit(&mut self, value: u32) -> u32 {
        value
    }

    fn flag(&mut self, value: bool) -> bool {
        value
    }

    fn bit(&mut self, x: u32, place: u8) -> bool {
        x >> place & 1 == 1
    }

    fn put_bit(&mut self, x: u32, place: u8, b: bool) -> u32 {
        let unit = 1u32 << place;
        let cleared = x - (x & unit);
        if b { cleared + unit } else { cleared }
    }

    fn not(&mut self, x: u32) -> u32 {
        !x
    }

    fn flip(&mut self, b: bool) -> bool {
        !b
    }

    fn byte(&mut self, x: u32, k: u8) -> u32 {
        (x >> (8 * k)) % 256
    }

    fn join(&mut self, b3: u32, b2: u32, b1: u32, b0: u32) -> u32 {
        (b3 % 256) * 0x100_0000 + (b2 % 256) * 0x1_0000 + (b1 % 256) * 0x100 + b0 % 256
    }

    fn add(&mut self, x: u32, y: u32, carry: bool) -> Result<(u32, bool), NoMemory> {
        let total = x as u64 + y as u64 + carry as u64;
        Ok(((total % 0x1_0000_0000) as u32, total >= 0x1_0000_0000))
    }

    fn less(&mut self, x: u32, y: u32, signed: bool) -> Result<bool, NoMemory> {
        if signed {
            Ok(x.cast_signed() < y.cast_signed())
        } else {
            Ok(x < y)
        }
    }

    fn equal(&mut self, x: u32, y: u32) -> Result<bool, NoMemory> {
        Ok(x == y)
    }

    fn pick(&mut self, b: bool, x: u32, y: u32) -> Result<u32, NoMemory> {
        if b { Ok(x) } else { Ok(y) }
    }

    fn and(&mut self, x: u32, y: u32) -> Result<u32, NoMemory> {
        Ok(x & y)
    }

    fn or(&mut self, x: u32, y: u32) -> Result<u32, NoMemory> {
        Ok(x | y)
    }

    fn xor(&mut self, x: u32, y: u32) -> Result<u32, NoMemory> {
        Ok(x ^ y)
    }

    fn shift_left(&mut self, x: u32, by: u32) -> Result<u32, NoMemory> {
        Ok(x << (by % 32))
    }

    fn shift_right(&mut self, x: u32, by: u32) -> Result<u32, NoMemory> {
        Ok(x >> (by % 32))
    }

    fn shift_arith(&mut self, x: u32, by: u32) -> Result<u32, NoMemory> {
        let count = by % 32;
        if x >= 0x8000_0000 {
            Ok(!(!x >> count))
        } else {
            Ok(x >> count)
        }
    }

    fn rotate(&mut self, x: u32, by: u32) -> Result<u32, NoMemory> {
        let wide = (x as u64) << (by % 32);
        Ok((wide % 0x1_0000_0000) as u32 + (wide / 0x1_0000_0000) as u32)
    }

    fn mul_low(&mut self, x: u32, y: u32) -> Result<u32, NoMemory> {
        Ok(x.wrapping_mul(y))
    }

    fn mul_high(&mut self, x: u32, y: u32, signed: bool) -> Result<u32, NoMemory> {
        if signed {
            let product = x.cast_signed() as i64 * y.cast_signed() as i64;
            Ok((product.cast_unsigned() / 0x1_0000_0000) as u32)
        } else {
            Ok((x as u64 * y as u64 / 0x1_0000_0000) as u32)
        }
    }

    fn div(
        &mut self,
        high: u32,
        low: u32,
        by: u32,
        signed: bool,
    ) -> Result<(u32, u32, bool), NoMemory> {
        let dividend = high as u64 * 0x1_0000_0000 + low as u64;
        let parts = if signed {
            signed_parts(dividend.cast_signed(), by.cast_signed())
        } else {
            unsigned_parts(dividend, by)
        };
        match parts {
            Some((quotient, remainder)) => Ok((quotient, remainder, false)),
            None => Ok((0, 0, true)),
        }
    }

    fn both(&mut self, b: bool, c: bool) -> Result<bool, NoMemory> {
        Ok(b && c)
    }

    fn either(&mut self, b: bool, c: bool) -> Result<bool, NoMemory> {
        Ok(b || c)
    }

    fn differ(&mut self, b: bool, c: bool) -> Result<bool, NoMemory> {
        Ok(b != c)
    }

    ghost in_range = { λ s x a h. below_word x h };
}
