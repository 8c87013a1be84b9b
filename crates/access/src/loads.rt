//! Numbers of some bytes that are read from memory, in both orders of bytes.
ghost use Rattle.std.specs.Prelude.{◌≡◌, ◌≤◌, ℕ, false, Some, None, if◌then◌else◌};
ghost use Rattle.machines.specs.Prelude.{Program, each_byte, load_big as big_number, load as little_number};
ghost use Rattle.access.specs.Kept.{Keeps, is_allowed};

use space::Space;

/// The number whose `width` bytes stand from `at` on, the highest first, or None where one of them
/// lies in no segment.
pub fn load_big(space: &Space, at: u32, width: u8) -> Option<u32>
    requires { width ≤ 4 }
    ensures { (p : Program) (bytes : ℕ → ℕ) → Keeps p bytes space.now
        → result ≡ (if each_byte (is_allowed p false) width at then Some (big_number width at bytes) else None) }
{
    let mut value = 0u32;
    for k in 0..width {
        let byte = space.read(at.wrapping_add(u32::from(k)))?;
        value = value * 256 + u32::from(byte);
    }
    Some(value)
}

/// The number whose `width` bytes stand from `at` on, the lowest first, or None where one of them
/// lies in no segment.
pub fn load_little(space: &Space, at: u32, width: u8) -> Option<u32>
    requires { width ≤ 4 }
    ensures { (p : Program) (bytes : ℕ → ℕ) → Keeps p bytes space.now
        → result ≡ (if each_byte (is_allowed p false) width at then Some (little_number width at bytes) else None) }
{
    let mut value = 0u32;
    for k in (0..width).rev() {
        let byte = space.read(at.wrapping_add(u32::from(k)))?;
        value = value * 256 + u32::from(byte);
    }
    Some(value)
}
