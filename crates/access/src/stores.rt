//! Numbers and bytes that are written to memory. What may not be written whole isn't written at all.
ghost use Rattle.std.specs.Prelude.{◌≡◌, ◌≤◌, ℕ, true, length};
ghost use Rattle.std.specs.Bool.{OnTrue, OnFalse};
ghost use Rattle.machines.specs.Prelude.{Program, ArePermitted, each_byte, put_block, store_big as big_stored, store as little_stored};
ghost use Rattle.access.specs.Kept.{Keeps, is_allowed};

use crate::holds;
use space::Space;

/// Puts the `width` lowest bytes of the number from `at` on, the highest first. The answer is false,
/// and nothing is changed, where one of them may not be written.
pub fn store_big(space: &mut Space, at: u32, width: u8, value: u32) -> bool
    requires { width ≤ 4 }
    ensures answer { (p : Program) (bytes : ℕ → ℕ) → Keeps p bytes space.old
        → result ≡ each_byte (is_allowed p true) width at }
    ensures stored { OnTrue result ((p : Program) (bytes : ℕ → ℕ) → Keeps p bytes space.old
        → Keeps p (big_stored width at value bytes) space.new) }
    ensures kept { OnFalse result (space.new ≡ space.old) }
{
    if !holds(space, at, u32::from(width), true) {
        return false;
    }
    for k in 0..width {
        let byte = ((value >> (8 * (width - 1 - k))) % 256) as u8;
        space.write(at.wrapping_add(u32::from(k)), byte);
    }
    true
}

/// Puts the `width` lowest bytes of the number from `at` on, the lowest first. The answer is false,
/// and nothing is changed, where one of them may not be written.
pub fn store_little(space: &mut Space, at: u32, width: u8, value: u32) -> bool
    requires { width ≤ 4 }
    ensures answer { (p : Program) (bytes : ℕ → ℕ) → Keeps p bytes space.old
        → result ≡ each_byte (is_allowed p true) width at }
    ensures stored { OnTrue result ((p : Program) (bytes : ℕ → ℕ) → Keeps p bytes space.old
        → Keeps p (little_stored width at value bytes) space.new) }
    ensures kept { OnFalse result (space.new ≡ space.old) }
{
    if !holds(space, at, u32::from(width), true) {
        return false;
    }
    for k in 0..width {
        let byte = ((value >> (8 * k)) % 256) as u8;
        space.write(at.wrapping_add(u32::from(k)), byte);
    }
    true
}

/// Puts the bytes from `at` on, each of which may be written.
pub fn put(space: &mut Space, at: u32, bytes: &[u8])
    requires { ArePermitted space.old true at (length bytes.now) }
    ensures { (p : Program) (kept : ℕ → ℕ) → Keeps p kept space.old
        → Keeps p (put_block at bytes.now kept) space.new }
{
    let mut address = at;
    for byte in bytes {
        space.write(address, *byte);
        address = address.wrapping_add(1);
    }
}
