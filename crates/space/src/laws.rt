//! What a byte that is put into memory changes, and what it leaves. Each law is the contract of a
//! function that does nothing.
ghost use Rattle.std.specs.Prelude.{◌≡◌, ◌≢◌, ℕ, Bool, false, true, IsTrue, Some, slice_get};
ghost use Rattle.space.specs.declared.program.Segment.{Segment};
ghost use Rattle.space.specs.Memory.{Memory, AreApart, byte_at, is_permitted, with_byte};

/// A byte that is put at an address of a segment stands there, and no other byte is changed.
pub fn one_byte_is_changed()
    ensures there { (m : Memory) (at byte : ℕ) → IsTrue (is_permitted m false at)
        → byte_at (with_byte m at byte) at ≡ Some byte }
    ensures elsewhere { (m : Memory) (at byte other : ℕ) → other ≢ at
        → byte_at (with_byte m at byte) other ≡ byte_at m other }
{}

/// The same addresses may be read and written behind a write.
pub fn rights_stay()
    ensures { (m : Memory) (at byte : ℕ) (writable : Bool) (other : ℕ)
        → is_permitted (with_byte m at byte) writable other ≡ is_permitted m writable other }
{}

/// A write leaves a code segment that may not be written.
pub fn code_stays()
    ensures { (m : Memory) (at byte : ℕ) (code : Segment)
        → AreApart m.segments → slice_get m.segments m.code ≡ Some code → code.write ≡ false
        → IsTrue (is_permitted m true at) → slice_get (with_byte m at byte).segments m.code ≡ Some code }
{}
