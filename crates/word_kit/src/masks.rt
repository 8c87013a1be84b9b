//! Masks of rotates.

ghost use Rattle.std.specs.Prelude.{◌≡◌, ◌<◌};
ghost use Rattle.word_kit.specs.Bits.{mask};

/// Ones from bit `mb` to bit `me`, and zeros elsewhere. Bits are counted from the left, and both numbers are below 32.
/// Where `mb` is over `me` the ones go on from bit 31 to bit 0 (Power ISA Book I, 3.3.14).
pub fn mask(mb: u8, me: u8) -> u32
    requires mb_within { mb < 32 }
    requires me_within { me < 32 }
    ensures { result ≡ mask mb me }
{
    let from_mb = u32::MAX >> mb;
    let behind_me = u32::MAX >> me >> 1;
    if mb <= me {
        from_mb - behind_me
    } else {
        u32::MAX - (behind_me - from_mb)
    }
}
