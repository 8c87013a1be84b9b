//! The registers of the profile, by their numbers in opcodes and ModRM bytes (Intel SDM volume 2, table 2-2).

ghost use Rattle.std.specs.Prelude.{◌≡◌};
ghost use Rattle.machines.specs.Prelude.{eax, ecx, edx, ebx, esi, edi};

/// The first of the temporaries, which no register map uses.
pub const EAX: u8 = 0;
/// A temporary; its low byte is the count of the shifts by cl.
pub const ECX: u8 = 1;
/// A temporary; the high half of products and dividends.
pub const EDX: u8 = 2;
/// The first cache register.
pub const EBX: u8 = 3;
/// The second cache register.
pub const ESI: u8 = 6;
/// The third cache register.
pub const EDI: u8 = 7;

/// The constants are the numbers of the definitions.
pub fn registers_have_their_numbers()
    ensures eax { EAX ≡ eax }
    ensures ecx { ECX ≡ ecx }
    ensures edx { EDX ≡ edx }
    ensures ebx { EBX ≡ ebx }
    ensures esi { ESI ≡ esi }
    ensures edi { EDI ≡ edi }
{}
