//! Up to twelve bytes.

ghost use Rattle.std.specs.Prelude.{◌≡◌, ◌+◌, ◌*◌, ◌<◌, ◌≤◌, ◌∷◌, [], ◌++◌};
ghost use Rattle.ia_codec.specs.Spelling.{shown, IsClear, dword, packed, modrm, IsOperand};

use crate::op::Operand;

/// The bytes of an op: the first `len` of twelve.
#[derive(Clone, Copy)]
pub struct Bytes12 {
    pub bytes: [u8; 12],
    pub len: u8,
}

impl Bytes12 {
    pub(crate) fn of(first: u8) -> Bytes12
        ensures shown { shown result ≡ first ∷ [] }
        ensures len { result.len ≡ 1 }
        ensures clear { IsClear result }
    {
        let mut bytes = [0; 12];
        bytes[0] = first;
        Bytes12 { bytes, len: 1 }
    }

    pub(crate) fn byte(self, value: u8) -> Bytes12
        requires room { self.len < 12 }
        requires clear { IsClear self }
        ensures shown { shown result ≡ shown self ++ value ∷ [] }
        ensures len { result.len ≡ self.len + 1 }
        ensures clear { IsClear result }
    {
        let mut bytes = self.bytes;
        bytes[self.len as usize] = value;
        Bytes12 {
            bytes,
            len: self.len + 1,
        }
    }

    pub(crate) fn dword(self, value: u32) -> Bytes12
        requires room { self.len + 4 ≤ 12 }
        requires clear { IsClear self }
        ensures shown { shown result ≡ shown self ++ dword value }
        ensures len { result.len ≡ self.len + 4 }
        ensures clear { IsClear result }
    {
        let [a, b, c, d] = value.to_le_bytes();
        self.byte(a).byte(b).byte(c).byte(d)
    }

    pub(crate) fn modrm(self, number: u8, operand: Operand) -> Bytes12
        requires room { self.len + 6 ≤ 12 }
        requires clear { IsClear self }
        requires number { number < 8 }
        requires operand { IsOperand operand }
        ensures shown { shown result ≡ shown self ++ modrm number operand }
        ensures len { result.len ≤ self.len + 6 }
        ensures clear { IsClear result }
    {
        match operand {
            Operand::Reg(m) => self.byte(packed(3, number, m)),
            Operand::Abs(d) => self.byte(packed(0, number, 5)).dword(d),
            Operand::Base(b, d) => self.byte(packed(2, number, b)).dword(d),
            Operand::Pair(b, x, s, d) => {
                self.byte(packed(2, number, 4))
                    .byte(packed(s, x, b))
                    .dword(d)
            }
        }
    }
}

// A byte of two, three and three bits.
fn packed(top: u8, middle: u8, low: u8) -> u8
    requires top { top < 4 }
    requires middle { middle < 8 }
    requires low { low < 8 }
    ensures { result ≡ packed top middle low }
{
    top << 6 | middle << 3 | low
}
