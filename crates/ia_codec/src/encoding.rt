//! From ops to bytes.

ghost use Rattle.std.specs.Prelude.{◌≡◌, ◌≤◌};
ghost use Rattle.ia_codec.specs.Spelling.{shown, IsClear, spelling, IsInProfile};

use crate::bytes::Bytes12;
use crate::op::Op;

/// The spelling of an op of the profile, at most twelve bytes; all bytes past it are 0.
pub fn encode(op: &Op) -> Bytes12
    requires { IsInProfile op.now }
    ensures spelled { shown result ≡ spelling op.now }
    ensures len { result.len ≤ 12 }
    ensures clear { IsClear result }
{
    match *op {
        Op::AluTo { op, to, from } => Bytes12::of(op as u8 * 8 + 1).modrm(from, to),
        Op::AluFrom { op, to, from } => Bytes12::of(op as u8 * 8 + 3).modrm(to, from),
        Op::AluImm { op, to, imm } => Bytes12::of(0x81).modrm(op as u8, to).dword(imm),
        Op::TestReg { a, b } => Bytes12::of(0x85).modrm(b, a),
        Op::TestImm { a, imm } => Bytes12::of(0xf7).modrm(0, a).dword(imm),
        Op::Unary { op, on } => Bytes12::of(0xf7).modrm(op as u8, on),
        Op::Imul { to, from } => Bytes12::of(0x0f).byte(0xaf).modrm(to, from),
        Op::MovTo { to, from } => Bytes12::of(0x89).modrm(from, to),
        Op::MovFrom { to, from } => Bytes12::of(0x8b).modrm(to, from),
        Op::MovImm { to, imm } => Bytes12::of(0xb8 + to).dword(imm),
        Op::MovToImm { to, imm } => Bytes12::of(0xc7).modrm(0, to).dword(imm),
        Op::MovHalfTo { to, from } => Bytes12::of(0x66).byte(0x89).modrm(from, to),
        Op::MovByteTo { to, from } => Bytes12::of(0x88).modrm(from, to),
        Op::MovByteFrom { to, from } => Bytes12::of(0x8a).modrm(to, from),
        Op::Shift { op, to, by } => Bytes12::of(0xc1).modrm(op as u8, to).byte(by),
        Op::ShiftByCl { op, to } => Bytes12::of(0xd3).modrm(op as u8, to),
        Op::Lea { to, from } => Bytes12::of(0x8d).modrm(to, from),
        Op::Extend { op, to, from } => Bytes12::of(0x0f).byte(op as u8).modrm(to, from),
        Op::Bswap { reg } => Bytes12::of(0x0f).byte(0xc8 + reg),
        Op::Set { condition, to } => Bytes12::of(0x0f).byte(0x90 + condition.code()).modrm(0, to),
        Op::Cmov {
            condition,
            to,
            from,
        } => Bytes12::of(0x0f)
            .byte(0x40 + condition.code())
            .modrm(to, from),
        Op::Bsr { to, from } => Bytes12::of(0x0f).byte(0xbd).modrm(to, from),
        Op::Cdq => Bytes12::of(0x99),
        Op::Jcc { condition, rel } => Bytes12::of(0x0f).byte(0x80 + condition.code()).dword(rel),
        Op::Jmp { rel } => Bytes12::of(0xe9).dword(rel),
        Op::JmpTo { to } => Bytes12::of(0xff).modrm(4, to),
        Op::Int80 => Bytes12::of(0xcd).byte(0x80),
        Op::Int3 => Bytes12::of(0xcc),
        Op::Ud2 => Bytes12::of(0x0f).byte(0x0b),
    }
}
