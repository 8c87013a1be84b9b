//! The ops of a tile, told without a register map: over the temporaries eax, ecx and edx, by their
//! numbers, and over locations of the guest, by theirs (GPR g is g, LR is 32, CTR 33, CR field f is
//! 34 + f; CA, SO, OV and the byte count of XER are 42 to 45).

use ia_codec::{AluOp, Condition, ExtendOp, ShiftOp};

/// A temporary, or a location that is a word.
#[derive(Clone, Copy)]
pub enum SymbolicOperand {
    /// A temporary, by its number in opcodes.
    Temporary(u8),
    /// A GPR, LR or CTR, in its place under the map.
    Location(u8),
}

/// How many bytes of the guest's memory an access has.
#[derive(Clone, Copy)]
pub enum AccessSize {
    /// One byte.
    Byte,
    /// Two bytes.
    Half,
    /// Four bytes.
    Word,
}

/// An op of a tile. What is written stands first; r and q are temporaries, x is a location.
#[derive(Clone, Copy)]
pub enum SymbolicOp {
    /// `mov r,source`
    Mov(u8, SymbolicOperand),
    /// `mov r,number`
    MovImmediate(u8, u32),
    /// `mov x,r` of a word location
    Put(u8, u8),
    /// `mov x,number` of LR or CTR
    PutImmediate(u8, u32),
    /// `op r,source`
    Alu(AluOp, u8, SymbolicOperand),
    /// `op r,number`
    AluImmediate(AluOp, u8, u32),
    /// `test r,q`
    Test(u8, u8),
    /// `test r,number`
    TestImmediate(u8, u32),
    /// `not r`
    Invert(u8),
    /// `neg r`
    Negate(u8),
    /// `imul r,source`
    Multiply(u8, SymbolicOperand),
    /// `imul source` where signed, else `mul source`: the product of eax into edx and eax
    MultiplyWide(bool, SymbolicOperand),
    /// `idiv r` where signed, else `div r`: edx and eax by r
    Divide(bool, u8),
    /// A shift of r by the number, which is below 32.
    ShiftBy(ShiftOp, u8, u8),
    /// A shift of r by cl.
    ShiftCl(ShiftOp, u8),
    /// `movzx r,q` or `movsx r,q` of q's low byte or half
    Widen(ExtendOp, u8, u8),
    /// `bswap r`
    SwapBytes(u8),
    /// `cmov r,q` on the condition
    MoveIf(Condition, u8, u8),
    /// `bsr r,source`
    Scan(u8, SymbolicOperand),
    /// `cdq`
    Signs,
    /// `movzx r,byte x`
    FetchByte(u8, u8),
    /// `mov byte x,r`
    PutByte(u8, u8),
    /// `setcc byte x`
    SetByte(Condition, u8),
    /// A load into r from \[q + number\], with no byte swapped.
    Load(AccessSize, u8, u8, u32),
    /// A store to \[q + number\] of r, with no byte swapped.
    Store(AccessSize, u8, u32, u8),
}
