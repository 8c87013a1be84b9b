//! The ops of the IA-32 profile and their operands. Registers are by number: eax 0, ecx 1, edx 2, ebx 3, esi 6, edi 7.

/// A register, or a place in memory.
#[derive(Clone, Copy)]
pub enum Operand {
    Reg(u8),
    /// An address.
    Abs(u32),
    /// A register and a displacement.
    Base(u8, u32),
    /// A base, an index, its scale as a shift, and a displacement.
    Pair(u8, u8, u8, u32),
}

/// A condition on the flags, by its number in the opcodes of Jcc, SETcc and CMOVcc.
#[derive(Clone, Copy)]
pub enum Condition {
    Below = 2,
    NotBelow = 3,
    Equal = 4,
    NotEqual = 5,
    NotAbove = 6,
    Above = 7,
    Sign = 8,
    NotSign = 9,
    Less = 12,
    NotLess = 13,
    NotGreater = 14,
    Greater = 15,
}

/// The sums, differences and logic of one encoding, by their number in the ModRM byte of opcode 81.
#[derive(Clone, Copy)]
pub enum AluOp {
    Add = 0,
    Or = 1,
    Adc = 2,
    Sbb = 3,
    And = 4,
    Sub = 5,
    Xor = 6,
    Cmp = 7,
}

/// The shifts and rotates, by their number in the ModRM byte of opcodes C1 and D3.
#[derive(Clone, Copy)]
pub enum ShiftOp {
    Rol = 0,
    Ror = 1,
    Shl = 4,
    Shr = 5,
    Sar = 7,
}

/// The ops of one operand, by their number in the ModRM byte of opcode F7.
#[derive(Clone, Copy)]
pub enum UnaryOp {
    Not = 2,
    Neg = 3,
    Mul = 4,
    Imul1 = 5,
    Div = 6,
    Idiv = 7,
}

/// The moves of a byte or a half that fill a register with zeros or the sign, by their opcode after 0F.
#[derive(Clone, Copy)]
pub enum ExtendOp {
    MovzxByte = 0xb6,
    MovzxHalf = 0xb7,
    MovsxByte = 0xbe,
    MovsxHalf = 0xbf,
}

/// An op, one variant for each encoding of the profile; `in_profile` says which fields are allowed.
#[derive(Clone, Copy)]
pub enum Op {
    /// A register into a register or memory.
    AluTo {
        op: AluOp,
        to: Operand,
        from: u8,
    },
    /// Memory into a register.
    AluFrom {
        op: AluOp,
        to: u8,
        from: Operand,
    },
    /// An immediate into a register or memory.
    AluImm {
        op: AluOp,
        to: Operand,
        imm: u32,
    },
    /// The flags of `a` and `b`.
    TestReg {
        a: Operand,
        b: u8,
    },
    /// The flags of `a` and an immediate.
    TestImm {
        a: Operand,
        imm: u32,
    },
    Unary {
        op: UnaryOp,
        on: Operand,
    },
    /// The low word of a product.
    Imul {
        to: u8,
        from: Operand,
    },
    /// A register into a register or memory.
    MovTo {
        to: Operand,
        from: u8,
    },
    /// Memory into a register.
    MovFrom {
        to: u8,
        from: Operand,
    },
    MovImm {
        to: u8,
        imm: u32,
    },
    /// An immediate into memory.
    MovToImm {
        to: Operand,
        imm: u32,
    },
    /// The low 16 bits of a register into memory.
    MovHalfTo {
        to: Operand,
        from: u8,
    },
    /// al, cl or dl into memory.
    MovByteTo {
        to: Operand,
        from: u8,
    },
    /// Memory into al, cl or dl.
    MovByteFrom {
        to: u8,
        from: Operand,
    },
    /// By a count that the op has, 0 to 31.
    Shift {
        op: ShiftOp,
        to: Operand,
        by: u8,
    },
    /// By cl.
    ShiftByCl {
        op: ShiftOp,
        to: Operand,
    },
    /// The address of the operand.
    Lea {
        to: u8,
        from: Operand,
    },
    Extend {
        op: ExtendOp,
        to: u8,
        from: Operand,
    },
    /// The bytes of a register in the opposite order.
    Bswap {
        reg: u8,
    },
    /// A byte of 1 or 0.
    Set {
        condition: Condition,
        to: Operand,
    },
    Cmov {
        condition: Condition,
        to: u8,
        from: Operand,
    },
    /// The place of the highest 1.
    Bsr {
        to: u8,
        from: Operand,
    },
    /// The sign of eax over all of edx.
    Cdq,
    /// A jump on a condition; `rel` is counted from the address after the op and read as signed.
    Jcc {
        condition: Condition,
        rel: u32,
    },
    /// `rel` as in `Jcc`.
    Jmp {
        rel: u32,
    },
    /// A jump to the operand's value.
    JmpTo {
        to: Operand,
    },
    /// A system call.
    Int80,
    /// A trap.
    Int3,
    /// An illegal op.
    Ud2,
}
