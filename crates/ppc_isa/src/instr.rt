//! The instructions: a row of the table of words is a variant, with its fields as numbers.

/// Arithmetic with a 16-bit immediate, by primary opcode.
#[derive(Clone, Copy)]
pub enum ImmediateOp {
    Addi = 14,
    Addis = 15,
    Addic = 12,
    AddicRecord = 13,
    Subfic = 8,
    Mulli = 7,
}

/// Logic with a 16-bit immediate, by primary opcode.
#[derive(Clone, Copy)]
pub enum LogicImmediateOp {
    Ori = 24,
    Oris = 25,
    Xori = 26,
    Xoris = 27,
    Andi = 28,
    Andis = 29,
}

/// Loads with a displacement, by primary opcode.
#[derive(Clone, Copy)]
pub enum LoadOp {
    Lwz = 32,
    Lbz = 34,
    Lhz = 40,
    Lha = 42,
}

/// Stores with a displacement, by primary opcode.
#[derive(Clone, Copy)]
pub enum StoreOp {
    Stw = 36,
    Stb = 38,
    Sth = 44,
}

/// Loads with a displacement and update, by primary opcode.
#[derive(Clone, Copy)]
pub enum LoadUpdateOp {
    Lwzu = 33,
    Lbzu = 35,
    Lhzu = 41,
    Lhau = 43,
}

/// Stores with a displacement and update, by primary opcode.
#[derive(Clone, Copy)]
pub enum StoreUpdateOp {
    Stwu = 37,
    Stbu = 39,
    Sthu = 45,
}

/// Load and store multiple, by primary opcode.
#[derive(Clone, Copy)]
pub enum MultipleOp {
    Lmw = 46,
    Stmw = 47,
}

/// Compares with a 16-bit immediate, by primary opcode.
#[derive(Clone, Copy)]
pub enum CompareImmediateOp {
    Cmpi = 11,
    Cmpli = 10,
}

/// Rotates with a mask, by primary opcode.
#[derive(Clone, Copy)]
pub enum RotateOp {
    Rlwinm = 21,
    Rlwnm = 23,
    Rlwimi = 20,
}

/// Arithmetic on two registers, by extended opcode.
#[derive(Clone, Copy)]
pub enum ArithmeticOp {
    Add = 266,
    Addc = 10,
    Adde = 138,
    Subf = 40,
    Subfc = 8,
    Subfe = 136,
    Mullw = 235,
    Mulhw = 75,
    Mulhwu = 11,
    Divw = 491,
    Divwu = 459,
}

/// Arithmetic on one register, by extended opcode.
#[derive(Clone, Copy)]
pub enum ArithmeticUnaryOp {
    Addze = 202,
    Addme = 234,
    Subfze = 200,
    Subfme = 232,
    Neg = 104,
}

/// Logic and shifts on two registers, by extended opcode.
#[derive(Clone, Copy)]
pub enum LogicOp {
    And = 28,
    Or = 444,
    Xor = 316,
    Nand = 476,
    Nor = 124,
    Eqv = 284,
    Andc = 60,
    Orc = 412,
    Slw = 24,
    Srw = 536,
    Sraw = 792,
}

/// Counts and sign extensions of one register, by extended opcode.
#[derive(Clone, Copy)]
pub enum LogicUnaryOp {
    Cntlzw = 26,
    Extsb = 954,
    Extsh = 922,
}

/// Compares of two registers, by extended opcode.
#[derive(Clone, Copy)]
pub enum CompareOp {
    Cmp = 0,
    Cmpl = 32,
}

/// Loads with an index, by extended opcode.
#[derive(Clone, Copy)]
pub enum LoadIndexedOp {
    Lwzx = 23,
    Lbzx = 87,
    Lhzx = 279,
    Lhax = 343,
    Lwbrx = 534,
    Lhbrx = 790,
}

/// Stores with an index, by extended opcode.
#[derive(Clone, Copy)]
pub enum StoreIndexedOp {
    Stwx = 151,
    Stbx = 215,
    Sthx = 407,
    Stwbrx = 662,
    Sthbrx = 918,
}

/// Loads with an index and update, by extended opcode.
#[derive(Clone, Copy)]
pub enum LoadIndexedUpdateOp {
    Lwzux = 55,
    Lbzux = 119,
    Lhzux = 311,
    Lhaux = 375,
}

/// Stores with an index and update, by extended opcode.
#[derive(Clone, Copy)]
pub enum StoreIndexedUpdateOp {
    Stwux = 183,
    Stbux = 247,
    Sthux = 439,
}

/// Logic on two bits of CR, by extended opcode.
#[derive(Clone, Copy)]
pub enum CrLogicOp {
    Crand = 257,
    Cror = 449,
    Crxor = 193,
    Crnand = 225,
    Crnor = 33,
    Creqv = 289,
    Crandc = 129,
    Crorc = 417,
}

/// Branches to a register, by extended opcode.
#[derive(Clone, Copy)]
pub enum BranchRegisterOp {
    Bclr = 16,
    Bcctr = 528,
}

/// An instruction. Register numbers are below 32; `records` is the bit Rc; a target is its field, in words.
#[derive(Clone, Copy)]
pub enum Instr {
    Immediate {
        op: ImmediateOp,
        d: u8,
        a: u8,
        imm: u16,
    },
    LogicImmediate {
        op: LogicImmediateOp,
        s: u8,
        a: u8,
        imm: u16,
    },
    Load {
        op: LoadOp,
        d: u8,
        a: u8,
        imm: u16,
    },
    Store {
        op: StoreOp,
        s: u8,
        a: u8,
        imm: u16,
    },
    LoadUpdate {
        op: LoadUpdateOp,
        d: u8,
        a: u8,
        imm: u16,
    },
    StoreUpdate {
        op: StoreUpdateOp,
        s: u8,
        a: u8,
        imm: u16,
    },
    Multiple {
        op: MultipleOp,
        d: u8,
        a: u8,
        imm: u16,
    },
    TrapImmediate {
        to: u8,
        a: u8,
        imm: u16,
    },
    CompareImmediate {
        op: CompareImmediateOp,
        field: u8,
        a: u8,
        imm: u16,
    },
    Rotate {
        op: RotateOp,
        s: u8,
        a: u8,
        by: u8,
        mask_begin: u8,
        mask_end: u8,
        records: bool,
    },
    Branch {
        target: u32,
        absolute: bool,
        link: bool,
    },
    BranchConditional {
        bo: u8,
        bi: u8,
        target: u16,
        absolute: bool,
        link: bool,
    },
    SystemCall,
    Arithmetic {
        op: ArithmeticOp,
        d: u8,
        a: u8,
        b: u8,
        records: bool,
    },
    ArithmeticUnary {
        op: ArithmeticUnaryOp,
        d: u8,
        a: u8,
        records: bool,
    },
    Logic {
        op: LogicOp,
        s: u8,
        a: u8,
        b: u8,
        records: bool,
    },
    ShiftImmediate {
        s: u8,
        a: u8,
        by: u8,
        records: bool,
    },
    LogicUnary {
        op: LogicUnaryOp,
        s: u8,
        a: u8,
        records: bool,
    },
    Compare {
        op: CompareOp,
        field: u8,
        a: u8,
        b: u8,
    },
    Trap {
        to: u8,
        a: u8,
        b: u8,
    },
    MoveFromCr {
        d: u8,
    },
    MoveToCr {
        s: u8,
        mask: u8,
    },
    MoveFromSpr {
        d: u8,
        spr: u16,
    },
    MoveToSpr {
        s: u8,
        spr: u16,
    },
    Sync,
    LoadIndexed {
        op: LoadIndexedOp,
        d: u8,
        a: u8,
        b: u8,
    },
    StoreIndexed {
        op: StoreIndexedOp,
        s: u8,
        a: u8,
        b: u8,
    },
    LoadIndexedUpdate {
        op: LoadIndexedUpdateOp,
        d: u8,
        a: u8,
        b: u8,
    },
    StoreIndexedUpdate {
        op: StoreIndexedUpdateOp,
        s: u8,
        a: u8,
        b: u8,
    },
    MoveCrField {
        to: u8,
        from: u8,
    },
    CrLogic {
        op: CrLogicOp,
        d: u8,
        a: u8,
        b: u8,
    },
    Isync,
    BranchRegister {
        op: BranchRegisterOp,
        bo: u8,
        bi: u8,
        link: bool,
    },
}
