//! The mnemonics of instructions.

ghost use Rattle.std.specs.Prelude.{◌≡◌, ◌++◌, codes};
ghost use Rattle.ppc_isa.specs.Names.{mnemonic_of, recording, immediate_name, logic_immediate_name, load_name, store_name, load_update_name, store_update_name, multiple_name, compare_immediate_name, rotate_name, arithmetic_name, arithmetic_unary_name, logic_name, logic_unary_name, compare_name, load_indexed_name, store_indexed_name, load_indexed_update_name, store_indexed_update_name, cr_logic_name, branch_register_name};

use crate::instr::*;

// The second name, with its dot, for a form that records.
fn name(records: bool, plain: &'static str, dotted: &'static str) -> &'static str
    requires { dotted.now ≡ plain.now ++ codes "." }
    ensures { result.now ≡ recording records plain.now }
{
    if records { dotted } else { plain }
}

fn immediate(op: ImmediateOp) -> &'static str
    ensures { result.now ≡ immediate_name op }
{
    match op {
        ImmediateOp::Addi => "addi",
        ImmediateOp::Addis => "addis",
        ImmediateOp::Addic => "addic",
        ImmediateOp::AddicRecord => "addic.",
        ImmediateOp::Subfic => "subfic",
        ImmediateOp::Mulli => "mulli",
    }
}

fn logic_immediate(op: LogicImmediateOp) -> &'static str
    ensures { result.now ≡ logic_immediate_name op }
{
    match op {
        LogicImmediateOp::Ori => "ori",
        LogicImmediateOp::Oris => "oris",
        LogicImmediateOp::Xori => "xori",
        LogicImmediateOp::Xoris => "xoris",
        LogicImmediateOp::Andi => "andi.",
        LogicImmediateOp::Andis => "andis.",
    }
}

fn load(op: LoadOp) -> &'static str
    ensures { result.now ≡ load_name op }
{
    match op {
        LoadOp::Lwz => "lwz",
        LoadOp::Lbz => "lbz",
        LoadOp::Lhz => "lhz",
        LoadOp::Lha => "lha",
    }
}

fn store(op: StoreOp) -> &'static str
    ensures { result.now ≡ store_name op }
{
    match op {
        StoreOp::Stw => "stw",
        StoreOp::Stb => "stb",
        StoreOp::Sth => "sth",
    }
}

fn load_update(op: LoadUpdateOp) -> &'static str
    ensures { result.now ≡ load_update_name op }
{
    match op {
        LoadUpdateOp::Lwzu => "lwzu",
        LoadUpdateOp::Lbzu => "lbzu",
        LoadUpdateOp::Lhzu => "lhzu",
        LoadUpdateOp::Lhau => "lhau",
    }
}

fn store_update(op: StoreUpdateOp) -> &'static str
    ensures { result.now ≡ store_update_name op }
{
    match op {
        StoreUpdateOp::Stwu => "stwu",
        StoreUpdateOp::Stbu => "stbu",
        StoreUpdateOp::Sthu => "sthu",
    }
}

fn multiple(op: MultipleOp) -> &'static str
    ensures { result.now ≡ multiple_name op }
{
    match op {
        MultipleOp::Lmw => "lmw",
        MultipleOp::Stmw => "stmw",
    }
}

fn compare_immediate(op: CompareImmediateOp) -> &'static str
    ensures { result.now ≡ compare_immediate_name op }
{
    match op {
        CompareImmediateOp::Cmpi => "cmpi",
        CompareImmediateOp::Cmpli => "cmpli",
    }
}

fn rotate(op: RotateOp, records: bool) -> &'static str
    ensures { result.now ≡ recording records (rotate_name op) }
{
    match op {
        RotateOp::Rlwinm => name(records, "rlwinm", "rlwinm."),
        RotateOp::Rlwnm => name(records, "rlwnm", "rlwnm."),
        RotateOp::Rlwimi => name(records, "rlwimi", "rlwimi."),
    }
}

fn arithmetic(op: ArithmeticOp, records: bool) -> &'static str
    ensures { result.now ≡ recording records (arithmetic_name op) }
{
    match op {
        ArithmeticOp::Add => name(records, "add", "add."),
        ArithmeticOp::Addc => name(records, "addc", "addc."),
        ArithmeticOp::Adde => name(records, "adde", "adde."),
        ArithmeticOp::Subf => name(records, "subf", "subf."),
        ArithmeticOp::Subfc => name(records, "subfc", "subfc."),
        ArithmeticOp::Subfe => name(records, "subfe", "subfe."),
        ArithmeticOp::Mullw => name(records, "mullw", "mullw."),
        ArithmeticOp::Mulhw => name(records, "mulhw", "mulhw."),
        ArithmeticOp::Mulhwu => name(records, "mulhwu", "mulhwu."),
        ArithmeticOp::Divw => name(records, "divw", "divw."),
        ArithmeticOp::Divwu => name(records, "divwu", "divwu."),
    }
}

fn arithmetic_unary(op: ArithmeticUnaryOp, records: bool) -> &'static str
    ensures { result.now ≡ recording records (arithmetic_unary_name op) }
{
    match op {
        ArithmeticUnaryOp::Addze => name(records, "addze", "addze."),
        ArithmeticUnaryOp::Addme => name(records, "addme", "addme."),
        ArithmeticUnaryOp::Subfze => name(records, "subfze", "subfze."),
        ArithmeticUnaryOp::Subfme => name(records, "subfme", "subfme."),
        ArithmeticUnaryOp::Neg => name(records, "neg", "neg."),
    }
}

fn logic(op: LogicOp, records: bool) -> &'static str
    ensures { result.now ≡ recording records (logic_name op) }
{
    match op {
        LogicOp::And => name(records, "and", "and."),
        LogicOp::Or => name(records, "or", "or."),
        LogicOp::Xor => name(records, "xor", "xor."),
        LogicOp::Nand => name(records, "nand", "nand."),
        LogicOp::Nor => name(records, "nor", "nor."),
        LogicOp::Eqv => name(records, "eqv", "eqv."),
        LogicOp::Andc => name(records, "andc", "andc."),
        LogicOp::Orc => name(records, "orc", "orc."),
        LogicOp::Slw => name(records, "slw", "slw."),
        LogicOp::Srw => name(records, "srw", "srw."),
        LogicOp::Sraw => name(records, "sraw", "sraw."),
    }
}

fn logic_unary(op: LogicUnaryOp, records: bool) -> &'static str
    ensures { result.now ≡ recording records (logic_unary_name op) }
{
    match op {
        LogicUnaryOp::Cntlzw => name(records, "cntlzw", "cntlzw."),
        LogicUnaryOp::Extsb => name(records, "extsb", "extsb."),
        LogicUnaryOp::Extsh => name(records, "extsh", "extsh."),
    }
}

fn compare(op: CompareOp) -> &'static str
    ensures { result.now ≡ compare_name op }
{
    match op {
        CompareOp::Cmp => "cmp",
        CompareOp::Cmpl => "cmpl",
    }
}

fn load_indexed(op: LoadIndexedOp) -> &'static str
    ensures { result.now ≡ load_indexed_name op }
{
    match op {
        LoadIndexedOp::Lwzx => "lwzx",
        LoadIndexedOp::Lbzx => "lbzx",
        LoadIndexedOp::Lhzx => "lhzx",
        LoadIndexedOp::Lhax => "lhax",
        LoadIndexedOp::Lwbrx => "lwbrx",
        LoadIndexedOp::Lhbrx => "lhbrx",
    }
}

fn store_indexed(op: StoreIndexedOp) -> &'static str
    ensures { result.now ≡ store_indexed_name op }
{
    match op {
        StoreIndexedOp::Stwx => "stwx",
        StoreIndexedOp::Stbx => "stbx",
        StoreIndexedOp::Sthx => "sthx",
        StoreIndexedOp::Stwbrx => "stwbrx",
        StoreIndexedOp::Sthbrx => "sthbrx",
    }
}

fn load_indexed_update(op: LoadIndexedUpdateOp) -> &'static str
    ensures { result.now ≡ load_indexed_update_name op }
{
    match op {
        LoadIndexedUpdateOp::Lwzux => "lwzux",
        LoadIndexedUpdateOp::Lbzux => "lbzux",
        LoadIndexedUpdateOp::Lhzux => "lhzux",
        LoadIndexedUpdateOp::Lhaux => "lhaux",
    }
}

fn store_indexed_update(op: StoreIndexedUpdateOp) -> &'static str
    ensures { result.now ≡ store_indexed_update_name op }
{
    match op {
        StoreIndexedUpdateOp::Stwux => "stwux",
        StoreIndexedUpdateOp::Stbux => "stbux",
        StoreIndexedUpdateOp::Sthux => "sthux",
    }
}

fn cr_logic(op: CrLogicOp) -> &'static str
    ensures { result.now ≡ cr_logic_name op }
{
    match op {
        CrLogicOp::Crand => "crand",
        CrLogicOp::Cror => "cror",
        CrLogicOp::Crxor => "crxor",
        CrLogicOp::Crnand => "crnand",
        CrLogicOp::Crnor => "crnor",
        CrLogicOp::Creqv => "creqv",
        CrLogicOp::Crandc => "crandc",
        CrLogicOp::Crorc => "crorc",
    }
}

fn branch_register(op: BranchRegisterOp) -> &'static str
    ensures { result.now ≡ branch_register_name op }
{
    match op {
        BranchRegisterOp::Bclr => "bclr",
        BranchRegisterOp::Bcctr => "bcctr",
    }
}

/// The instruction's mnemonic in Power ISA Book I, without operands; that of a recording form ends with a dot.
pub fn mnemonic(instr: &Instr) -> &'static str
    ensures { result.now ≡ mnemonic_of instr.now }
{
    match *instr {
        Instr::Immediate { op, .. } => immediate(op),
        Instr::LogicImmediate { op, .. } => logic_immediate(op),
        Instr::Load { op, .. } => load(op),
        Instr::Store { op, .. } => store(op),
        Instr::LoadUpdate { op, .. } => load_update(op),
        Instr::StoreUpdate { op, .. } => store_update(op),
        Instr::Multiple { op, .. } => multiple(op),
        Instr::TrapImmediate { .. } => "twi",
        Instr::CompareImmediate { op, .. } => compare_immediate(op),
        Instr::Rotate { op, records, .. } => rotate(op, records),
        Instr::Branch { .. } => "b",
        Instr::BranchConditional { .. } => "bc",
        Instr::SystemCall => "sc",
        Instr::Arithmetic { op, records, .. } => arithmetic(op, records),
        Instr::ArithmeticUnary { op, records, .. } => arithmetic_unary(op, records),
        Instr::Logic { op, records, .. } => logic(op, records),
        Instr::ShiftImmediate { records, .. } => name(records, "srawi", "srawi."),
        Instr::LogicUnary { op, records, .. } => logic_unary(op, records),
        Instr::Compare { op, .. } => compare(op),
        Instr::Trap { .. } => "tw",
        Instr::MoveFromCr { .. } => "mfcr",
        Instr::MoveToCr { .. } => "mtcrf",
        Instr::MoveFromSpr { .. } => "mfspr",
        Instr::MoveToSpr { .. } => "mtspr",
        Instr::Sync => "sync",
        Instr::LoadIndexed { op, .. } => load_indexed(op),
        Instr::StoreIndexed { op, .. } => store_indexed(op),
        Instr::LoadIndexedUpdate { op, .. } => load_indexed_update(op),
        Instr::StoreIndexedUpdate { op, .. } => store_indexed_update(op),
        Instr::MoveCrField { .. } => "mcrf",
        Instr::CrLogic { op, .. } => cr_logic(op),
        Instr::Isync => "isync",
        Instr::BranchRegister { op, .. } => branch_register(op),
    }
}
