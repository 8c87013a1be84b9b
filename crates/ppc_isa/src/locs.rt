//! The locations that instructions read and write.

ghost use Rattle.std.specs.Prelude.{◌≡◌, ◌+◌, ◌<◌, ◌≤◌, ◌^◌, ◌++◌, ◌==◌, fold};
ghost use Rattle.ppc_isa.specs.Legal.{bo_2, layout, IsLegal};
ghost use Rattle.ppc_isa.specs.Word.{Fit};
ghost use Rattle.ppc_isa.specs.Locations.{IsSetOf, locations_read, locations_written, with_bit, bits_of, when, base, condition, count, special, registers_from, chosen_fields, immediate_records, immediate_carries, immediate_operand, logic_immediate_records, carry_in, carry_out, unary_carry, logic_carries, rotate_operands, target_of};

use crate::instr::*;

const LR: u8 = 32;

const CTR: u8 = 33;

const CR: u8 = 34;

const CA: u8 = 42;

const SO: u8 = 43;

const OV: u8 = 44;

const XC: u8 = 45;

/// A set of locations: GPR 0 to 31, LR, CTR, CR field 0 to 7, CA, SO, OV, and XC, the count of XER. Bit k says that
/// location k of this list, counted from 0, is in the set. Bits from 46 on are 0.
#[derive(Clone, Copy)]
pub struct Locs {
    pub bits: u64,
}

impl Locs {
    fn none() -> Locs
        ensures { result.bits ≡ 0 }
    {
        Locs { bits: 0 }
    }

    fn with(self, location: u8) -> Locs
        requires within { self.bits < 2 ^ 46 }
        requires location { location < 46 }
        ensures bits { result.bits ≡ with_bit self.bits location }
        ensures within { result.bits < 2 ^ 46 }
    {
        Locs {
            bits: self.bits | 1 << location,
        }
    }

    fn with_if(self, test: bool, location: u8) -> Locs
        requires within { self.bits < 2 ^ 46 }
        requires location { location < 46 }
        ensures bits { result.bits ≡ fold with_bit self.bits (when test location) }
        ensures within { result.bits < 2 ^ 46 }
    {
        if test { self.with(location) } else { self }
    }

    // Register 0 as a base isn't read.
    fn with_base(self, a: u8) -> Locs
        requires within { self.bits < 2 ^ 46 }
        requires register { a < 32 }
        ensures bits { result.bits ≡ fold with_bit self.bits (base a) }
        ensures within { result.bits < 2 ^ 46 }
    {
        if a == 0 { self } else { self.with(a) }
    }

    // What a branch with this BO looks at besides its target.
    fn with_condition(self, bo: u8, bi: u8) -> Locs
        requires within { self.bits < 2 ^ 46 }
        requires bit { bi < 32 }
        ensures bits { result.bits ≡ fold with_bit self.bits (condition bo bi ++ count bo) }
        ensures within { result.bits < 2 ^ 46 }
    {
        self.with_if(bo / 16 % 2 == 0, CR + bi / 4)
            .with_if(counts(bo), CTR)
    }
}

// Whether a branch with this BO counts CTR down.
fn counts(bo: u8) -> bool
    ensures { result ≡ (bo_2 bo == 0) }
{
    bo / 4 % 2 == 0
}

#[tactic(auto, unfolding(crate::specs::Locations::registers_from))]
fn registers(first: u8) -> Locs
    requires { first < 32 }
    ensures bits { result.bits ≡ bits_of (registers_from first) }
    ensures within { result.bits < 2 ^ 46 }
{
    let mut set = Locs::none();
    for register in first..32 {
        set = set.with(register);
    }
    set
}

#[tactic(auto, unfolding(crate::specs::Locations::chosen_fields))]
fn fields(mask: u8) -> Locs
    ensures bits { result.bits ≡ bits_of (chosen_fields mask) }
    ensures within { result.bits < 2 ^ 46 }
{
    let mut set = Locs::none();
    for field in 0..8 {
        set = set.with_if((mask >> (7 - field)) % 2 == 1, CR + field);
    }
    set
}

fn special_register(spr: u16) -> Locs
    ensures bits { result.bits ≡ bits_of (special spr) }
    ensures within { result.bits < 2 ^ 46 }
{
    match spr {
        1 => Locs::none().with(CA).with(SO).with(OV).with(XC),
        8 => Locs::none().with(LR),
        9 => Locs::none().with(CTR),
        _ => Locs::none(),
    }
}

/// Whether an instruction with an immediate operand records its result in CR field 0: addic. alone does.
pub fn immediate_records(op: ImmediateOp) -> bool
    ensures { result ≡ immediate_records op }
{
    matches!(op, ImmediateOp::AddicRecord)
}

/// Whether an instruction with an immediate operand puts its carry into CA.
pub fn immediate_carries(op: ImmediateOp) -> bool
    ensures { result ≡ immediate_carries op }
{
    matches!(
        op,
        ImmediateOp::Addic | ImmediateOp::AddicRecord | ImmediateOp::Subfic
    )
}

fn immediate_operand(op: ImmediateOp, a: u8) -> Locs
    requires { a < 32 }
    ensures bits { result.bits ≡ bits_of (immediate_operand op a) }
    ensures within { result.bits < 2 ^ 46 }
{
    match op {
        ImmediateOp::Addi | ImmediateOp::Addis => Locs::none().with_base(a),
        _ => Locs::none().with(a),
    }
}

/// Whether a logic instruction with an immediate operand records its result in CR field 0: andi. and andis. do.
pub fn logic_immediate_records(op: LogicImmediateOp) -> bool
    ensures { result ≡ logic_immediate_records op }
{
    matches!(op, LogicImmediateOp::Andi | LogicImmediateOp::Andis)
}

fn carry_in(op: ArithmeticOp) -> bool
    ensures { result ≡ carry_in op }
{
    matches!(op, ArithmeticOp::Adde | ArithmeticOp::Subfe)
}

/// Whether an arithmetic instruction puts its carry into CA.
pub fn carry_out(op: ArithmeticOp) -> bool
    ensures { result ≡ carry_out op }
{
    matches!(
        op,
        ArithmeticOp::Addc | ArithmeticOp::Adde | ArithmeticOp::Subfc | ArithmeticOp::Subfe
    )
}

/// Whether an arithmetic instruction of one operand reads CA and puts its carry there: all but neg do.
pub fn unary_carry(op: ArithmeticUnaryOp) -> bool
    ensures { result ≡ unary_carry op }
{
    !matches!(op, ArithmeticUnaryOp::Neg)
}

/// Whether a logic instruction puts a carry into CA: sraw alone does.
pub fn logic_carries(op: LogicOp) -> bool
    ensures { result ≡ logic_carries op }
{
    matches!(op, LogicOp::Sraw)
}

fn rotate_operands(op: RotateOp, s: u8, a: u8, b: u8) -> Locs
    requires s { s < 32 }
    requires a { a < 32 }
    requires b { b < 32 }
    ensures bits { result.bits ≡ bits_of (rotate_operands op s a b) }
    ensures within { result.bits < 2 ^ 46 }
{
    match op {
        RotateOp::Rlwinm => Locs::none().with(s),
        RotateOp::Rlwnm => Locs::none().with(s).with(b),
        RotateOp::Rlwimi => Locs::none().with(s).with(a),
    }
}

fn target_register(op: BranchRegisterOp) -> u8
    ensures { result ≡ target_of op }
{
    match op {
        BranchRegisterOp::Bclr => LR,
        BranchRegisterOp::Bcctr => CTR,
    }
}

#[tactic(auto, unfolding(crate::specs::Locations::chosen_fields))]
fn read_set(instr: &Instr) -> Locs
    requires { Fit (layout instr.now) }
    ensures bits { result.bits ≡ bits_of (locations_read instr.now) }
    ensures within { result.bits < 2 ^ 46 }
{
    let none = Locs::none();
    match *instr {
        Instr::Immediate { op, a, .. } => immediate_operand(op, a).with_if(
            immediate_records(op),
            SO,
        ),
        Instr::LogicImmediate { op, s, .. } => none
            .with(s)
            .with_if(logic_immediate_records(op), SO),
        Instr::Load { a, .. } => none.with_base(a),
        Instr::Store { s, a, .. } => none.with(s).with_base(a),
        Instr::LoadUpdate { a, .. } => none.with(a),
        Instr::StoreUpdate { s, a, .. } => none.with(s).with(a),
        Instr::Multiple {
            op: MultipleOp::Lmw,
            a,
            ..
        } => none.with_base(a),
        Instr::Multiple {
            op: MultipleOp::Stmw,
            d,
            a,
            ..
        } => registers(d).with_base(a),
        Instr::TrapImmediate { a, .. } => none.with(a),
        Instr::CompareImmediate { a, .. } => none.with(a).with(SO),
        Instr::Rotate {
            op,
            s,
            a,
            by,
            records,
            ..
        } => rotate_operands(op, s, a, by).with_if(records, SO),
        Instr::Branch { .. } => none,
        Instr::BranchConditional { bo, bi, .. } => none.with_condition(bo, bi),
        Instr::SystemCall => none.with(0).with(3).with(4).with(5).with(CR),
        Instr::Arithmetic {
            op,
            a,
            b,
            records,
            ..
        } => none
            .with(a)
            .with(b)
            .with_if(carry_in(op), CA)
            .with_if(records, SO),
        Instr::ArithmeticUnary { op, a, records, .. } => none
            .with(a)
            .with_if(unary_carry(op), CA)
            .with_if(records, SO),
        Instr::Logic { s, b, records, .. } => none.with(s).with(b).with_if(records, SO),
        Instr::ShiftImmediate { s, records, .. } => none.with(s).with_if(records, SO),
        Instr::LogicUnary { s, records, .. } => none.with(s).with_if(records, SO),
        Instr::Compare { a, b, .. } => none.with(a).with(b).with(SO),
        Instr::Trap { a, b, .. } => none.with(a).with(b),
        Instr::MoveFromCr { .. } => fields(255),
        Instr::MoveToCr { s, .. } => none.with(s),
        Instr::MoveFromSpr { spr, .. } => special_register(spr),
        Instr::MoveToSpr { s, .. } => none.with(s),
        Instr::Sync => none,
        Instr::LoadIndexed { a, b, .. } => none.with(b).with_base(a),
        Instr::StoreIndexed { s, a, b, .. } => none.with(s).with(b).with_base(a),
        Instr::LoadIndexedUpdate { a, b, .. } => none.with(a).with(b),
        Instr::StoreIndexedUpdate { s, a, b, .. } => none.with(s).with(a).with(b),
        Instr::MoveCrField { from, .. } => none.with(CR + from),
        Instr::CrLogic { d, a, b, .. } => none.with(CR + a / 4).with(CR + b / 4).with(CR + d / 4),
        Instr::Isync => none,
        Instr::BranchRegister { op, bo, bi, .. } => none
            .with(target_register(op))
            .with_condition(bo, bi),
    }
}

fn written_set(instr: &Instr) -> Locs
    requires { Fit (layout instr.now) }
    ensures bits { result.bits ≡ bits_of (locations_written instr.now) }
    ensures within { result.bits < 2 ^ 46 }
{
    let none = Locs::none();
    match *instr {
        Instr::Immediate { op, d, .. } => none
            .with(d)
            .with_if(immediate_carries(op), CA)
            .with_if(immediate_records(op), CR),
        Instr::LogicImmediate { op, a, .. } => none
            .with(a)
            .with_if(logic_immediate_records(op), CR),
        Instr::Load { d, .. } => none.with(d),
        Instr::Store { .. } => none,
        Instr::LoadUpdate { d, a, .. } => none.with(d).with(a),
        Instr::StoreUpdate { a, .. } => none.with(a),
        Instr::Multiple {
            op: MultipleOp::Lmw,
            d,
            ..
        } => registers(d),
        Instr::Multiple {
            op: MultipleOp::Stmw,
            ..
        } => none,
        Instr::TrapImmediate { .. } => none,
        Instr::CompareImmediate { field, .. } => none.with(CR + field),
        Instr::Rotate { a, records, .. } => none.with(a).with_if(records, CR),
        Instr::Branch { link, .. } => none.with_if(link, LR),
        Instr::BranchConditional { bo, link, .. } => none
            .with_if(counts(bo), CTR)
            .with_if(link, LR),
        Instr::SystemCall => none.with(3).with(CR),
        Instr::Arithmetic { op, d, records, .. } => none
            .with(d)
            .with_if(carry_out(op), CA)
            .with_if(records, CR),
        Instr::ArithmeticUnary { op, d, records, .. } => none
            .with(d)
            .with_if(unary_carry(op), CA)
            .with_if(records, CR),
        Instr::Logic { op, a, records, .. } => none
            .with(a)
            .with_if(logic_carries(op), CA)
            .with_if(records, CR),
        Instr::ShiftImmediate { a, records, .. } => none.with(a).with(CA).with_if(records, CR),
        Instr::LogicUnary { a, records, .. } => none.with(a).with_if(records, CR),
        Instr::Compare { field, .. } => none.with(CR + field),
        Instr::Trap { .. } => none,
        Instr::MoveFromCr { d } => none.with(d),
        Instr::MoveToCr { mask, .. } => fields(mask),
        Instr::MoveFromSpr { d, .. } => none.with(d),
        Instr::MoveToSpr { spr, .. } => special_register(spr),
        Instr::Sync => none,
        Instr::LoadIndexed { d, .. } => none.with(d),
        Instr::StoreIndexed { .. } => none,
        Instr::LoadIndexedUpdate { d, a, .. } => none.with(d).with(a),
        Instr::StoreIndexedUpdate { a, .. } => none.with(a),
        Instr::MoveCrField { to, .. } => none.with(CR + to),
        Instr::CrLogic { d, .. } => none.with(CR + d / 4),
        Instr::Isync => none,
        Instr::BranchRegister { bo, link, .. } => none.with_if(counts(bo), CTR).with_if(link, LR),
    }
}

/// The locations that a legal instruction reads: the registers, fields of CR and parts of XER that its description in
/// Power ISA Book I names as operands. What writes SO into a field of CR reads SO, and what writes a bit of CR reads
/// its field.
pub fn reads(instr: &Instr) -> Locs
    requires { IsLegal instr.now }
    ensures { IsSetOf result (locations_read instr.now) }
{
    read_set(instr)
}

/// The locations that a legal instruction writes.
pub fn writes(instr: &Instr) -> Locs
    requires { IsLegal instr.now }
    ensures { IsSetOf result (locations_written instr.now) }
{
    written_set(instr)
}
