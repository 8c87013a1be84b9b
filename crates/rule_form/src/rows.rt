//! Which instructions a window may have, and the numbers of their parameters.

ghost use Rattle.std.specs.Prelude.{◌≡◌, ◌↔◌, ◌<◌, ◌≤◌, ◌||◌, ◌++◌, ◌∷◌, [], IsTrue, MatchOption, max, fold, if◌then◌else◌};
ghost use Rattle.ppc_isa.specs.Locations.{base};
ghost use Rattle.rule_body.specs.Prelude.{is_plain as plain, is_open as open_, is_ending as ending, has_access as access, numbers, rotated, AreNumbered};

use ppc_isa::{ArithmeticOp, ImmediateOp, Instr, RotateOp};
use rule_body::is_ending;

fn is_plain(instr: &Instr) -> bool
    ensures { result ≡ plain instr.now }
{
    !matches!(
        instr,
        Instr::Multiple { .. }
            | Instr::Arithmetic {
                op: ArithmeticOp::Divw | ArithmeticOp::Divwu,
                ..
            }
            | Instr::Branch { .. }
            | Instr::BranchConditional { .. }
            | Instr::BranchRegister { .. }
            | Instr::SystemCall
            | Instr::TrapImmediate { .. }
            | Instr::Trap { .. }
    )
}

fn is_open(instr: &Instr) -> bool
    ensures { result ≡ open_ instr.now }
{
    match *instr {
        Instr::Immediate { imm, .. }
        | Instr::LogicImmediate { imm, .. }
        | Instr::Load { imm, .. }
        | Instr::Store { imm, .. }
        | Instr::LoadUpdate { imm, .. }
        | Instr::StoreUpdate { imm, .. }
        | Instr::CompareImmediate { imm, .. } => imm == 0,
        _ => false,
    }
}

/// Whether an instruction may stand in a window, as a free word or as one that is not.
pub fn may_stand(free: bool, instr: &Instr) -> bool
    ensures { result ≡ (if free then open_ instr.now || ending instr.now else plain instr.now) }
{
    if free {
        is_open(instr) || is_ending(instr)
    } else {
        is_plain(instr)
    }
}

/// Whether an instruction loads or stores.
pub fn has_access(instr: &Instr) -> bool
    ensures { result ≡ access instr.now }
{
    matches!(
        instr,
        Instr::Load { .. }
            | Instr::Store { .. }
            | Instr::LoadUpdate { .. }
            | Instr::StoreUpdate { .. }
            | Instr::Multiple { .. }
            | Instr::LoadIndexed { .. }
            | Instr::StoreIndexed { .. }
            | Instr::LoadIndexedUpdate { .. }
            | Instr::StoreIndexedUpdate { .. }
    )
}

// How many parameters there are after the numbers, if they go on with those seen before.
fn numbered(seen: u8, numbers: &[u8]) -> Option<u8>
    ensures { MatchOption result (AreNumbered seen numbers.now → ⊥) (λ n. AreNumbered seen numbers.now × (n ≡ fold max seen numbers.now)) }
{
    let mut highest = seen;
    for number in numbers {
        if *number == 0 || *number > 6 || *number as u16 > highest as u16 + 1 {
            return None;
        }
        highest = highest.max(*number);
    }
    Some(highest)
}

// The same for a field and one in the place of a base.
fn numbered_base(seen: u8, d: u8, a: u8) -> Option<u8>
    ensures { MatchOption result (AreNumbered seen (d ∷ base a) → ⊥) (λ n. AreNumbered seen (d ∷ base a) × (n ≡ fold max seen (d ∷ base a))) }
{
    if a == 0 {
        numbered(seen, &[d])
    } else {
        numbered(seen, &[d, a])
    }
}

// The same with an index.
fn numbered_index(seen: u8, d: u8, a: u8, b: u8) -> Option<u8>
    ensures { MatchOption result (AreNumbered seen (d ∷ (base a ++ b ∷ [])) → ⊥) (λ n. AreNumbered seen (d ∷ (base a ++ b ∷ [])) × (n ≡ fold max seen (d ∷ (base a ++ b ∷ [])))) }
{
    if a == 0 {
        numbered(seen, &[d, b])
    } else {
        numbered(seen, &[d, a, b])
    }
}

// The same for a rotation, whose count may stand in a register.
fn numbered_rotate(seen: u8, op: RotateOp, s: u8, a: u8, by: u8) -> Option<u8>
    ensures { MatchOption result
        (AreNumbered seen (rotated op s a by) → ⊥)
        (λ n. AreNumbered seen (rotated op s a by) × (n ≡ fold max seen (rotated op s a by))) }
{
    match op {
        RotateOp::Rlwnm => numbered(seen, &[s, a, by]),
        RotateOp::Rlwinm | RotateOp::Rlwimi => numbered(seen, &[s, a]),
    }
}

/// How many parameters there are after an instruction, if its numbers go on with those seen before.
pub fn parameters_after(seen: u8, instr: &Instr) -> Option<u8>
    ensures { MatchOption result
        (AreNumbered seen (numbers instr.now) → ⊥)
        (λ n. AreNumbered seen (numbers instr.now) × (n ≡ fold max seen (numbers instr.now))) }
{
    match *instr {
        Instr::Immediate {
            op: ImmediateOp::Addi | ImmediateOp::Addis,
            d,
            a,
            ..
        } => numbered_base(seen, d, a),
        Instr::Load { d, a, .. } | Instr::Store { s: d, a, .. } => numbered_base(seen, d, a),
        Instr::LoadIndexed { d, a, b, .. } | Instr::StoreIndexed { s: d, a, b, .. } => {
            numbered_index(seen, d, a, b)
        }
        Instr::Rotate { op, s, a, by, .. } => numbered_rotate(seen, op, s, a, by),
        Instr::Immediate { d, a, .. }
        | Instr::LogicImmediate { s: d, a, .. }
        | Instr::LoadUpdate { d, a, .. }
        | Instr::StoreUpdate { s: d, a, .. }
        | Instr::ArithmeticUnary { d, a, .. }
        | Instr::ShiftImmediate { s: d, a, .. }
        | Instr::LogicUnary { s: d, a, .. } => numbered(seen, &[d, a]),
        Instr::Arithmetic { d, a, b, .. }
        | Instr::Logic { s: d, a, b, .. }
        | Instr::LoadIndexedUpdate { d, a, b, .. }
        | Instr::StoreIndexedUpdate { s: d, a, b, .. } => numbered(seen, &[d, a, b]),
        Instr::Compare { a, b, .. } => numbered(seen, &[a, b]),
        Instr::CompareImmediate { a, .. } => numbered(seen, &[a]),
        Instr::MoveFromCr { d }
        | Instr::MoveToCr { s: d, .. }
        | Instr::MoveFromSpr { d, .. }
        | Instr::MoveToSpr { s: d, .. } => numbered(seen, &[d]),
        _ => numbered(seen, &[]),
    }
}
