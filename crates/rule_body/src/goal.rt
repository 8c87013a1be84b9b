//! Goals: windows of guest words.

ghost use Rattle.std.specs.Prelude.{◌≡◌, ◌↔◌, ◌<◌, ◌≤◌, ◌-◌, IsTrue, length, slice_get};
ghost use Rattle.rule_body.specs.Goals.{guests_of};
ghost use Rattle.rule_body.specs.Rows.{is_ending as ending};
ghost use Rattle.rule_body.specs.Templates.{IsEndingWord};

use ppc_isa::{Instr, decode};

/// A set of locations by their names p1 to p6, lr, ctr, cr0 to cr7, ca, so, ov, xc: bit k is that of name k, counted from 0.
/// Bits from 20 on are 0.
#[derive(Clone, Copy)]
pub struct DeadSet {
    pub bits: u32,
}

/// A guest word of a window; where it is free, its immediate or its target stands for every value.
#[derive(Clone, Copy)]
pub struct Guest {
    pub word: u32,
    pub free: bool,
}

/// A window of one to three guest words, whose register fields have the numbers of parameters, 1 to 6. `free` is true for a
/// word whose immediate stands for every value, `slots` for a parameter that stands in a slot; it stands at home else. What
/// is past `count` and past `parameters` is 0 and false.
#[derive(Clone, Copy)]
pub struct Goal {
    pub words: [u32; 3],
    pub free: [bool; 3],
    pub count: u8,
    pub slots: [bool; 6],
    pub parameters: u8,
    pub dead: DeadSet,
}

/// The guest word at a place of the window, counted from 0.
pub fn guest_at(goal: &Goal, place: u8) -> Option<Guest>
    requires { goal.now.count ≤ 3 }
    ensures { result ≡ slice_get (guests_of goal.now) place }
{
    if place >= goal.count {
        return None;
    }
    Some(Guest {
        word: goal.words[place as usize],
        free: goal.free[place as usize],
    })
}

/// The last guest word of a window.
pub fn last_guest(goal: &Goal) -> Guest
    requires few { goal.now.count ≤ 3 }
    requires some { 0 < goal.now.count }
    ensures { slice_get (guests_of goal.now) (length (guests_of goal.now) - 1) ≡ Some result }
{
    let place = goal.count as usize - 1;
    Guest {
        word: goal.words[place],
        free: goal.free[place],
    }
}

/// Whether an instruction is a conditional branch in which a window may end: on a bit of CR alone, without a link, and with
/// 0 for its target.
pub fn is_ending(instr: &Instr) -> bool
    ensures { result ≡ ending instr.now }
{
    match *instr {
        Instr::BranchConditional {
            bo,
            target,
            absolute,
            link,
            ..
        } => bo / 16 % 2 == 0 && bo / 4 % 2 == 1 && target == 0 && !absolute && !link,
        _ => false,
    }
}

/// Whether a word is that of such a branch.
pub fn is_ending_word(word: u32) -> bool
    ensures { IsTrue result ↔ IsEndingWord word }
{
    let Some(instr) = decode(word) else {
        return false;
    };
    is_ending(&instr)
}
