//! The rows of a window.

ghost use Rattle.std.specs.Prelude.{◌≡◌, ◌≤◌, List, Some, None, IfOk, IfSome, slice_get};
ghost use Rattle.std.specs.List.{All};
ghost use Rattle.machines.specs.Prelude.{Instr as Word, IsWordOf};
ghost use Rattle.rule_body.specs.Prelude.{AreGuests, IsGoal, IsWindow, guests_of};
ghost use Rattle.row_circuits.specs.Windows.{IsWindowRow};
ghost use Rattle.rule_rows.specs.Rows.{rows_for, window_width as width_of};

use crate::fields::{load_width, row_for};
use ppc_isa::{Instr, decode, one_instruction};
use row_circuits::WindowRow;
use rule_body::{Goal, Guest, guest_at};
use std::alloc::Global;
use word_kit::NoMemory;

// The word at a place of a window, and its instruction.
fn word_at(goal: &Goal, place: u8) -> Option<(Guest, Instr)>
    requires { goal.now.count ≤ 3 }
    ensures word { IfSome result (λ w. (slice_get (guests_of goal.now) place ≡ Some w.0) × IsWordOf w.0.word w.1) }
    ensures none { result ≡ None → (words : List Word) → AreGuests (guests_of goal.now) words → slice_get (guests_of goal.now) place ≡ None }
{
    let guest = guest_at(goal, place)?;
    let instr = decode(guest.word)?;
    Some((guest, instr))
}

/// The rows of a goal's window, in order.
///
/// # Errors
/// Where there is no memory for them.
pub fn window_rows(alloc: Global, goal: &Goal) -> Result<Vec<WindowRow>, NoMemory>
    requires { IsGoal goal.now }
    ensures exact { IfOk result (λ rows. (words : List Word) → IsWindow (guests_of goal.now) words → rows.items ≡ rows_for goal.now words) }
    ensures rows { IfOk result (λ rows. All IsWindowRow rows.items) }
{
    one_instruction();
    let mut rows = Vec::new(alloc);
    for place in 0..goal.count {
        match word_at(goal, place) {
            Some((guest, instr)) => rows.push(row_for(place, guest, &instr))?,
            None => {}
        }
    }
    Ok(rows)
}

/// How many bytes the load of a goal's window has, and 0 where it has none.
pub fn window_width(goal: &Goal) -> u8
    requires { IsGoal goal.now }
    ensures exact { (words : List Word) → IsWindow (guests_of goal.now) words → result ≡ width_of words }
    ensures few { result ≤ 4 }
{
    one_instruction();
    let mut width = 0;
    for place in 0..goal.count {
        match word_at(goal, place) {
            Some((_, instr)) => width += load_width(&instr),
            None => {}
        }
    }
    width
}
