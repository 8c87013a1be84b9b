//! A written file agrees with the program that it is written for.
#![tactic(auto)]

ghost use Rattle.agreement.specs.Plans.{PlansAgree};
ghost use Rattle.agreement.specs.Written.{CarryingIsPlanned, CarryingAgrees};

use laid_code::{blocks_stand, entries_are_addresses, hold_stands, tables_stand};
use live_enough::live_sets_are_enough;
use machines::agrees_if_narrowly;
use simulation::agrees;
use upkeep::{guests_stay_guests, has_home, host_keeps_unwritten, loaded_has_bytes, starts};

/// A program that carries another's plans agrees with it, whichever registers hold GPRs where blocks begin
/// and whatever is live there, as long as what isn't live makes no difference.
pub fn plans_agree()
    ensures { PlansAgree }
{
    agrees();
    agrees_if_narrowly();
    tables_stand();
    has_home();
    guests_stay_guests();
    host_keeps_unwritten();
    starts();
}

/// A file that carries a program's translation agrees with the program: for every list of answers to
/// its calls, every choice of the processor and every n, until the program's first access outside its
/// segments. For it carries plans whose blocks begin with no GPR in a register, with the program's live sets.
pub fn carrying_agrees()
    ensures planned { CarryingIsPlanned }
    ensures agrees { CarryingAgrees }
{
    plans_agree();
    blocks_stand();
    hold_stands();
    entries_are_addresses();
    has_home();
    live_sets_are_enough();
    loaded_has_bytes();
}
