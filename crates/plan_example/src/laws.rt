//! What holds of the example. The law is the contract of a function that calls the laws that it rests on.

ghost use Rattle.machines.specs.Prelude.{AgreesWith};
ghost use Rattle.plan_example.specs.Example.{program, translation};

use laid_code::plans_stand;
use simulation::moves_keep;
use upkeep::{all_live_is_enough, has_home, starts};

/// A program of four words agrees with its translation by two blocks and two single words: with a move
/// inside a block, a window of two words, a switch on an edge, and an adapter to which the table leads.
pub fn plans_agree()
    ensures { AgreesWith program translation }
{
    agreement::plans_agree();
    moves_keep();
    plans_stand();
    has_home();
    all_live_is_enough();
    starts();
}
