//! The law, the contract of a function that does nothing.

ghost use Rattle.one_plan.specs.Laws.{OneListOfBestPlans};

use ppc_isa::one_instruction;

/// Two lists of best plans of a program are the same, plan by plan.
pub fn one_list_of_best_plans()
    ensures { OneListOfBestPlans }
{
    one_instruction();
}
