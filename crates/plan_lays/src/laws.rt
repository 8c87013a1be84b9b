//! The law, the contract of a function that does nothing.

ghost use Rattle.plan_lays.specs.Laws.{ValidPlansLay};

/// A valid plan of a block's problem, with no GPR in a register at its start and at its end, lays the block's words one by one
/// with possible moves between them.
pub fn valid_plans_lay()
    ensures { ValidPlansLay }
{}
