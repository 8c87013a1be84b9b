//! What a sound rule is to a plan. Each law is the contract of a function that does nothing.

ghost use Rattle.simulation.specs.Prelude.{SimulationContext, IsTranslation};
ghost use Rattle.rule_tiles.specs.Laws.{RuleIsTile, RuleIsBranchTile, RuleKeeps, RuleBranchKeeps};

use ppc_isa::one_instruction;
use simulation::keeps_simulation;

/// A sound rule is a tile of a block's plan where it matches; with a take code it is the tile with two edges that ends one.
pub fn rules_are_tiles()
    ensures tile { (s : SimulationContext) → IsTranslation s → RuleIsTile s }
    ensures branch { (s : SimulationContext) → IsTranslation s → RuleIsBranchTile s }
{
    one_instruction();
}

/// A sound rule that is laid where it matches keeps the simulation: from states that represent each other it leads to
/// states that do.
pub fn rules_keep_simulation()
    ensures straight { (s : SimulationContext) → IsTranslation s → RuleKeeps s }
    ensures branch { (s : SimulationContext) → IsTranslation s → RuleBranchKeeps s }
{
    rules_are_tiles();
    keeps_simulation();
}
