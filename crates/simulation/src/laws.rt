//! What the relation gives. Each law is the contract of a function that does nothing.

ghost use Rattle.simulation.specs.Context.{SimulationContext};
ghost use Rattle.simulation.specs.Relation.{IsTranslation, SimulationIsBounded, SimulationAdvances, HoldHolds, SimulationSettles, StartAgrees, MovesKeep};
ghost use Rattle.simulation.specs.Moves.{MoveCodesMove};

use runs::agreement;
use std::marker::Brand;

/// Each kind of step keeps the relation: a move, a tile, a tile with a branch, the tile of a flow word
/// with its call or end or through the table, an edge, and `hold`.
pub fn keeps_simulation()
    ensures bounded { (s : SimulationContext) → SimulationIsBounded s }
    ensures advances { (s : SimulationContext) → IsTranslation s → SimulationAdvances s }
{}

/// A move of a GPR from its register to its home, or from its home to a register, is a move from the one map
/// to the other, and so are no ops where the GPR is dead.
pub fn moves_keep()
    ensures { MovesKeep }
{}

/// The code of a possible move of a register map is a move from the one map to the other.
pub fn move_codes_move()
    ensures { MoveCodesMove }
{}

/// From `hold` the host goes on for ever and makes no call.
pub fn hold_holds()
    ensures { (s : SimulationContext) → IsTranslation s → HoldHolds s }
{}

/// Behind the moves of an edge the states are in a block again, or the guest is off its code and the
/// host at `hold`.
pub fn settles()
    ensures { (s : SimulationContext) → IsTranslation s → SimulationSettles s }
{}

/// From its start a translation agrees with its program.
pub fn agrees()
    ensures { (s : SimulationContext) → IsTranslation s → StartAgrees s }
{
    agreement::<Brand>();
}
