//! What holds of places, of ops wherever they stand, and of memory. Each law is the contract of a
//! function that does nothing.

ghost use Rattle.symbolic_tiles.specs.Standing.{OpsAreWalked, FlowsAreWalked};
ghost use Rattle.symbolic_tiles.specs.Straight.{RowsAreStraight, AccessesAreInside};
ghost use Rattle.symbolic_tiles.specs.Laws.{PlacesAreRead, PlacesAreWritten, LoadsKeepMemory, OpsStandAnywhere, ProgramsWriteHeld};

/// Under every register map, the place of a location can be read and has its value; it can be written,
/// and behind that the new value is represented and all else as before.
pub fn places_hold()
    ensures read { PlacesAreRead }
    ensures written { PlacesAreWritten }
{}

/// What a program may write lies in its segments.
pub fn programs_write_held()
    ensures { ProgramsWriteHeld }
{}

/// Ops that do what instructions without a store do keep every byte outside the home page, and the
/// homes of GPRs that registers hold.
pub fn loads_keep_memory()
    ensures { LoadsKeepMemory }
{}

/// Where an op stands that is no jump decides nothing but the next op's address.
pub fn op_stands_anywhere()
    ensures { OpsStandAnywhere }
{}

/// A machine that comes to ops that stand one behind another makes a step for each and stands behind
/// them with the core that they lead to.
pub fn ops_are_walked()
    ensures { OpsAreWalked }
{}

/// A machine that comes to the items of a flow tile in the code leaves them as the tile's exit says, in
/// at most one step for each item.
pub fn flows_are_walked()
    ensures { FlowsAreWalked }
{}

/// Every instruction that is no flow word goes on to the next word or ends outside, with no call; where
/// it goes on, what it loads is held, and what it stores is held and may be written.
pub fn straight_rows()
    ensures next { RowsAreStraight }
    ensures access { AccessesAreInside }
{}
