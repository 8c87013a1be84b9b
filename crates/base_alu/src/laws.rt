//! What holds of the tiles. Each law is the contract of a function that does nothing.

ghost use Rattle.base_alu.specs.Laws.{TilesAreTiles, TilesDoRows, TilesArePlaceable, TilesAreShort, BuiltAreStraight};

/// Each legal built instruction has a tile: well-formed, short, and under every map it does the row.
pub fn tiles_are_tiles()
    ensures { TilesAreTiles }
{}

/// As ops each tile does the row.
pub fn tiles_do_rows()
    ensures { TilesDoRows }
{}

/// Each op of each tile can be spelled over every home page.
pub fn tiles_are_placeable()
    ensures { TilesArePlaceable }
{}

/// No tile has more than 128 ops, nor more than 595 bytes.
pub fn tiles_are_short()
    ensures { TilesAreShort }
{}

/// A built instruction is no flow word.
pub fn built_are_straight()
    ensures { BuiltAreStraight }
{}
