//! What holds of the tiles. Each law is the contract of a function that does nothing.

ghost use Rattle.base_flow.specs.Laws.{FlowTilesDoRows, IllegalTileDoesWord, FlowTilesAreMarked, FlowTilesAreLaid, FlowTilesAreShort, BuiltHaveTiles};

/// Each tile of a flow word does what the word's row does, under every map under which it has one.
pub fn flow_tiles_do_rows()
    ensures { FlowTilesDoRows }
{}

/// The op ud2 does what a word does that is no instruction.
pub fn illegal_tile_does_word()
    ensures { IllegalTileDoesWord }
{}

/// Each jump of a tile leads to a mark behind it, no mark stands twice, and there are at most 37 items.
pub fn flow_tiles_are_marked()
    ensures { FlowTilesAreMarked }
{}

/// Each op of a tile can be spelled over every home page.
pub fn flow_tiles_are_laid()
    ensures { FlowTilesAreLaid }
{}

/// No tile has more than 595 bytes, its edges' moves included.
pub fn flow_tiles_are_short()
    ensures { FlowTilesAreShort }
{}

/// A built instruction is a flow word that has a tile where no GPR is in ebx.
pub fn built_have_tiles()
    ensures { BuiltHaveTiles }
{}
