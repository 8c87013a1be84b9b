//! What the bytes of the code carry. Each law is the contract of a function that does nothing.

ghost use Rattle.laid_code.specs.Laws.{SpellingsStand, JumpsLead, ItemsStand, PlansStand, BlocksStand, HoldStands, EntriesAreAddresses, TablesStand};

use block_find::{each_begins_one, each_is_block};
use simulation::move_codes_move;

/// Where the spelling of an op stands in the code, the op stands.
pub fn spellings_stand()
    ensures { SpellingsStand }
{}

/// A jump leads to the target that its bytes were made for.
pub fn jumps_lead()
    ensures { JumpsLead }
{}

/// Where the bytes of items stand the items stand, with the switches of their edges and their indirect
/// sequences.
pub fn items_stand()
    ensures { ItemsStand }
{}

/// Where the bytes of a plan's items stand, the block stands: with moves, tiles of one or more words, a
/// tile that ends by its condition, or a flow word's tile, and with the switches of its edges.
pub fn plans_stand()
    ensures { PlansStand }
{}

/// At each code word of a program its block stands in the written code by its plan, and edges to other addresses lead to
/// `hold`.
pub fn blocks_stand()
    ensures { BlocksStand }
{
    each_begins_one();
    each_is_block();
    move_codes_move();
}

/// `hold` is a jump to itself.
pub fn hold_stands()
    ensures { HoldStands }
{}

/// The table of a program's laid code is made of host addresses.
pub fn entries_are_addresses()
    ensures { EntriesAreAddresses }
{}

/// A table that stands in a written file's memory leads where its words say, and elsewhere to `hold`.
pub fn tables_stand()
    ensures { TablesStand }
{}
