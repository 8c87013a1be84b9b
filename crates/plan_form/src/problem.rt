//! Problems, plans and labels.

use ppc_isa::Map;
use reg_map::Move;

/// What covers one to three words under an unchanged map: the base tile of one word, or a rule by its number.
#[derive(Clone, Copy, PartialEq, Eq, Debug)]
pub enum Tile {
    Base,
    Rule(u32),
}

/// A tile that may be laid from one place to a later one under a map. Places count the words of a block
/// before which they stand; the last place stands behind all of them.
#[derive(Clone, Copy)]
pub struct Offer {
    pub from: u32,
    pub to: u32,
    pub map: Map,
    pub tile: Tile,
    pub price: u32,
}

/// A move that may be made at a place under a map.
#[derive(Clone, Copy)]
pub struct MovePrice {
    pub place: u32,
    pub map: Map,
    pub step: Move,
    pub price: u32,
}

/// What a plan of a block may do: it leads from place 0 under the entry map to the last place under the
/// exit map.
#[derive(Drop)]
pub struct Problem {
    /// How many places there are: one more than the block's words.
    pub places: u32,
    pub entry: Map,
    pub exit: Map,
    pub maps: Vec<Map>,
    pub offers: Vec<Offer>,
    pub moves: Vec<MovePrice>,
}

/// A step of a plan.
#[derive(Clone, Copy)]
pub enum Step {
    Go(Move),
    Lay(Tile),
}

/// The steps from place 0 to the last place.
#[derive(Drop)]
pub struct Plan {
    pub steps: Vec<Step>,
}

/// A label for each node: by place, all maps in order, and at the last place the exit map alone.
#[derive(Drop)]
pub struct Labels {
    pub values: Vec<Vec<u32>>,
}

/// The plan of the block at an address, of so many words, with its boundary maps and its labels.
#[derive(Drop)]
pub struct BlockPlan {
    pub at: u32,
    pub words: u32,
    pub entry: Map,
    pub exit: Map,
    pub plan: Plan,
    pub labels: Labels,
}

/// Where labels fail: at an edge from this place, under the map of this number, with the labels of both its
/// ends and its price. For the start and the end, the map is the entry map and the exit map, `from` is the
/// label that stands, `to` the one that is needed, and the price is 0.
#[derive(Clone, Copy, PartialEq, Eq, Debug)]
pub struct BadLabel {
    pub place: u32,
    pub map: u32,
    pub from: u32,
    pub to: u64,
    pub price: u32,
}
