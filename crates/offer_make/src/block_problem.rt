//! The problem of a block.

ghost use Rattle.std.specs.Prelude.{◌≡◌, [], IfOk};
ghost use Rattle.plan_form.specs.Prelude.{IsFull};
ghost use Rattle.offer_make.specs.Problem.{IsBlockOf, AreBoundaryMaps, IsProblemOf};

use crate::candidates::candidates;
use crate::laws::base_prices_are_low;
use crate::maps::maps_over;
use crate::moves::{moves, moves_between};
use crate::offers::offers;
use crate::words::decoded_words;
use block_find::Block;
use liveness::LiveSets;
use plan_form::Problem;
use ppc_isa::{Map, one_instruction};
use reg_map::moves_move_one;
use rule_audit::Audited;
use std::alloc::Global;
use word_kit::NoMemory;

/// The problem of a block with its boundary maps: all maps over its candidates, the moves between these and the base tiles of
/// its words, with their prices. A leader's block has candidates; a word that stands alone has none. The tables stand in order
/// of place, then of map, then of step. There are no rules yet whose tiles could be offered.
///
/// # Errors
/// `NoMemory` where there is no memory for the tables.
pub fn problem(
    alloc: Global,
    block: &Block,
    entry: &Map,
    exit: &Map,
    leader: bool,
    live: &LiveSets,
    rules: &Audited,
) -> Result<Problem, NoMemory>
    requires block { IsBlockOf live.now block.now }
    requires norules { rules.now.rules.items ≡ [] }
    requires boundary { AreBoundaryMaps block.now entry.now exit.now leader }
    ensures full { IfOk result (λ q. IsFull q) }
    ensures problem { IfOk result (λ q. IsProblemOf block.now entry.now exit.now leader live.now q) }
{
    one_instruction();
    moves_move_one();
    base_prices_are_low();
    let words = block.words.as_slice();
    let count = words.len() as u32;
    let first = ((block.at - live.first()) / 4) as usize;
    let decoded = decoded_words(alloc, words)?;
    let candidates = candidates(alloc, words, entry, exit, leader)?;
    let maps = maps_over(alloc, &candidates)?;
    let between = moves_between(alloc, &candidates, &maps)?;
    let moves = moves(alloc, count, live, first, &between)?;
    let offers = offers(alloc, block.at, &decoded, exit, &maps)?;
    Ok(Problem {
        places: count + 1,
        entry: *entry,
        exit: *exit,
        maps,
        offers,
        moves,
    })
}
