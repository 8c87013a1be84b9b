//! The tiles that are offered.

ghost use Rattle.std.specs.Prelude.{◌≡◌, ◌==◌, ◌||◌, not, ◌<◌, ◌≤◌, ◌++◌, true, None, IfOk, IfSome, OnOk, All, length, filter, slice_index_or};
ghost use Rattle.std.specs.List.{flat_map};
ghost use Rattle.reg_map.specs.Prelude.{IsMap};
ghost use Rattle.row_laws.specs.FlowWords.{is_flow as is_flow_word};
ghost use Rattle.offer_make.specs.Prices.{HaveBaseTiles, symbolic_price};
ghost use Rattle.offer_make.specs.Tables.{base_tile, base_tiles, is_same_map, may_lie, offers_of};

use crate::prices::{flow_price, ops_cost, straight_ops};
use base_flow::is_flow;
use plan_form::{Offer, Tile, same_map};
use ppc_isa::{Instr, Map};
use std::alloc::Global;
use symbolic_tiles::SymbolicOp;
use word_kit::NoMemory;

// Whether what leads to this place may lie under the map: that to the last place lies under the exit map alone.
fn may_end(map: &Map, to: u32, last: usize, exit: &Map) -> bool
    ensures { result ≡ (not (to == last) || is_same_map map.now exit.now) }
{
    to as usize != last || same_map(map, exit)
}

// The base tile of a word that is no flow word, told without a map, under each map; that to the last place under the exit map
// alone.
fn push_straight(
    offers: &mut Vec<Offer>,
    ops: &[SymbolicOp],
    place: u32,
    last: usize,
    exit: &Map,
    maps: &[Map],
) -> Result<(), NoMemory>
    requires short { last ≤ 64 }
    requires place { place < last }
    requires few { length ops.now ≤ 128 }
    requires maps { All IsMap maps.now }
    ensures { OnOk result (offers.new.items ≡ offers.old.items
        ++ flat_map (λ m. filter (may_lie last exit.now) (base_tile place (symbolic_price ops.now) m)) maps.now) }
{
    let to = place + 1;
    for map in maps {
        if may_end(map, to, last, exit) {
            offers.push(Offer {
                from: place,
                to,
                map: *map,
                tile: Tile::Base,
                price: ops_cost(ops, map),
            })?;
        }
    }
    Ok(())
}

// The base tile of a flow word or an illegal word at a place under each map; that of the last word under the exit map alone.
fn push_flow(
    alloc: Global,
    offers: &mut Vec<Offer>,
    at: u32,
    words: &[Option<Instr>],
    place: u32,
    exit: &Map,
    maps: &[Map],
) -> Result<(), NoMemory>
    requires short { length words.now ≤ 64 }
    requires place { place < length words.now }
    requires maps { All IsMap maps.now }
    requires tiles { HaveBaseTiles words.now exit.now }
    requires flow { IfSome (slice_index_or words.now place None) (λ instr. is_flow_word instr ≡ true) }
    ensures { OnOk result (offers.new.items ≡ offers.old.items
        ++ flat_map (λ m. filter (may_lie (length words.now) exit.now) (base_tiles at words.now place m)) maps.now) }
{
    let to = place + 1;
    let here = at.wrapping_add(4 * place);
    for map in maps {
        if may_end(map, to, words.len(), exit) {
            offers.push(Offer {
                from: place,
                to,
                map: *map,
                tile: Tile::Base,
                price: flow_price(alloc, &words[place as usize], here, map)?,
            })?;
        }
    }
    Ok(())
}

// The base tile of the word at a place under each map; that of the last word under the exit map alone.
fn push_base(
    alloc: Global,
    offers: &mut Vec<Offer>,
    at: u32,
    words: &[Option<Instr>],
    place: u32,
    exit: &Map,
    maps: &[Map],
) -> Result<(), NoMemory>
    requires short { length words.now ≤ 64 }
    requires place { place < length words.now }
    requires maps { All IsMap maps.now }
    requires tiles { HaveBaseTiles words.now exit.now }
    ensures { OnOk result (offers.new.items ≡ offers.old.items
        ++ flat_map (λ m. filter (may_lie (length words.now) exit.now) (base_tiles at words.now place m)) maps.now) }
{
    if let Some(instr) = &words[place as usize] {
        if !is_flow(instr) {
            let ops = straight_ops(alloc, instr)?;
            return push_straight(offers, ops.as_slice(), place, words.len(), exit, maps);
        }
    }
    push_flow(alloc, offers, at, words, place, exit, maps)
}

/// The base tile of each word of a block that begins at a guest address, under each map; that of the last word under the
/// exit map alone.
pub fn offers(
    alloc: Global,
    at: u32,
    words: &[Option<Instr>],
    exit: &Map,
    maps: &[Map],
) -> Result<Vec<Offer>, NoMemory>
    requires short { length words.now ≤ 64 }
    requires maps { All IsMap maps.now }
    requires tiles { HaveBaseTiles words.now exit.now }
    ensures { IfOk result (λ offers. offers.items ≡ offers_of (length words.now) exit.now maps.now (base_tiles at words.now)) }
{
    let mut offers = Vec::new(alloc);
    for place in 0..words.len() {
        push_base(alloc, &mut offers, at, words, place as u32, exit, maps)?;
    }
    Ok(offers)
}
