//! The moves between a block's maps, and their prices.

ghost use Rattle.std.specs.Prelude.{◌≡◌, ◌+◌, ◌<◌, ◌≤◌, ◌^◌, ◌++◌, IfOk, OnOk, All, AllPairs, length, map, filter, slice_index};
ghost use Rattle.std.specs.List.{flat_map, range_with_len};
ghost use Rattle.machines.specs.Prelude.{IsMap};
ghost use Rattle.reg_map.specs.Prelude.{slot_of, content as content_of, IsPossible};
ghost use Rattle.offer_make.specs.Prices.{move_price as price_of};
ghost use Rattle.offer_make.specs.Tables.{is_empty, may_move as may_move_of, slots, all_moves as all_moves_of, moves_between as moves_between_of, priced_at, moves_of};

use ia_codec::cost;
use liveness::LiveSets;
use plan_form::MovePrice;
use ppc_isa::{Locs, Map};
use reg_map::{Move, code_of_move};
use std::alloc::Global;
use word_kit::NoMemory;

// The content of a slot.
fn content(map: &Map, slot: u8) -> Option<u8>
    ensures { result ≡ content_of map.now slot }
{
    match slot {
        0 => map.ebx,
        1 => map.esi,
        _ => map.edi,
    }
}

// Whether no slot holds the GPR.
fn is_at_home(map: &Map, gpr: u8) -> bool
    ensures { result ≡ is_empty (slot_of map.now gpr) }
{
    map.ebx != Some(gpr) && map.esi != Some(gpr) && map.edi != Some(gpr)
}

// Whether the move may be made under the map.
fn may_move(map: &Map, step: Move) -> bool
    ensures { result ≡ may_move_of map.now step }
{
    match step {
        Move::Drop(slot) => content(map, slot).is_some(),
        Move::Take(slot, gpr) => content(map, slot).is_none() && is_at_home(map, gpr),
    }
}

// The moves that a slot takes a candidate.
fn push_takes(steps: &mut Vec<Move>, slot: u8, candidates: &[u8]) -> Result<(), NoMemory>
    ensures { OnOk result (steps.new.items ≡ steps.old.items ++ map (Move.Take slot) candidates.now) }
{
    for gpr in candidates {
        steps.push(Move::Take(slot, *gpr))?;
    }
    Ok(())
}

// Drop by slot, then Take by slot and candidate.
fn all_moves(alloc: Global, candidates: &[u8]) -> Result<Vec<Move>, NoMemory>
    ensures { IfOk result (λ steps. steps.items ≡ all_moves_of candidates.now) }
{
    let mut steps = Vec::new(alloc);
    steps.push(Move::Drop(0))?;
    steps.push(Move::Drop(1))?;
    steps.push(Move::Drop(2))?;
    push_takes(&mut steps, 0, candidates)?;
    push_takes(&mut steps, 1, candidates)?;
    push_takes(&mut steps, 2, candidates)?;
    Ok(steps)
}

// The moves that may be made under a map, yet without place and price.
fn push_moves(moves: &mut Vec<MovePrice>, from: &Map, steps: &[Move]) -> Result<(), NoMemory>
    ensures { OnOk result (moves.new.items ≡ moves.old.items
        ++ map (λ step. record { place = 0; map = from.now; step = step; price = 0 }) (filter (may_move_of from.now) steps.now)) }
{
    for step in steps {
        if may_move(from, *step) {
            moves.push(MovePrice {
                place: 0,
                map: *from,
                step: *step,
                price: 0,
            })?;
        }
    }
    Ok(())
}

/// The moves between the maps, by the map that they lead from, yet without place and price.
pub fn moves_between(
    alloc: Global,
    candidates: &[u8],
    maps: &[Map],
) -> Result<Vec<MovePrice>, NoMemory>
    ensures { IfOk result (λ moves. moves.items ≡ moves_between_of candidates.now maps.now) }
{
    let steps = all_moves(alloc, candidates)?;
    let mut moves = Vec::new(alloc);
    for from in maps {
        push_moves(&mut moves, from, steps.as_slice())?;
    }
    Ok(moves)
}

// What a move costs where these locations are live.
fn move_price(map: &Map, step: Move, live: &Locs) -> u32
    requires map { IsMap map.now }
    requires possible { IsPossible map.now step }
    ensures { result ≡ price_of live.now.bits map.now step }
{
    match code_of_move(map, step, live) {
        Some(op) => cost(&op),
        None => 0,
    }
}

// The moves at a place.
fn push_priced(
    moves: &mut Vec<MovePrice>,
    between: &[MovePrice],
    place: u32,
    live: &Locs,
) -> Result<(), NoMemory>
    requires { All (λ move. IsMap move.map × IsPossible move.map move.step) between.now }
    ensures { OnOk result (moves.new.items ≡ moves.old.items ++ map (priced_at (λ p. live.now.bits) place) between.now) }
{
    for item in between {
        moves.push(MovePrice {
            place,
            map: item.map,
            step: item.step,
            price: move_price(&item.map, item.step, live),
        })?;
    }
    Ok(())
}

/// The moves at the first so many places, the first of which is that of the code word at `first`.
pub fn moves(
    alloc: Global,
    count: u32,
    live: &LiveSets,
    first: usize,
    between: &[MovePrice],
) -> Result<Vec<MovePrice>, NoMemory>
    requires low { first < 2 ^ 32 }
    requires within { first + count ≤ length live.now.bits }
    requires possible { All (λ move. IsMap move.map × IsPossible move.map move.step) between.now }
    ensures { IfOk result (λ moves. moves.items
        ≡ flat_map (λ place. map (priced_at (λ p. slice_index live.now.bits (first + p)) place) between.now) (range_with_len 0 count)) }
{
    let mut moves = Vec::new(alloc);
    for place in 0..count {
        push_priced(&mut moves, between, place, &live.at(first + place as usize))?;
    }
    Ok(moves)
}
