//! The items of a block.

ghost use Rattle.std.specs.Prelude.{[], ◌≡◌, ◌↔◌, ◌≤◌, ◌<◌, ◌+◌, ◌*◌, ◌^◌, ◌++◌, ℕ, IsTrue, IfOk, OnOk, All, MatchOption, length};
ghost use Rattle.machines.specs.Prelude.{IsLegal};
ghost use Rattle.reg_map.specs.Prelude.{IsMap, IsPossible, move_code, moved};
ghost use Rattle.liveness.specs.Prelude.{Sets, live_at};
ghost use Rattle.code_layout.specs.Built.{IsBuiltStraight};
ghost use Rattle.code_layout.specs.Decoded.{IsLegalDecoded};
ghost use Rattle.code_layout.specs.Places.{no_moves, no_registers};
ghost use Rattle.code_layout.specs.Code.{IsEnding, IsLaid, LaysWords, ops_in, plain, tile_items, word_ops, block_items as items_of, items_length};

use crate::places::place_at;
use base_flow::{FlowOp, is_flow, next_address};
use ia_codec::Op;
use liveness::LiveSets;
use plan_form::{Step, map_behind};
use ppc_isa::{Instr, Locs, Map};
use reg_map::{Move, code_of_move, moves_move_one};
use std::alloc::Global;
use word_kit::NoMemory;

/// The items of a block of these words by the steps of its plan, where the first of the words stands at a guest address: the op
/// of each move, if its GPR is live, and the base tile of each word, which is ud2 for an illegal word; and where the last word is
/// no flow word the edge to the next address. The block begins and ends with no GPR in a register.
pub fn block_items(
    alloc: Global,
    at: u32,
    words: &[Option<Instr>],
    steps: &[Step],
    live: &LiveSets,
) -> Result<Vec<FlowOp>, NoMemory>
    requires legal { All IsLegalDecoded words.now }
    requires short { length words.now ≤ 64 }
    requires plan { LaysWords 6 no_registers words.now steps.now no_registers }
    requires few { length live.now.bits ≤ 131072 }
    requires room { live.now.first + 4 * length live.now.bits ≤ 2 ^ 32 }
    ensures items { IfOk result (λ v. v.items ≡ items_of (live_at live.now) at no_registers words.now steps.now) }
    ensures laid { IfOk result (λ v. All IsLaid v.items) }
    ensures few { IfOk result (λ v. length v.items ≤ 8577) }
    ensures length { IfOk result (λ v. items_length no_moves v.items ≤ 631 * length words.now + 5) }
{
    moves_move_one();
    planned(alloc, at, words, steps, live)
}

// Without what follows from which items they are.
fn planned(
    alloc: Global,
    at: u32,
    words: &[Option<Instr>],
    steps: &[Step],
    live: &LiveSets,
) -> Result<Vec<FlowOp>, NoMemory>
    requires legal { All IsLegalDecoded words.now }
    requires plan { LaysWords 6 no_registers words.now steps.now no_registers }
    requires few { length live.now.bits ≤ 131072 }
    requires room { live.now.first + 4 * length live.now.bits ≤ 2 ^ 32 }
    ensures { IfOk result (λ v. v.items ≡ items_of (live_at live.now) at no_registers words.now steps.now) }
{
    moves_move_one();
    let mut map = Map {
        ebx: None,
        esi: None,
        edi: None,
    };
    let mut items = Vec::new(alloc);
    let mut here = at;
    let mut place = 0;
    for step in steps {
        match *step {
            Step::Go(go) => {
                put_move(&mut items, &map, go, &live_before(live, here))?;
                map = map_behind(&map, go);
            }
            Step::Lay(_) => {
                put_tile(alloc, &mut items, &words[place], here, &map)?;
                if is_ending(&words[place]) {
                    return Ok(items);
                }
                here = next_address(here);
                place += 1;
            }
        }
    }
    items.push(FlowOp::Edge(here))?;
    Ok(items)
}

// The locations that are live before the word at a guest address; none where no code word stands.
fn live_before(live: &LiveSets, address: u32) -> Locs
    requires few { length live.now.bits ≤ 131072 }
    requires room { live.now.first + 4 * length live.now.bits ≤ 2 ^ 32 }
    ensures { result.bits ≡ live_at live.now address }
{
    match place_at(live.first(), address, live.len()) {
        Some(place) => live.at(place),
        None => Locs { bits: 0 },
    }
}

// Whether a word ends a block: a flow word or an illegal one.
fn is_ending(word: &Option<Instr>) -> bool
    ensures { IsTrue result ↔ IsEnding word.now }
{
    match word {
        Some(instr) => is_flow(instr),
        None => true,
    }
}

// Puts the op of a move behind the items, if it has one.
fn put_move(items: &mut Vec<FlowOp>, map: &Map, go: Move, live: &Locs) -> Result<(), NoMemory>
    requires map { IsMap map.now }
    requires possible { IsPossible map.now go }
    ensures { OnOk result (items.new.items ≡ items.old.items ++ plain (ops_in (move_code map.now go live.now.bits))) }
{
    if let Some(op) = code_of_move(map, go, live) {
        items.push(FlowOp::Plain(op))?;
    }
    Ok(())
}

// Puts the base tile of a word behind the items.
fn put_tile(
    alloc: Global,
    items: &mut Vec<FlowOp>,
    word: &Option<Instr>,
    here: u32,
    map: &Map,
) -> Result<(), NoMemory>
    requires map { IsMap map.now }
    requires legal { IsLegalDecoded word.now }
    requires ending { IsEnding word.now → map.now ≡ no_registers }
    ensures { OnOk result (items.new.items ≡ items.old.items ++ tile_items here map.now word.now []) }
{
    let Some(instr) = word else {
        items.push(FlowOp::Plain(Op::Ud2))?;
        return Ok(());
    };
    if is_flow(instr) {
        let flow = base_flow::emit(alloc, instr, here, map)?;
        items.extend_from_slice(&flow)?;
        return Ok(());
    }
    let ops = straight_ops(alloc, instr, map)?;
    put_plain(items, &ops)
}

// The ops of a word that is no flow word.
fn straight_ops(alloc: Global, instr: &Instr, map: &Map) -> Result<Vec<Op>, NoMemory>
    requires map { IsMap map.now }
    requires built { IsBuiltStraight instr.now }
    requires legal { IsLegal instr.now }
    ensures { IfOk result (λ ops. ops.items ≡ word_ops instr.now map.now) }
{
    if base_mem::is_built(instr) {
        base_mem::emit(alloc, instr, map)
    } else {
        base_alu::emit(alloc, instr, map)
    }
}

// Puts ops behind the items.
fn put_plain(items: &mut Vec<FlowOp>, ops: &[Op]) -> Result<(), NoMemory>
    ensures { OnOk result (items.new.items ≡ items.old.items ++ plain ops.now) }
{
    for op in ops {
        items.push(FlowOp::Plain(*op))?;
    }
    Ok(())
}
