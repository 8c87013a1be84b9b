//! Moves of a general register between a cache register and its home.

ghost use Rattle.std.specs.Prelude.{◌≡◌, IfSome};
ghost use Rattle.machines.specs.Prelude.{cost_of};
ghost use Rattle.reg_map.specs.Place.{IsMap};
ghost use Rattle.reg_map.specs.Moves.{slot_register, content as content_of, IsPossible, move_code, PossibleMovesMoveOne};

use crate::home::gpr_home;
use crate::registers::{EBX, EDI, ESI};
use ia_codec::{Op, Operand};
use ppc_isa::{Locs, Map};

/// A change of a register map. ebx, esi and edi are the slots 0, 1 and 2.
#[derive(Clone, Copy)]
pub enum Move {
    /// The slot's GPR goes to its home word.
    Drop(u8),
    /// The slot gets the GPR, by its number, from its home word.
    Take(u8, u8),
}

// The register of a slot.
fn register(slot: u8) -> u8
    ensures { result ≡ slot_register slot }
{
    match slot {
        0 => EBX,
        1 => ESI,
        _ => EDI,
    }
}

// The GPR in a slot.
fn content(map: &Map, slot: u8) -> Option<u8>
    ensures { result ≡ content_of map.now slot }
{
    match slot {
        0 => map.ebx,
        1 => map.esi,
        _ => map.edi,
    }
}

/// The op of the move, whose absolute operand is an offset in the home page: a store to the home, or a
/// load from there. None where the GPR isn't in the live set. A slot that is dropped is full; one that
/// takes a GPR is empty, and the GPR is in no slot.
pub fn code_of_move(map: &Map, step: Move, live: &Locs) -> Option<Op>
    requires map { IsMap map.now }
    requires possible { IsPossible map.now step }
    ensures code { result ≡ move_code map.now step live.now.bits }
    ensures cost { IfSome result (λ op. cost_of op ≡ 3) }
{
    let (gpr, op) = match step {
        Move::Drop(slot) => {
            let Some(gpr) = content(map, slot) else {
                unreachable!()
            };
            let to = Operand::Abs(gpr_home(gpr));
            let from = register(slot);
            (gpr, Op::MovTo { to, from })
        }
        Move::Take(slot, gpr) => {
            let to = register(slot);
            let from = Operand::Abs(gpr_home(gpr));
            (gpr, Op::MovFrom { to, from })
        }
    };
    if (live.bits >> gpr) % 2 == 1 {
        Some(op)
    } else {
        None
    }
}

/// A possible move leads to a map, in which its GPR alone has another place.
pub fn moves_move_one()
    ensures { PossibleMovesMoveOne }
{}
