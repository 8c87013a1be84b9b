//! Where the general registers stand on the host under a register map, and the ops that read them there.
#![tactic(auto)]

mod home;
mod moves;
mod place;
mod registers;
mod spelled;
mod words;

pub use home::{CR_HOME, cr_has_its_home, gpr_home, homes_are_apart};
pub use moves::{Move, code_of_move, moves_move_one};
pub use place::loc;
pub use registers::{EAX, EBX, ECX, EDI, EDX, ESI, registers_have_their_numbers};
pub use spelled::{alu_from, mov_from};
pub use words::signed_immediate;
