//! What a machine goes on from.

ghost use Rattle.std.specs.Prelude.{◌≡◌};
ghost use Rattle.machines.specs.Prelude.{Program, Guest, at_next, behind};
ghost use Rattle.ppc_step.specs.Shown.{IsState};

use ppc_registers::Registers;
use space::{Event, Space};

/// How many bytes an instruction has.
const WORD: u32 = 4;

/// The registers, the address of the next instruction, and memory.
#[derive(Drop)]
pub struct State {
    pub(crate) registers: Registers,
    pub(crate) next: u32,
    pub(crate) memory: Space,
}

impl State {
    /// The address behind the instruction.
    pub(crate) fn behind(&self) -> u32
        ensures { result ≡ behind self.now.next }
    {
        self.next.wrapping_add(WORD)
    }

    /// Goes on behind the instruction.
    pub(crate) fn go_on(&mut self) -> Event
        ensures event { result ≡ Event.Went }
        ensures state { (p : Program) (g : Guest) → IsState p self.old g → IsState p self.new (at_next g.locs g) }
    {
        self.next = self.behind();
        Event::Went
    }
}
