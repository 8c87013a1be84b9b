//! The guest machine as one whose programs are run.

ghost use Rattle.machine_calls.specs.Phases.{is_waiting};
ghost use Rattle.runner.specs.Guests.{ShowsGuest};

use crate::machine::Machine;
use space::{Answer, Event, Space};

impl Machine for ppc_step::Machine {
    ghost use Rattle.machines.specs.Guest.{Guest};

    ghost State = { Guest };

    ghost shows = { λ m step o. ShowsGuest m step o };

    ghost memory = { λ m. m.state.memory };

    ghost waits = { λ m. is_waiting m.phase };

    fn step(&mut self) -> Event {
        ppc_step::Machine::step(self)
    }

    fn answer(&mut self, answer: Answer<'_>) {
        ppc_step::Machine::answer(self, answer);
    }

    fn space(&self) -> &Space {
        ppc_step::Machine::space(self)
    }
}
