//! The host machine as one whose programs are run.

ghost use Rattle.machine_calls.specs.Phases.{is_waiting};
ghost use Rattle.runner.specs.Hosts.{ShowsHost};

use crate::machine::Machine;
use space::{Answer, Event, Space};

impl Machine for ia_step::Machine {
    ghost use Rattle.machines.specs.Host.{Host};

    ghost State = { Host };

    ghost shows = { λ m step o. ShowsHost m step o };

    ghost memory = { λ m. m.state.parts.space };

    ghost waits = { λ m. is_waiting m.phase };

    fn step(&mut self) -> Event {
        ia_step::Machine::step(self)
    }

    fn answer(&mut self, answer: Answer<'_>) {
        ia_step::Machine::answer(self, answer);
    }

    fn space(&self) -> &Space {
        ia_step::Machine::space(self)
    }
}
