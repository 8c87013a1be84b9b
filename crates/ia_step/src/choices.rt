//! What the processor chooses where the manual leaves a result or a flag undefined.

ghost use Rattle.std.specs.Prelude.{◌≡◌, drop, map};
ghost use Rattle.machines.specs.Prelude.{choice_at, chosen_flags, chosen_word};
ghost use Rattle.ia_step.specs.Values.{choice_of, flags_of};

use crate::parts::Flags;
use std::marker::Model;

/// The choice of one step: a result, and flags of which CF is 1, ZF 2, SF 4 and OF 8.
#[derive(Clone, Copy)]
pub struct Choice {
    pub value: u32,
    pub flags: u8,
}

impl Choice {
    pub(crate) fn word(self) -> u32
        ensures { result ≡ chosen_word (choice_of self) }
    {
        self.value
    }

    pub(crate) fn flags(self) -> Flags
        ensures { flags_of result ≡ chosen_flags (choice_of self) }
    {
        Flags {
            cf: self.flags % 2 == 1,
            zf: self.flags / 2 % 2 == 1,
            sf: self.flags / 4 % 2 == 1,
            of: self.flags / 8 % 2 == 1,
        }
    }
}

/// The choices of a run. Contracts see those of the steps still to come.
#[derive(Drop)]
pub(crate) struct Choices {
    items: Vec<Choice>,
    used: usize,
}

impl Model for Choices {
    ghost use Rattle.std.specs.Prelude.{List, drop, map};
    ghost use Rattle.machines.specs.Host.{Choice as HostChoice};
    ghost use Rattle.ia_step.specs.Values.{choice_of};

    ghost Value = { List HostChoice };

    ghost view = { λ c. map choice_of (drop c.used c.items.items) };
}

impl Choices {
    pub(crate) fn from_start(items: Vec<Choice>) -> Choices
        ensures { result ≡ map choice_of items.items }
    {
        Choices { items, used: 0 }
    }

    /// The choice of the next step: 0 past the last one.
    pub(crate) fn first(&self) -> Choice
        ensures { choice_of result ≡ choice_at self.now 0 }
    {
        match self.items.get(self.used) {
            Some(choice) => *choice,
            None => Choice { value: 0, flags: 0 },
        }
    }

    pub(crate) fn advance(&mut self)
        ensures { self.new ≡ drop 1 self.old }
    {
        if self.used < self.items.len() {
            self.used += 1;
        }
    }

    /// The value of the next choice, which is used.
    pub(crate) fn next_word(&mut self) -> u32
        ensures word { result ≡ chosen_word (choice_at self.old 0) }
        ensures rest { self.new ≡ drop 1 self.old }
    {
        let word = self.first().word();
        self.advance();
        word
    }
}
