//! Which words name a word.
ghost use Rattle.std.specs.Prelude.{◌≡◌, ◌+◌, ◌<◌, ◌^◌, IfOk, length};
ghost use Rattle.liveness.specs.Namers.{AreNamers};

use crate::flow::Flow;
use std::alloc::Global;
use word_kit::NoMemory;

/// For each word one more than the place of the last word that names it, and for each word one more
/// than the place of the last word before it that names the same word. 0 stands for none.
#[derive(Drop)]
pub struct Namers {
    pub last: Vec<u32>,
    pub before: Vec<u32>,
}

impl Namers {
    /// The words that name each word.
    pub fn of(alloc: Global, flows: &[Flow]) -> Result<Namers, NoMemory>
        requires { length flows.now < 2 ^ 31 }
        ensures { IfOk result (λ n. AreNamers flows.now (length flows.now) n.last.items n.before.items) }
    {
        let last = vec![in alloc; 0; flows.len()]?;
        let before = vec![in alloc; 0; flows.len()]?;
        let mut namers = Namers { last, before };
        for place in 0..flows.len() {
            namers.note(flows, place);
        }
        Ok(namers)
    }

    /// Notes which word the one at this place names.
    fn note(&mut self, flows: &[Flow], place: usize)
        requires short { length flows.now < 2 ^ 31 }
        requires within { place < length flows.now }
        requires namers { AreNamers flows.now place self.old.last.items self.old.before.items }
        ensures { AreNamers flows.now (place + 1) self.new.last.items self.new.before.items }
    {
        let target = flows[place].target as usize;
        if target < flows.len() {
            self.before[place] = self.last[target];
            self.last[target] = place as u32 + 1;
        }
    }
}
