//! Sets that grow to the live ones, and the words that still have to be looked at.
ghost use Rattle.std.specs.Prelude.{◌≡◌, ◌≢◌, ◌+◌, ◌<◌, ◌≤◌, ◌^◌, ◌↔◌, ℕ, IfOk, OnOk, length, slice_index, IsTrue};
ghost use Rattle.liveness.specs.Flows.{Has, Leads, IsLive, flow_at};
ghost use Rattle.liveness.specs.Namers.{AreNamers};
ghost use Rattle.liveness.specs.Growth.{IsUnder, IsSettled, work, Unwritten, Takes, IsStart};

use crate::flow::Flow;
use crate::namers::Namers;
use std::alloc::Global;
use word_kit::NoMemory;

/// The members of a set that aren't written: those that are written are added and taken away.
pub fn unwritten(set: u64, writes: u64) -> u64
    ensures { (l : ℕ) → Has result l ↔ Unwritten set writes l }
{
    (set | writes) ^ writes
}

/// The sets so far, which words wait, and where they do.
#[derive(Drop)]
pub struct Growth {
    pub sets: Vec<u64>,
    pub waiting: Vec<bool>,
    pub stack: Vec<u32>,
}

impl Growth {
    /// Adds what is live before a word behind the one at `place` and isn't written by it. If its set
    /// grows, it waits.
    fn pass(&mut self, flows: &[Flow], place: usize, behind: usize) -> Result<(), NoMemory>
        requires short { length flows.now < 2 ^ 31 }
        requires leads { Leads flows.now place behind }
        requires under { IsUnder flows.now self.old.sets.items self.old.waiting.items self.old.stack.items }
        ensures under { OnOk result (IsUnder flows.now self.new.sets.items self.new.waiting.items self.new.stack.items) }
        ensures settles { OnOk result (IsSettled flows.now self.new.sets.items self.new.waiting.items place behind) }
        ensures keeps { OnOk result ((p s : ℕ) → IsSettled flows.now self.old.sets.items self.old.waiting.items p s → IsSettled flows.now self.new.sets.items self.new.waiting.items p s) }
        ensures work { OnOk result (work self.new.sets.items self.new.stack.items ≤ work self.old.sets.items self.old.stack.items) }
    {
        let old = self.sets[place];
        let grown = old | unwritten(self.sets[behind], flows[place].writes);
        if grown != old {
            self.sets[place] = grown;
            if !self.waiting[place] {
                self.waiting[place] = true;
                self.stack.push(place as u32)?;
            }
        }
        Ok(())
    }

    /// Passes what is live before a word on to the word that stands before it, if that falls.
    fn pass_up(&mut self, flows: &[Flow], place: usize) -> Result<(), NoMemory>
        requires short { length flows.now < 2 ^ 31 }
        requires within { place < length flows.now }
        requires under { IsUnder flows.now self.old.sets.items self.old.waiting.items self.old.stack.items }
        ensures under { OnOk result (IsUnder flows.now self.new.sets.items self.new.waiting.items self.new.stack.items) }
        ensures settles { OnOk result ((p : ℕ) → p + 1 ≡ place → IsTrue (flow_at flows.now p).falls → IsSettled flows.now self.new.sets.items self.new.waiting.items p place) }
        ensures keeps { OnOk result ((p s : ℕ) → IsSettled flows.now self.old.sets.items self.old.waiting.items p s → IsSettled flows.now self.new.sets.items self.new.waiting.items p s) }
        ensures work { OnOk result (work self.new.sets.items self.new.stack.items ≤ work self.old.sets.items self.old.stack.items) }
    {
        if place > 0 && flows[place - 1].falls {
            self.pass(flows, place - 1, place)
        } else {
            Ok(())
        }
    }

    /// Passes what is live before a word on to the words before it.
    fn spread(&mut self, flows: &[Flow], namers: &Namers, place: usize) -> Result<(), NoMemory>
        requires short { length flows.now < 2 ^ 31 }
        requires within { place < length flows.now }
        requires namers { AreNamers flows.now (length flows.now) namers.now.last.items namers.now.before.items }
        requires under { IsUnder flows.now self.old.sets.items self.old.waiting.items self.old.stack.items }
        requires settled { (p s : ℕ) → Leads flows.now p s → s ≢ place → IsSettled flows.now self.old.sets.items self.old.waiting.items p s }
        ensures under { OnOk result (IsUnder flows.now self.new.sets.items self.new.waiting.items self.new.stack.items) }
        ensures settled { OnOk result ((p s : ℕ) → Leads flows.now p s → IsSettled flows.now self.new.sets.items self.new.waiting.items p s) }
        ensures work { OnOk result (work self.new.sets.items self.new.stack.items ≤ work self.old.sets.items self.old.stack.items) }
    {
        self.pass_up(flows, place)?;
        let mut next = namers.last[place];
        while next > 0 {
            let namer = (next - 1) as usize;
            self.pass(flows, namer, place)?;
            next = namers.before[namer];
        }
        Ok(())
    }

    /// A word that waits, which then waits no more.
    fn next(&mut self, flows: &[Flow]) -> Option<usize>
        requires under { IsUnder flows.now self.old.sets.items self.old.waiting.items self.old.stack.items }
        requires settled { (p s : ℕ) → Leads flows.now p s → IsSettled flows.now self.old.sets.items self.old.waiting.items p s }
        ensures next { Takes flows.now self.old.sets.items self.old.stack.items self.new.sets.items self.new.waiting.items self.new.stack.items result }
    {
        let Some(last) = self.stack.pop() else {
            return None;
        };
        let place = last as usize;
        self.waiting[place] = false;
        Some(place)
    }

    /// Each set has what its word reads, and all words wait.
    fn start(alloc: Global, flows: &[Flow]) -> Result<Growth, NoMemory>
        requires { length flows.now < 2 ^ 31 }
        ensures { IfOk result (λ g. IsStart flows.now (length flows.now) g.sets.items g.waiting.items g.stack.items) }
    {
        let mut growth = Growth {
            sets: Vec::with_capacity(alloc, flows.len())?,
            waiting: Vec::with_capacity(alloc, flows.len())?,
            stack: Vec::with_capacity(alloc, flows.len())?,
        };
        for place in 0..flows.len() {
            growth.sets.push(flows[place].reads)?;
            growth.waiting.push(true)?;
            growth.stack.push(place as u32)?;
        }
        Ok(growth)
    }
}

/// The sets of the locations that are live before each word.
pub fn live(alloc: Global, flows: &[Flow]) -> Result<Vec<u64>, NoMemory>
    requires { length flows.now < 2 ^ 31 }
    ensures count { IfOk result (λ sets. length sets.items ≡ length flows.now) }
    ensures each { IfOk result (λ sets. (k l : ℕ) → k < length flows.now → Has (slice_index sets.items k) l ↔ IsLive flows.now l k) }
{
    let namers = Namers::of(alloc, flows)?;
    let mut growth = Growth::start(alloc, flows)?;
    while let Some(place) = growth.next(flows) {
        growth.spread(flows, &namers, place)?;
    }
    Ok(growth.sets)
}
