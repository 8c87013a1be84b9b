//! The runs of words that leaders begin, and the words that aren't leaders.
ghost use Rattle.std.specs.Prelude.{◌≡◌, ◌+◌, ◌<◌, ◌≤◌, ℕ, IfOk, length};
ghost use Rattle.block_find.specs.Blocks.{AreLeaders, AreAllBlocks, Divide, IsIn, singles_of};

use crate::code::Code;
use std::alloc::Global;
use word_kit::NoMemory;

/// Code words one behind another: the place of the first one, and how many there are.
#[derive(Clone, Copy)]
pub struct Run {
    pub at: usize,
    pub count: usize,
}

/// The runs of all leaders' blocks, ascending.
pub fn leader_runs(alloc: Global, code: &Code<'_>, leads: &[bool]) -> Result<Vec<Run>, NoMemory>
    requires count { length leads.now ≡ length code.now.words.now }
    requires leaders { AreLeaders code.now.first code.now.entry code.now.words.now (IsIn leads.now) }
    ensures runs { IfOk result (λ runs. AreAllBlocks code.now.words.now (IsIn leads.now) runs.items) }
    ensures divide { IfOk result (λ runs. Divide code.now.words.now runs.items) }
{
    let mut runs = Vec::new(alloc);
    let mut at = 0;
    for place in 1..code.words.len() {
        if leads[place] {
            runs.push(Run {
                at,
                count: place - at,
            })?;
            at = place;
        }
    }
    runs.push(Run {
        at,
        count: code.words.len() - at,
    })?;
    Ok(runs)
}

/// The words that aren't leaders, ascending, each as a run of its own.
pub fn single_runs(alloc: Global, leads: &[bool]) -> Result<Vec<Run>, NoMemory>
    requires { length leads.now ≤ 131072 }
    ensures { IfOk result (λ runs. runs.items ≡ singles_of leads.now (length leads.now)) }
{
    let mut runs = Vec::new(alloc);
    for place in 0..leads.len() {
        if !leads[place] {
            runs.push(Run {
                at: place,
                count: 1,
            })?;
        }
    }
    Ok(runs)
}
