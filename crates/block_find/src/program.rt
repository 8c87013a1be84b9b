//! The blocks of a whole program.
ghost use Rattle.std.specs.Prelude.{◌≡◌, ◌+◌, ◌*◌, ℕ, IfOk, All, List, length, map};
ghost use Rattle.machines.specs.Prelude.{PowerPc};
ghost use Rattle.elf_load.specs.Prelude.{IsProgramOf};
ghost use Rattle.code_words.specs.Words.{HasWords, first_of};
ghost use Rattle.block_find.specs.Blocks.{AreBlocksOf, IsWithin, block_of};

use crate::block::{Block, BlockList, Blocks, Words};
use crate::boundaries::leaders;
use crate::branches::address_of;
use crate::code::Code;
use crate::spans::{Run, leader_runs, single_runs};
use code_words::{code_words, entry_place, first};
use space::Program;
use std::alloc::Global;
use word_kit::NoMemory;

/// The blocks of all leaders, which divide the code words, and the words that are no leaders, each as a
/// block of its own. Both are ascending.
///
/// # Errors
/// `NoMemory` where there is no memory for them.
pub fn blocks(alloc: Global, program: &Program) -> Result<Blocks, NoMemory>
    requires { (bytes : List ℕ) × IsProgramOf PowerPc bytes program.now }
    ensures { IfOk result (λ b. (words : List ℕ) (entry : ℕ) → HasWords program.now (first_of program.now) words
        → program.now.entry ≡ first_of program.now + 4 * entry → AreBlocksOf (first_of program.now) entry words b) }
{
    let words = code_words(alloc, program)?;
    let code = Code {
        first: first(program),
        entry: entry_place(program),
        words: &words,
    };
    blocks_of(alloc, &code)
}

/// The blocks of these code words.
fn blocks_of(alloc: Global, code: &Code<'_>) -> Result<Blocks, NoMemory>
    ensures { IfOk result (λ b. AreBlocksOf code.now.first code.now.entry code.now.words.now b) }
{
    let leads = leaders(alloc, code)?;
    let runs = leader_runs(alloc, code, &leads)?;
    let leaders = with_words(alloc, code, &runs)?;
    let singles = with_words(alloc, code, &single_runs(alloc, &leads)?)?;
    Ok(Blocks { leaders, singles })
}

/// The runs with their addresses and words.
fn with_words(alloc: Global, code: &Code<'_>, runs: &[Run]) -> Result<BlockList, NoMemory>
    requires { All (IsWithin (length code.now.words.now)) runs.now }
    ensures { IfOk result (λ blocks. blocks ≡ map (block_of code.now.first code.now.words.now) runs.now) }
{
    let mut blocks = Vec::with_capacity(alloc, runs.len())?;
    for run in runs {
        let words = code.words[run.at..run.at + run.count].to_vec(alloc)?;
        blocks.push(Block {
            at: address_of(code.first, run.at),
            words: Words::from(words),
        })?;
    }
    Ok(BlockList::from(blocks))
}
