//! The live sets of a whole program.
ghost use Rattle.std.specs.Prelude.{◌≡◌, ℕ, IfOk, List};
ghost use Rattle.machines.specs.Prelude.{PowerPc};
ghost use Rattle.elf_load.specs.Prelude.{IsProgramOf};
ghost use Rattle.code_words.specs.Words.{HasWords, first_of};
ghost use Rattle.liveness.specs.Live.{AreLive};

use crate::growth;
use crate::live_sets::LiveSets;
use crate::reading::flows;
use block_find::{Code, one_list_of_words};
use code_words::{code_words, entry_place, first};
use space::Program;
use std::alloc::Global;
use word_kit::NoMemory;

/// The locations that are live before each code word of the program: some path of code words from there
/// reads it at its last word and writes it at none before.
///
/// # Errors
/// `NoMemory` where there is no memory for the sets.
pub fn live(alloc: Global, program: &Program) -> Result<LiveSets, NoMemory>
    requires { (bytes : List ℕ) × IsProgramOf PowerPc bytes program.now }
    ensures { IfOk result (λ sets. (words : List ℕ) → HasWords program.now (first_of program.now) words → AreLive (first_of program.now) words sets) }
{
    let words = code_words(alloc, program)?;
    let code = Code {
        first: first(program),
        entry: entry_place(program),
        words: &words,
    };
    one_list_of_words();
    live_before(alloc, &code)
}

/// The live sets of these code words.
fn live_before(alloc: Global, code: &Code<'_>) -> Result<LiveSets, NoMemory>
    ensures { IfOk result (λ sets. AreLive code.now.first code.now.words.now sets) }
{
    let flows = flows(alloc, code)?;
    let bits = growth::live(alloc, &flows)?;
    Ok(LiveSets::new(code.first, bits))
}
