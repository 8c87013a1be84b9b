//! The words that begin a block.
ghost use Rattle.std.specs.Prelude.{◌≡◌, ◌+◌, ◌<◌, ◌≤◌, IfOk, length};
ghost use Rattle.block_find.specs.Branches.{IsFlow, Names};
ghost use Rattle.block_find.specs.Blocks.{AreLeaders, IsIn};
ghost use Rattle.block_find.specs.Marks.{AreMarked, Gains, next_run_of};

use crate::branches::named_place;
use crate::code::Code;
use crate::flow_words::is_flow_word;
use std::alloc::Global;
use word_kit::NoMemory;

/// A block has at most this many words.
const MOST: usize = 64;

/// Says of each code word whether it is a leader: the first word, the entry, a word that a branch
/// names, the word behind a flow word, or the word behind a leader's block of 64 words.
pub fn leaders(alloc: Global, code: &Code<'_>) -> Result<Vec<bool>, NoMemory>
    ensures count { IfOk result (λ leads. length leads.items ≡ length code.now.words.now) }
    ensures leaders { IfOk result (λ leads. AreLeaders code.now.first code.now.entry code.now.words.now (IsIn leads.items)) }
{
    let mut marks = vec![in alloc; false; code.words.len()]?;
    marks[0] = true;
    marks[code.entry] = true;
    for place in 0..code.words.len() {
        mark(&mut marks, code, place);
    }
    let mut leads = Vec::with_capacity(alloc, code.words.len())?;
    let mut run = 0;
    for place in 0..code.words.len() {
        run = next_run(marks[place], run);
        leads.push(run == 1)?;
    }
    Ok(leads)
}

/// How many words there are from the last leader up to and with the next word.
fn next_run(is_marked: bool, run: usize) -> usize
    requires { run ≤ 64 }
    ensures { result ≡ next_run_of is_marked run }
{
    if is_marked || run == MOST { 1 } else { run + 1 }
}

/// Marks the word that this one names, and the one behind it, if it is a flow word.
fn mark(marks: &mut [bool], code: &Code<'_>, place: usize)
    requires within { place < length code.now.words.now }
    requires marked { AreMarked code.now.first code.now.entry code.now.words.now place marks.old }
    ensures { AreMarked code.now.first code.now.entry code.now.words.now (place + 1) marks.new }
{
    mark_named(marks, code, place);
    mark_behind(marks, code, place);
}

/// Marks the word that this one names.
fn mark_named(marks: &mut [bool], code: &Code<'_>, place: usize)
    requires within { place < length code.now.words.now }
    requires count { length marks.old ≡ length code.now.words.now }
    ensures { Gains marks.old (Names code.now.first code.now.words.now place) marks.new }
{
    if let Some(named) = named_place(code, place) {
        marks[named] = true;
    }
}

/// Marks the word behind this one, if there is one and this is a flow word.
fn mark_behind(marks: &mut [bool], code: &Code<'_>, place: usize)
    requires within { place < length code.now.words.now }
    ensures { Gains marks.old (λ k. IsFlow code.now.words.now place × (place + 1 ≡ k)) marks.new }
{
    if is_flow_word(code.words[place]) && place + 1 < marks.len() {
        marks[place + 1] = true;
    }
}
