//! The code of a program over its host area.

ghost use Rattle.std.specs.Prelude.{◌≡◌, [], ◌≤◌, ◌+◌, ◌*◌, ℕ, IfOk, List, Option, length};
ghost use Rattle.machines.specs.Prelude.{Instr, PowerPc};
ghost use Rattle.elf_load.specs.Prelude.{IsProgramOf};
ghost use Rattle.code_words.specs.Words.{HasWords, first_of};
ghost use Rattle.block_find.specs.Prelude.{AreBlocksOf, all_blocks};
ghost use Rattle.liveness.specs.Prelude.{AreLive};
ghost use Rattle.code_layout.specs.Decoded.{AreDecodedAs};
ghost use Rattle.code_layout.specs.Layout.{ArePlansFor, IsLaidFor, steps_of};

use crate::decoded::decoded_words;
use crate::layout::{code, entries};
use crate::places::Layout;
use crate::source::Source;
use block_find::Blocks;
use branch_table::{Code, CodeBytes, Entries};
use code_words::{code_words, entry_place, first};
use liveness::LiveSets;
use plan_form::BlockPlan;
use rule_audit::Audited;
use space::Program;
use std::alloc::Global;
use word_kit::NoMemory;

// Where the table stands, behind the home page of 4 KiB.
const TABLE_OFFSET: u32 = 0x1000;
// Where the code stands behind the home page and the table, which has room for 512 KiB.
const CODE_OFFSET: u32 = 0x8_1000;

/// The code of a program over the host area that begins at `area`: `hold`, and behind it the program's
/// blocks, those of the leaders and then the singles, each by its plan, with the table of where the block of each code
/// word stands. The plans stand in the order of the blocks, and `live` has what is live before each code word. There is room
/// for every list of plans, and there are no rules yet whose tiles could be laid.
///
/// # Errors
/// `NoMemory` where there is no memory for it.
pub fn lay(
    alloc: Global,
    program: &Program,
    blocks: &Blocks,
    plans: &[BlockPlan],
    rules: &Audited,
    live: &LiveSets,
    area: u32,
) -> Result<Code, NoMemory>
    requires program { (bytes : List ℕ) × IsProgramOf PowerPc bytes program.now }
    requires blocks { (words : List ℕ) (entry : ℕ) → HasWords program.now (first_of program.now) words → program.now.entry ≡ first_of program.now + 4 * entry → AreBlocksOf (first_of program.now) entry words blocks.now }
    requires plans { (words : List ℕ) (decoded : List (Option Instr)) → HasWords program.now (first_of program.now) words → AreDecodedAs words decoded → ArePlansFor (first_of program.now) decoded (all_blocks blocks.now) (steps_of plans.now) }
    requires norules { rules.now.rules.items ≡ [] }
    requires live { (words : List ℕ) → HasWords program.now (first_of program.now) words → AreLive (first_of program.now) words live.now }
    requires area { area + 0x0A000000 ≤ 0xBFFF0000 }
    ensures laid { IfOk result (λ c. IsLaidFor program.now (steps_of plans.now) area c) }
    ensures table { IfOk result (λ c. length c.entries ≤ 131072) }
    ensures fits { IfOk result (λ c. 0x81000 + length c.bytes ≤ 0x0A000000) }
{
    let words = code_words(alloc, program)?;
    let decoded = decoded_words(alloc, &words)?;
    let source = Source {
        first: first(program),
        entry: entry_place(program),
        words: &words,
        decoded: &decoded,
        blocks,
        plans,
        live,
    };
    let start = area + CODE_OFFSET;
    let entries = entries(alloc, &source, start)?;
    let layout = Layout {
        area,
        code: start,
        table: area + TABLE_OFFSET,
        first: source.first,
        entries: &entries,
    };
    let bytes = code(alloc, &source, &layout)?;
    let start = entries[source.entry];
    Ok(Code {
        bytes: CodeBytes::from(bytes),
        entries: Entries::from(entries),
        start,
    })
}
