//! The translation of a program.

ghost use Rattle.std.specs.Prelude.{◌≡◌, ◌<◌, ℕ, List, [], IfOk, All};
ghost use Rattle.machines.specs.Prelude.{PowerPc};
ghost use Rattle.elf_load.specs.Prelude.{IsProgramOf};
ghost use Rattle.agreement.specs.Files.{Agrees};
ghost use Rattle.agreement.specs.Written.{Carries};
ghost use Rattle.best_plans.specs.Plans.{HasBestPlans};
ghost use Rattle.code_layout.specs.Prelude.{steps_of};

use agreement::carrying_agrees;
use best_plans::best_plans;
use block_find::{blocks, each_is_block, have_few_words};
use code_layout::lay;
use code_words::{code_words, entry_place};
use elf_emit::file;
use elf_load::host_area;
use liveness::live;
use offer_make::blocks_have_live_sets;
use plan_form::BlockPlan;
use plan_lays::valid_plans_lay;
use rule_audit::Audited;
use space::{Bytes, Program};
use std::alloc::Global;
use word_kit::NoMemory;

/// What a translation gives.
#[derive(Drop)]
pub struct Output {
    /// The IA-32 file: System V ELF32.
    pub file: Bytes,
    /// The plans of its blocks: those of the leaders' blocks, and then those of the singles.
    pub plans: Vec<BlockPlan>,
}

/// The translation of an accepted PowerPC program: its blocks' best plans, and a file that carries the blocks by these plans, and
/// that agrees with it. Whatever the answers to the calls, whatever the processor chooses where the
/// manual leaves it a choice, and for every n, the file makes the same calls with the same bytes and ends
/// in the same way as the program's first n instructions, until the program's first access outside its
/// own segments.
///
/// # Errors
/// `NoMemory` where there is no memory for the file.
pub fn translate(alloc: Global, program: &Program, rules: &Audited) -> Result<Output, NoMemory>
    requires no_rules { rules.now.rules.items ≡ [] }
    requires program { (bytes : List ℕ) × IsProgramOf PowerPc bytes program.now }
    ensures carries { IfOk result (λ o. Carries program.now (steps_of o.plans.items) o.file) }
    ensures best { IfOk result (λ o. HasBestPlans program.now o.plans.items) }
    ensures agrees { IfOk result (λ o. Agrees program.now o.file) }
{
    blocks_have_live_sets();
    carrying_agrees();
    each_is_block();
    valid_plans_lay();
    have_few_words();
    // That there are an entry and code words, of which the clauses speak.
    let _entry = entry_place(program);
    let _words = code_words(alloc, program)?;
    let blocks = blocks(alloc, program)?;
    let live = live(alloc, program)?;
    let plans = best_plans(alloc, &blocks, &live, rules)?;
    let area = host_area(program);
    let code = lay(alloc, program, &blocks, &plans, rules, &live, area)?;
    let bytes = file(alloc, program, &code, area)?;
    Ok(Output {
        file: file_bytes(bytes),
        plans,
    })
}

// The bytes of the file, as contracts see them.
fn file_bytes(bytes: Vec<u8>) -> Bytes
    ensures value { result ≡ bytes.items }
    ensures bytes { All (λ b. b < 256) result }
{
    Bytes::from(bytes)
}
