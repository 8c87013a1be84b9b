// Programs of one segment of code, with their blocks and live sets, and their translations' plans.

ghost use Rattle.std.specs.Prelude.{ℕ, List, IfOk};
ghost use Rattle.machines.specs.Prelude.{PowerPc};
ghost use Rattle.elf_load.specs.Prelude.{IsProgramOf};
ghost use Rattle.offer_make.specs.Problem.{AreBlocksWith};

use block_find::{Blocks, blocks};
use code_words::{code_words, entry_place};
use elf_load::load;
use liveness::{LiveSets, live};
use offer_make::blocks_have_live_sets;
use plan_form::BlockPlan;
use ppc_isa::Map;
use rule_audit::Audited;
use space::{Kind, Program};
use std::alloc::Global;
use std::process::Abort;
use std::test::Fail;
use translate_core::translate;
use word_kit::NoMemory;

/// The map that holds no GPR.
pub const EMPTY: Map = Map {
    ebx: None,
    esi: None,
    edi: None,
};

/// A function that is called 1000 times: li r31,1000; li r3,0; bl to the ninth word; addic. r31,r31,-1; bne to the third word;
/// clrlwi r3,r3,24; li r0,1; sc; and the eight words of the function, up to its blr.
pub const CALLED: &str =
    "3be003e8386000004800001937ffffff4082fff85463063e38000001440000029421fff07c0802a69001001438630003800100147c0803a6382100104e800020";

// A file whose one segment is this code, which stands at 0x10000000.
fn file(alloc: Global, code: &str) -> Result<Vec<u8>, Fail> {
    let size = code.len() / 2;
    let front = "7f454c46010201000000000000000000000200140000000110000000";
    let header = "000000340000000000000000003400200001000000000000";
    let segment = "00000001000000541000000010000000";
    let text = format!(in alloc;
        "{front}{header}{segment}{size:08x}{size:08x}0000000500001000{code}"
    )?;
    Ok(hex::decode(alloc, text.as_bytes())?)
}

// The blocks and the live sets of a program.
fn blocks_and_live_sets_of(alloc: Global, program: &Program) -> Result<(Blocks, LiveSets), NoMemory>
    requires { (bytes : List ℕ) × IsProgramOf PowerPc bytes program.now }
    ensures { IfOk result (λ found. AreBlocksWith found.0 found.1) }
{
    blocks_have_live_sets();
    let _words = code_words(alloc, program)?;
    let _entry = entry_place(program);
    let blocks = blocks(alloc, program)?;
    let live = live(alloc, program)?;
    Ok((blocks, live))
}

// The program with this code.
fn program(rt: &impl Abort, alloc: Global, code: &str) -> Result<Program, Fail>
    ensures { IfOk result (λ program. (bytes : List ℕ) × IsProgramOf PowerPc bytes program) }
{
    let file = file(alloc, code)?;
    if file.len() >= 1000 {
        panic!(rt; "long file");
    }
    let Ok(program) = load(alloc, &file, Kind::PowerPc) else {
        panic!(rt; "refused");
    };
    Ok(program)
}

/// The blocks and the live sets of the program with this code.
pub fn blocks_and_live_sets(
    rt: &impl Abort,
    alloc: Global,
    code: &str,
) -> Result<(Blocks, LiveSets), Fail>
    ensures { IfOk result (λ found. AreBlocksWith found.0 found.1) }
{
    let program = program(rt, alloc, code)?;
    let (blocks, live) = blocks_and_live_sets_of(alloc, &program)?;
    Ok((blocks, live))
}

/// The program with this code, and the plans by which it is translated.
pub fn translated(
    rt: &impl Abort,
    alloc: Global,
    code: &str,
) -> Result<(Program, Vec<BlockPlan>), Fail>
    ensures { IfOk result (λ found. (bytes : List ℕ) × IsProgramOf PowerPc bytes found.0) }
{
    let program = program(rt, alloc, code)?;
    let output = translate(alloc, &program, &Audited::none(alloc))?;
    Ok((program, output.plans))
}
