//! Makes the live sets, the problems and the plans of a PowerPC program's blocks, between empty maps: for measurements.
//!
//!     plan_bench live FILE
//!     plan_bench problem FILE
//!     plan_bench solve FILE
#![tactic(auto)]

ghost use Rattle.std.specs.Prelude.{ℕ, List, IfOk};
ghost use Rattle.machines.specs.Prelude.{PowerPc};
ghost use Rattle.elf_load.specs.Prelude.{IsProgramOf};
ghost use Rattle.offer_make.specs.Problem.{AreBlocksWith, IsBlockOf};

use block_find::{Block, Blocks, blocks};
use code_words::{code_words, entry_place};
use elf_load::load;
use liveness::{LiveSets, live};
use offer_make::{blocks_have_live_sets, problem};
use plan_form::plan_cost;
use ppc_isa::Map;
use rule_audit::Audited;
use space::{Kind, Program};
use std::alloc::Global;
use std::{env, fs, io};
use tile_plan::solve;
use word_kit::NoMemory;

const EMPTY: Map = Map {
    ebx: None,
    esi: None,
    edi: None,
};

/// The blocks and the live sets of a program.
fn found_in(alloc: Global, program: &Program) -> Result<(Blocks, LiveSets), NoMemory>
    requires { (bytes : List ℕ) × IsProgramOf PowerPc bytes program.now }
    ensures { IfOk result (λ found. AreBlocksWith found.0 found.1) }
{
    blocks_have_live_sets();
    let _words = code_words(alloc, program)?;
    let _entry = entry_place(program);
    let blocks = blocks(alloc, program)?;
    let live = live(alloc, program)?;
    Ok((blocks, live))
}

/// How many moves the block's problem has, or what its plan costs.
fn measured(alloc: Global, command: &str, block: &Block, live: &LiveSets) -> Result<u64, NoMemory>
    requires { IsBlockOf live.now block.now }
{
    let problem = problem(
        alloc,
        block,
        &EMPTY,
        &EMPTY,
        true,
        live,
        &Audited::none(alloc),
    )?;
    if command == "problem" {
        return Ok(problem.moves.len() as u64);
    }
    let (plan, _labels) = solve(alloc, &problem)?;
    Ok(plan_cost(&problem, &plan).unwrap_or(0))
}

/// The sum of what was measured of the leaders' blocks, and how many there are.
fn sum(alloc: Global, command: &str, program: &Program) -> Result<(u64, usize), NoMemory>
    requires { (bytes : List ℕ) × IsProgramOf PowerPc bytes program.now }
{
    let (blocks, live) = found_in(alloc, program)?;
    let count = blocks.leaders.as_slice().len();
    let mut sum: u64 = 0;
    if command != "live" {
        for place in 0..count {
            sum = sum.saturating_add(measured(alloc, command, blocks.at(place), &live)?);
        }
    }
    Ok((sum, count))
}

fn main(rt: HostRuntime) -> io::Result<()> {
    let alloc = rt.alloc();
    let mut words = env::args(&rt)?.skip(1);
    let (Some(command), Some(name)) = (words.next(), words.next()) else {
        println!(rt;
            "usage: plan_bench live FILE, plan_bench problem FILE, or plan_bench solve FILE"
        )?;
        return Ok(());
    };
    let file = fs::read(&rt, name.as_str())?;
    if file.len() >= 16_000_000 {
        println!(rt; "too long")?;
        return Ok(());
    }
    let Ok(program) = load(alloc, file.as_slice(), Kind::PowerPc) else {
        println!(rt; "refused")?;
        return Ok(());
    };
    match sum(alloc, command.as_str(), &program) {
        Ok((sum, count)) => println!(rt; "{count} blocks, {sum}")?,
        Err(NoMemory) => println!(rt; "out of memory")?,
    }
    Ok(())
}
