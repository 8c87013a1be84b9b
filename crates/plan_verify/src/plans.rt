//! The plans of all blocks.

ghost use Rattle.std.specs.Prelude.{◌≡◌, ◌≤◌, [], ℕ, List, IfErr, IfOk, length};
ghost use Rattle.std.specs.List.{sum_by};
ghost use Rattle.block_find.specs.Prelude.{all_blocks};
ghost use Rattle.elf_load.specs.Prelude.{IsProgramOf};
ghost use Rattle.machines.specs.Prelude.{PowerPc};
ghost use Rattle.offer_make.specs.Problem.{AreBlocksWith};
ghost use Rattle.plan_verify.specs.Failures.{AreGood, AreVerified, IsFaultIn, IsRefusal, leaders_cost, end_label as the_end_label};

use crate::block_fault::block_fault;
use crate::fault::PlanFault;
use block_find::{Blocks, blocks, each_is_block, have_few_words};
use code_words::{code_words, entry_place};
use liveness::{LiveSets, live};
use offer_make::blocks_have_live_sets;
use plan_form::BlockPlan;
use rule_audit::Audited;
use space::Program;
use std::alloc::Global;

// The label of a plan's last place.
fn end_label(plan: &BlockPlan) -> u32
    ensures { result ≡ the_end_label plan.now }
{
    let Some(row) = plan.labels.values.as_slice().get(plan.words as usize) else {
        return 0;
    };
    match row.as_slice().get(0) {
        None => 0,
        Some(label) => *label,
    }
}

// The sum of the last labels of plans.
fn cost_together(plans: &[BlockPlan]) -> u64
    requires { length plans.now ≤ 262144 }
    ensures { result ≡ sum_by the_end_label plans.now }
{
    let mut total: u64 = 0;
    for plan in plans {
        total += end_label(plan) as u64;
    }
    total
}

// Holds each plan against its block, and answers what the leaders' plans cost together.
fn checked_cost(
    alloc: Global,
    blocks: &Blocks,
    live: &LiveSets,
    rules: &Audited,
    plans: &[BlockPlan],
) -> Result<u64, PlanFault>
    requires no_rules { rules.now.rules.items ≡ [] }
    requires few { length (all_blocks blocks.now) ≤ 262144 }
    requires blocks { AreBlocksWith blocks.now live.now }
    ensures good { IfOk result (λ _. AreGood live.now blocks.now plans.now) }
    ensures cost { IfOk result (λ total. total ≡ leaders_cost blocks.now plans.now) }
    ensures fault { IfErr result (λ e. IsFaultIn live.now blocks.now plans.now e) }
{
    let leaders = blocks.leaders.as_slice().len();
    let count = blocks.count();
    for number in 0..count {
        let Some(plan) = plans.get(number) else {
            return Err(PlanFault::Bad(number as u32, 0));
        };
        let block = blocks.at(number);
        let leader = number < leaders;
        if let Some(place) = block_fault(alloc, block, leader, live, plan, rules)? {
            return Err(PlanFault::Bad(number as u32, place));
        }
    }
    if plans.len() > count {
        return Err(PlanFault::Bad(count as u32, 0));
    }
    Ok(cost_together(&plans[..leaders]))
}

/// What the plans of the leaders' blocks cost together, if there is a plan for each block of the program, in their order: those of
/// the leaders and then the singles. Each has to be valid, and its labels have to certify it. Then no plan costs less.
///
/// # Errors
/// The first block whose plan fails, and the first place there; `NoMemory` where there is no memory for a block's problem.
pub fn verify(
    alloc: Global,
    program: &Program,
    rules: &Audited,
    plans: &[BlockPlan],
) -> Result<u64, PlanFault>
    requires no_rules { rules.now.rules.items ≡ [] }
    requires program { (bytes : List ℕ) × IsProgramOf PowerPc bytes program.now }
    ensures good { IfOk result (λ total. AreVerified program.now plans.now total) }
    ensures refused { IfErr result (λ e. IsRefusal program.now plans.now e) }
{
    blocks_have_live_sets();
    each_is_block();
    have_few_words();
    let words = code_words(alloc, program)?;
    let _entry = entry_place(program);
    let blocks = blocks(alloc, program)?;
    let live = live(alloc, program)?;
    checked_cost(alloc, &blocks, &live, rules, plans)
}
