//! The best plan of each block.

ghost use Rattle.std.specs.Prelude.{◌≡◌, ◌≤◌, [], IfOk, length};
ghost use Rattle.block_find.specs.Prelude.{all_blocks};
ghost use Rattle.offer_make.specs.Problem.{AreBlocksWith, IsBlockOf};
ghost use Rattle.best_plans.specs.Plans.{AreBestPlans, IsBestPlan};

use block_find::{Block, Blocks};
use liveness::LiveSets;
use offer_make::problem;
use plan_form::BlockPlan;
use ppc_isa::Map;
use rule_audit::Audited;
use std::alloc::Global;
use tile_plan::solve;
use word_kit::NoMemory;

const EMPTY: Map = Map {
    ebx: None,
    esi: None,
    edi: None,
};

/// The best plan of each block, those of the leaders' blocks first and then those of the singles. Every block begins and ends with no
/// GPR in a register.
///
/// # Errors
/// `NoMemory` where there is no memory for a block's problem or for the plans.
pub fn best_plans(
    alloc: Global,
    blocks: &Blocks,
    live: &LiveSets,
    rules: &Audited,
) -> Result<Vec<BlockPlan>, NoMemory>
    requires no_rules { rules.now.rules.items ≡ [] }
    requires few { length (all_blocks blocks.now) ≤ 262144 }
    requires each { AreBlocksWith blocks.now live.now }
    ensures { IfOk result (λ plans. AreBestPlans live.now blocks.now plans.items) }
{
    let mut plans = Vec::new(alloc);
    let leaders = blocks.leaders.as_slice().len();
    for place in 0..blocks.count() {
        let plan = best_plan(alloc, blocks.at(place), place < leaders, live, rules)?;
        plans.push(plan)?;
    }
    Ok(plans)
}

// The best plan of a block.
fn best_plan(
    alloc: Global,
    block: &Block,
    leader: bool,
    live: &LiveSets,
    rules: &Audited,
) -> Result<BlockPlan, NoMemory>
    requires no_rules { rules.now.rules.items ≡ [] }
    requires block { IsBlockOf live.now block.now }
    ensures { IfOk result (λ plan. IsBestPlan live.now block.now leader plan) }
{
    let problem = problem(alloc, block, &EMPTY, &EMPTY, leader, live, rules)?;
    let (plan, labels) = solve(alloc, &problem)?;
    Ok(BlockPlan {
        at: block.at,
        words: block.words.as_slice().len() as u32,
        entry: EMPTY,
        exit: EMPTY,
        plan,
        labels,
    })
}
