//! The plan of one block held against the block's problem.

ghost use Rattle.std.specs.Prelude.{◌≡◌, ◌↔◌, [], ℕ, Bool, IfOk, IsTrue, MatchOption};
ghost use Rattle.offer_make.specs.Problem.{IsBlockOf};
ghost use Rattle.plan_form.specs.Labels.{CertifyPlan};
ghost use Rattle.plan_form.specs.Prelude.{IsFull, IsShaped, values_of};
ghost use Rattle.plan_verify.specs.Failures.{FailsAt, FailsWithin, IsGood, IsHeaded};

use crate::shape::miscounted_at;
use crate::walk::sticks_at;
use block_find::Block;
use liveness::LiveSets;
use offer_make::problem;
use plan_form::{
    BlockPlan, Labels, Plan, Problem, certified_cost_is_least, check_labels, same_map,
};
use ppc_isa::Map;
use rule_audit::Audited;
use std::alloc::Global;
use word_kit::NoMemory;

const EMPTY: Map = Map {
    ebx: None,
    esi: None,
    edi: None,
};

// Whether a plan is said to be of this block, between empty maps.
fn is_headed(block: &Block, plan: &BlockPlan) -> bool
    ensures { IsTrue result ↔ IsHeaded block.now plan.now }
{
    plan.at == block.at
        && plan.words as usize == block.words.as_slice().len()
        && same_map(&plan.entry, &EMPTY)
        && same_map(&plan.exit, &EMPTY)
}

// The place where a plan fails first behind its header: its steps, then the numbers of its labels, then the labels.
fn fault_within(problem: &Problem, plan: &Plan, labels: &Labels) -> Option<u32>
    requires { IsFull problem.now }
    ensures { MatchOption result
        (IsShaped problem.now (values_of labels.now) × CertifyPlan problem.now plan.now.steps.items (values_of labels.now))
        (λ place. FailsWithin problem.now plan.now.steps.items (values_of labels.now) place) }
{
    if let Some(place) = sticks_at(problem, plan) {
        return Some(place);
    }
    if let Some(place) = miscounted_at(problem, labels) {
        return Some(place);
    }
    match check_labels(problem, plan, labels) {
        Ok(()) => None,
        Err(bad) => Some(bad.place),
    }
}

/// The place where the plan of a block fails first: its header at place 0, then what stands behind that. None exactly where the
/// plan is the block's, valid and certified.
///
/// # Errors
/// `NoMemory` where there is no memory for the block's problem.
pub fn block_fault(
    alloc: Global,
    block: &Block,
    leader: bool,
    live: &LiveSets,
    plan: &BlockPlan,
    rules: &Audited,
) -> Result<Option<u32>, NoMemory>
    requires no_rules { rules.now.rules.items ≡ [] }
    requires block { IsBlockOf live.now block.now }
    ensures { IfOk result (λ fault. MatchOption fault
        (IsGood live.now block.now leader plan.now)
        (λ place. FailsAt live.now block.now leader plan.now place)) }
{
    certified_cost_is_least();
    if !is_headed(block, plan) {
        return Ok(Some(0));
    }
    let problem = problem(alloc, block, &EMPTY, &EMPTY, leader, live, rules)?;
    Ok(fault_within(&problem, &plan.plan, &plan.labels))
}
