//! What is known after some lines of a plan text.

ghost use Rattle.std.specs.Prelude.{◌≡◌, IfOk, option_map};
ghost use Rattle.plan_form.specs.Machine.{next};
ghost use Rattle.plan_form.specs.Said.{item_of, state_of};

use crate::line::Line;
use crate::problem::{BlockPlan, Labels, Plan};
use std::alloc::{AllocError, Global};

/// What is known after some lines: the whole plans, and the part of one.
#[derive(Drop)]
pub enum Progress {
    Start,
    Between(Vec<BlockPlan>),
    Within(Vec<BlockPlan>, BlockPlan),
}

// What is known after one more line of a block.
fn go_on(
    plans: Vec<BlockPlan>,
    block: BlockPlan,
    line: Line,
) -> Result<Option<Progress>, AllocError>
    ensures { IfOk result (λ o. option_map state_of o ≡ next (state_of (Progress.Within plans block)) (item_of line)) }
{
    let mut plans = plans;
    let mut block = block;
    match line {
        Line::Does(step) => {
            if !block.labels.values.is_empty() {
                return Ok(None);
            }
            block.plan.steps.push(step)?;
            Ok(Some(Progress::Within(plans, block)))
        }
        Line::Row(place, labels) => {
            if place as usize != block.labels.values.len() {
                return Ok(None);
            }
            block.labels.values.push(labels)?;
            Ok(Some(Progress::Within(plans, block)))
        }
        Line::End => {
            plans.push(block)?;
            Ok(Some(Progress::Between(plans)))
        }
        _ => Ok(None),
    }
}

/// What is known after one more line, or None where that line may not stand there.
pub fn advance(
    alloc: Global,
    progress: Progress,
    line: Line,
) -> Result<Option<Progress>, AllocError>
    ensures { IfOk result (λ o. option_map state_of o ≡ next (state_of progress) (item_of line)) }
{
    match (progress, line) {
        (Progress::Start, Line::Title) => Ok(Some(Progress::Between(Vec::new(alloc)))),
        (Progress::Between(plans), Line::Head(at, words, entry, exit)) => {
            let block = BlockPlan {
                at,
                words,
                entry,
                exit,
                plan: Plan {
                    steps: Vec::new(alloc),
                },
                labels: Labels {
                    values: Vec::new(alloc),
                },
            };
            Ok(Some(Progress::Within(plans, block)))
        }
        (Progress::Within(plans, block), line) => go_on(plans, block, line),
        _ => Ok(None),
    }
}
