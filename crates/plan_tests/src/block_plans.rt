// Plans of the blocks of small programs, as translations answer them. What the tiles and moves cost was summed by hand.

use crate::programs::{CALLED, translated};
use plan_form::{BlockPlan, Step, Tile};
use std::process::Abort;
use std::test::Fail;

// Whether each step of a plan lays the base tile.
fn is_base(plan: &BlockPlan) -> bool {
    plan.plan
        .steps
        .iter()
        .all(|step| matches!(*step, Step::Lay(Tile::Base)))
}

// What a plan costs, which is its last label.
fn cost(rt: &impl Abort, plan: &BlockPlan) -> u32 {
    let Some(row) = plan.labels.values.last() else {
        panic!(rt; "no labels");
    };
    assert!(rt; row.len() == 1);
    row[0]
}

// cmpwi r3,0 and beq, behind which all locations but r0 and CR1 are live; then nop, and cmpwi r4,0, li r0,1 and sc.
#[test]
fn a_compare_and_a_branch(rt: HostRuntime) -> Result<(), Fail> {
    let code = "2c03000041820008600000002c0400003800000144000002";
    let (_program, plans) = translated(&rt, rt.alloc(), code)?;
    assert!(rt; plans.len() == 6);
    let first = &plans[0];
    assert!(rt; first.plan.steps.len() == 2 && is_base(first));
    assert_eq!(rt; cost(&rt, first), 21);
    let wanted: [&[u32]; 3] = [&[0, 3, 3, 3], &[16, 17, 17, 17], &[21]];
    assert!(rt; first.labels.values.len() == 3);
    for (row, values) in first.labels.values.iter().zip(&wanted) {
        assert!(rt; row.as_slice() == *values);
    }
    Ok(())
}

// Five leaders' blocks and eleven singles. The base tiles of the function's eight words cost 73 under empty maps.
#[test]
fn a_function_that_is_called(rt: HostRuntime) -> Result<(), Fail> {
    let (_program, plans) = translated(&rt, rt.alloc(), CALLED)?;
    assert!(rt; plans.len() == 16);
    let costs = [8, 3, 28, 63, 60];
    for (plan, wanted) in plans.iter().zip(&costs) {
        assert_eq!(rt; cost(&rt, plan), *wanted);
    }
    Ok(())
}

// li r0,1; li r3,7; sc
#[test]
fn three_words(rt: HostRuntime) -> Result<(), Fail> {
    let (_program, plans) = translated(&rt, rt.alloc(), "380000013860000744000002")?;
    assert!(rt; plans.len() == 3);
    let first = &plans[0];
    assert!(rt; first.plan.steps.len() == 3 && is_base(first));
    assert_eq!(rt; cost(&rt, first), 59);
    Ok(())
}
