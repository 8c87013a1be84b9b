// The plans of a translation held against its program.

use crate::programs::{CALLED, translated};
use plan_form::BlockPlan;
use plan_verify::{PlanFault, verify};
use rule_audit::Audited;
use std::process::Abort;
use std::test::Fail;

// Puts another label at the last place of a plan.
fn set_end_label(rt: &impl Abort, plan: &mut BlockPlan, label: u32) {
    let Some(row) = plan.labels.values.last_mut() else {
        panic!(rt; "no labels");
    };
    assert!(rt; row.len() == 1);
    row[0] = label;
}

// Its leaders' blocks cost 8, 3, 28, 63 and 60.
#[test]
fn the_leaders_plans_are_summed(rt: HostRuntime) -> Result<(), Fail> {
    let alloc = rt.alloc();
    let (program, plans) = translated(&rt, alloc, CALLED)?;
    let rules = Audited::none(alloc);
    assert!(rt; matches!(verify(alloc, &program, &rules, &plans), Ok(162)));
    Ok(())
}

// The block at 0x10000020 costs 60, and no less.
#[test]
fn a_last_label_is_too_low(rt: HostRuntime) -> Result<(), Fail> {
    let alloc = rt.alloc();
    let (program, mut plans) = translated(&rt, alloc, CALLED)?;
    assert!(rt; plans.len() == 16);
    assert!(rt; plans[4].at == 0x10000020);
    set_end_label(&rt, &mut plans[4], 59);
    let rules = Audited::none(alloc);
    assert!(rt;
        matches!(
            verify(alloc, &program, &rules, &plans),
            Err(PlanFault::Bad(4, 8))
        )
    );
    Ok(())
}

#[test]
fn the_last_block_is_cut_off(rt: HostRuntime) -> Result<(), Fail> {
    let alloc = rt.alloc();
    let (program, mut plans) = translated(&rt, alloc, CALLED)?;
    let _last = plans.pop();
    let rules = Audited::none(alloc);
    assert!(rt;
        matches!(
            verify(alloc, &program, &rules, &plans),
            Err(PlanFault::Bad(15, 0))
        )
    );
    Ok(())
}
