//! A run of so many steps at most.

ghost use Rattle.std.specs.Prelude.{◌≡◌, ◌≢◌, ◌≤◌, false, None, IfOk, OnErr, IfSome};
ghost use Rattle.machines.specs.Prelude.{Outcome, Goes};
ghost use Rattle.runner.specs.Answers.{Bytes};
ghost use Rattle.runner.specs.Stepping.{GoesOn};
ghost use Rattle.runner.specs.Attending.{streams_by, Told, Steps, StepInVain, Attended, AttendedPartly};

use crate::calls::attend;
use crate::machine::Machine;
use outside::{Sink, Source};
use space::{End, Event};
use std::alloc::Global;
use word_kit::NoMemory;

/// Makes so many steps, or as many as there are until the run ends, and answers its calls. The answer is how the run
/// stands then: `Running` where all the steps were made.
///
/// # Errors
/// `NoMemory` where there is no room for the bytes of a read of the input, of which some may have been taken.
pub fn run<M: Machine, I: Source, O: Sink, E: Sink>(
    alloc: Global,
    machine: &mut M,
    steps: u64,
    input: &mut I,
    output: &mut O,
    errors: &mut E,
) -> Result<End, NoMemory>
    requires free { M.waits machine.old ≡ false }
    requires stands { GoesOn (M.shows machine.old) }
    ensures answered { IfOk result (λ ending. ending ≢ End.Dry) }
    ensures attended { IfOk result (λ ending. (step : M.State → Outcome M.State) (start : M.State) (before : Bytes)
        → M.shows machine.old step (Goes start)
        → Told (streams_by I.left I.faults O.shown O.faults E.shown E.faults input.old output.old errors.old) before
        → Attended step start steps
        (streams_by I.left I.faults O.shown O.faults E.shown E.faults input.old output.old errors.old)
        (streams_by I.left I.faults O.shown O.faults E.shown E.faults input.new output.new errors.new) before ending) }
    ensures partly { OnErr result ((step : M.State → Outcome M.State) (start : M.State) (before : Bytes)
        → M.shows machine.old step (Goes start)
        → Told (streams_by I.left I.faults O.shown O.faults E.shown E.faults input.old output.old errors.old) before
        → AttendedPartly step start steps
        (streams_by I.left I.faults O.shown O.faults E.shown E.faults input.old output.old errors.old)
        (streams_by I.left I.faults O.shown O.faults E.shown E.faults input.new output.new errors.new) before) }
    ensures later { E.faults errors.old ≤ E.faults errors.new }
{
    for _ in 0..steps {
        match make_step(alloc, machine, input, output, errors)? {
            Some(end) => return Ok(end),
            None => {}
        }
    }
    Ok(End::Running)
}

// Makes a step, and answers the call that it makes. The answer is how the run ended, if it did.
fn make_step<M: Machine, I: Source, O: Sink, E: Sink>(
    alloc: Global,
    machine: &mut M,
    input: &mut I,
    output: &mut O,
    errors: &mut E,
) -> Result<Option<End>, NoMemory>
    requires free { M.waits machine.old ≡ false }
    requires stands { GoesOn (M.shows machine.old) }
    ensures free { IfOk result (λ ended. M.waits machine.new ≡ false) }
    ensures goes { IfOk result (λ ended. ended ≡ None → GoesOn (M.shows machine.new)) }
    ensures answered { IfOk result (λ ended. IfSome ended (λ ending. ending ≢ End.Dry)) }
    ensures made { IfOk result (λ ended. (step : M.State → Outcome M.State) (s : M.State) (before : Bytes)
        → M.shows machine.old step (Goes s)
        → Told (streams_by I.left I.faults O.shown O.faults E.shown E.faults input.old output.old errors.old) before
        → Steps (M.shows machine.new step) step s
        (streams_by I.left I.faults O.shown O.faults E.shown E.faults input.old output.old errors.old)
        (streams_by I.left I.faults O.shown O.faults E.shown E.faults input.new output.new errors.new) before ended) }
    ensures in_vain { OnErr result ((step : M.State → Outcome M.State) (s : M.State) (before : Bytes)
        → M.shows machine.old step (Goes s)
        → Told (streams_by I.left I.faults O.shown O.faults E.shown E.faults input.old output.old errors.old) before
        → StepInVain step s (streams_by I.left I.faults O.shown O.faults E.shown E.faults input.old output.old errors.old)
        (streams_by I.left I.faults O.shown O.faults E.shown E.faults input.new output.new errors.new) before) }
    ensures later { E.faults errors.old ≤ E.faults errors.new }
{
    match machine.step() {
        Event::Went => Ok(None),
        Event::Asked(call) => {
            attend(alloc, machine, call, input, output, errors)?;
            Ok(None)
        }
        Event::Ended(end) => Ok(Some(end)),
    }
}
