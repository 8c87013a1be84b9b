//! The answers to the calls of a program.

ghost use Rattle.std.specs.Prelude.{◌≡◌, ◌≤◌, true, false, List, ℕ, OnOk, OnErr, Some, length};
ghost use Rattle.machines.specs.Prelude.{ArePermitted, ListedCall, Read, Write, Close, AnswerValue, Outcome, Asks};
ghost use Rattle.runner.specs.Answers.{Bytes};
ghost use Rattle.runner.specs.Stepping.{Describes, IsHeld, Resumes, StandAt};
ghost use Rattle.runner.specs.Attending.{Streams, streams_by, with_input, with_output, with_errors, Told, CallAnswered, TakenInVain, ReadAnswered, TakesInVain, WriteAnswered};

use crate::machine::Machine;
use crate::transfers::{Taken, put_from, take_up_to};
use outside::{Failed, Sink, Source};
use space::{Answer, Call, CallKind};
use std::alloc::Global;
use word_kit::NoMemory;

/// The error of a file that can't be read or written, EBADF.
const BAD_FILE: u16 = 9;

/// The error of a stream that failed, EIO.
const STREAM_FAILED: u16 = 5;

/// Answers the call that waits.
///
/// # Errors
/// `NoMemory` where there is no room for the bytes of a read of the input, of which some may have been taken.
pub fn attend<M: Machine, I: Source, O: Sink, E: Sink>(
    alloc: Global,
    machine: &mut M,
    call: Call,
    input: &mut I,
    output: &mut O,
    errors: &mut E,
) -> Result<(), NoMemory>
    requires waits { M.waits machine.old ≡ true }
    requires buffer { IsHeld (M.memory machine.old) call }
    ensures waits { OnOk result (M.waits machine.new ≡ false) }
    ensures goes { OnOk result (Resumes (M.shows machine.old) (M.shows machine.new)) }
    ensures answered { OnOk result ((step : M.State → Outcome M.State) (listed : ListedCall) (next : AnswerValue → M.State) (before : Bytes)
        → M.shows machine.old step (Asks listed next) → Describes (M.memory machine.old) call listed
        → Told (streams_by I.left I.faults O.shown O.faults E.shown E.faults input.old output.old errors.old) before
        → CallAnswered (M.shows machine.new step) listed next
        (streams_by I.left I.faults O.shown O.faults E.shown E.faults input.old output.old errors.old)
        (streams_by I.left I.faults O.shown O.faults E.shown E.faults input.new output.new errors.new) before) }
    ensures in_vain { OnErr result ((step : M.State → Outcome M.State) (listed : ListedCall) (next : AnswerValue → M.State) (before : Bytes)
        → M.shows machine.old step (Asks listed next) → Describes (M.memory machine.old) call listed
        → Told (streams_by I.left I.faults O.shown O.faults E.shown E.faults input.old output.old errors.old) before
        → TakenInVain listed (streams_by I.left I.faults O.shown O.faults E.shown E.faults input.old output.old errors.old)
        (streams_by I.left I.faults O.shown O.faults E.shown E.faults input.new output.new errors.new) before) }
    ensures later { E.faults errors.old ≤ E.faults errors.new }
{
    match call.kind {
        CallKind::Read => attend_read(alloc, machine, call, input)?,
        CallKind::Write => attend_write(machine, call, output, errors),
        CallKind::Close => attend_close(machine, call),
    }
    Ok(())
}

// Answers a read, which file 0 alone permits.
fn attend_read<M: Machine, I: Source>(
    alloc: Global,
    machine: &mut M,
    call: Call,
    input: &mut I,
) -> Result<(), NoMemory>
    requires { M.waits machine.old ≡ true }
    ensures waits { OnOk result (M.waits machine.new ≡ false) }
    ensures goes { OnOk result (Resumes (M.shows machine.old) (M.shows machine.new)) }
    ensures answered { OnOk result ((step : M.State → Outcome M.State) (next : AnswerValue → M.State) (s : Streams) (before : Bytes)
        → M.shows machine.old step (Asks (Read call.fd call.count) next)
        → Told (with_input I.left I.faults s input.old) before
        → CallAnswered (M.shows machine.new step) (Read call.fd call.count) next
        (with_input I.left I.faults s input.old) (with_input I.left I.faults s input.new) before) }
    ensures in_vain { OnErr result ((s : Streams) (before : Bytes) → Told (with_input I.left I.faults s input.old) before
        → TakenInVain (Read call.fd call.count) (with_input I.left I.faults s input.old) (with_input I.left I.faults s input.new) before) }
{
    if call.fd == 0 {
        read(alloc, machine, call.count, input)?;
    } else {
        machine.answer(Answer::Error(BAD_FILE));
    }
    Ok(())
}

// Answers a write, which files 1 and 2 alone permit.
fn attend_write<M: Machine, O: Sink, E: Sink>(
    machine: &mut M,
    call: Call,
    output: &mut O,
    errors: &mut E,
)
    requires waits { M.waits machine.old ≡ true }
    requires held { ArePermitted (M.memory machine.old) false call.at call.count }
    ensures waits { M.waits machine.new ≡ false }
    ensures goes { Resumes (M.shows machine.old) (M.shows machine.new) }
    ensures answered { (step : M.State → Outcome M.State) (bytes : List ℕ) (next : AnswerValue → M.State) (s : Streams) (before : Bytes)
        → M.shows machine.old step (Asks (Write call.fd bytes) next) → length bytes ≡ call.count → StandAt (M.memory machine.old) call.at bytes
        → Told (with_errors E.shown E.faults (with_output O.shown O.faults s output.old) errors.old) before
        → CallAnswered (M.shows machine.new step) (Write call.fd bytes) next
        (with_errors E.shown E.faults (with_output O.shown O.faults s output.old) errors.old)
        (with_errors E.shown E.faults (with_output O.shown O.faults s output.new) errors.new) before }
    ensures later { E.faults errors.old ≤ E.faults errors.new }
{
    match call.fd {
        1 => write(machine, call, output),
        2 => write(machine, call, errors),
        _ => machine.answer(Answer::Error(BAD_FILE)),
    }
}

// Answers a close: the first three files can be closed, and stay as they are.
fn attend_close<M: Machine>(machine: &mut M, call: Call)
    requires { M.waits machine.old ≡ true }
    ensures waits { M.waits machine.new ≡ false }
    ensures goes { Resumes (M.shows machine.old) (M.shows machine.new) }
    ensures answered { (step : M.State → Outcome M.State) (next : AnswerValue → M.State) (s : Streams) (before : Bytes)
        → M.shows machine.old step (Asks (Close call.fd) next) → Told s before
        → CallAnswered (M.shows machine.new step) (Close call.fd) next s s before }
{
    if call.fd <= 2 {
        machine.answer(Answer::Took(0));
    } else {
        machine.answer(Answer::Error(BAD_FILE));
    }
}

fn read<M: Machine, I: Source>(
    alloc: Global,
    machine: &mut M,
    count: u32,
    input: &mut I,
) -> Result<(), NoMemory>
    requires { M.waits machine.old ≡ true }
    ensures waits { OnOk result (M.waits machine.new ≡ false) }
    ensures goes { OnOk result (Resumes (M.shows machine.old) (M.shows machine.new)) }
    ensures answered { OnOk result ((step : M.State → Outcome M.State) (listed : ListedCall) (next : AnswerValue → M.State) (left : List ℕ)
        → M.shows machine.old step (Asks listed next) → I.left input.old ≡ Some left
        → ReadAnswered (M.shows machine.new step) next count left (I.left input.new) (I.faults input.old) (I.faults input.new)) }
    ensures in_vain { OnErr result ((left : List ℕ) → I.left input.old ≡ Some left
        → TakesInVain count left (I.left input.new) (I.faults input.old) (I.faults input.new)) }
{
    match take_up_to(alloc, input, count as usize)? {
        Taken::Bytes(bytes) => machine.answer(Answer::Got(bytes.as_slice())),
        Taken::Failed => machine.answer(Answer::Error(STREAM_FAILED)),
    }
    Ok(())
}

fn write<M: Machine, S: Sink>(machine: &mut M, call: Call, sink: &mut S)
    requires waits { M.waits machine.old ≡ true }
    requires held { ArePermitted (M.memory machine.old) false call.at call.count }
    ensures waits { M.waits machine.new ≡ false }
    ensures goes { Resumes (M.shows machine.old) (M.shows machine.new) }
    ensures answered { (step : M.State → Outcome M.State) (listed : ListedCall) (next : AnswerValue → M.State) (bytes shown : List ℕ)
        → M.shows machine.old step (Asks listed next) → length bytes ≡ call.count → StandAt (M.memory machine.old) call.at bytes
        → S.shown sink.old ≡ Some shown
        → WriteAnswered (M.shows machine.new step) next bytes shown (S.shown sink.new) (S.faults sink.old) (S.faults sink.new) }
    ensures later { S.faults sink.old ≤ S.faults sink.new }
{
    match put_from(machine.space(), call.at, call.count, sink) {
        Ok(()) => machine.answer(Answer::Took(call.count)),
        Err(Failed) => machine.answer(Answer::Error(STREAM_FAILED)),
    }
}
