//! The command `run FILE --steps=N`.

ghost use Rattle.std.specs.Prelude.{◌≡◌, ◌≢◌, ◌≤◌, IfOk, OnErr};
ghost use Rattle.runner.specs.Prelude.{streams_by};
ghost use Rattle.trans_tool.specs.Seen.{seen_by, FilesStand};
ghost use Rattle.trans_tool.specs.Running.{EndsRun, IsLoadable, HasRunTo, HasRunPartly, cause_of};

use crate::Cause;
use crate::loading::program_in;
use crate::words::Run;
use elf_load::{loaded_code_is_closed, loaded_is_apart};
use machines::readings_exist;
use outside::{Files, Sink, Source};
use space::{End, Kind, Program};
use std::alloc::Global;
use word_kit::NoMemory;

/// Runs the program in a file, with its calls answered from the streams.
pub fn run<F: Files, I: Source, O: Sink, E: Sink>(
    alloc: Global,
    command: &Run<'_>,
    files: &mut F,
    input: &mut I,
    output: &mut O,
    errors: &mut E,
) -> Cause
    ensures ends { EndsRun (seen_by F.tells F.held F.read_faults F.replace_faults files.old files.new)
        command.now.file.now command.now.steps
        (streams_by I.left I.faults O.shown O.faults E.shown E.faults input.old output.old errors.old)
        (streams_by I.left I.faults O.shown O.faults E.shown E.faults input.new output.new errors.new) result }
    ensures later { E.faults errors.old ≤ E.faults errors.new }
    ensures stands { FilesStand (seen_by F.tells F.held F.read_faults F.replace_faults files.old files.new) }
{
    let program = match program_in(alloc, files, command.file) {
        Ok(program) => program,
        Err(cause) => return cause,
    };
    match run_program(alloc, program, command.steps, input, output, errors) {
        Ok(end) => cause_of(end),
        Err(NoMemory) => Cause::Memory,
    }
}

// Makes the steps of a program that a file gave, in the program's own memory.
fn run_program<I: Source, O: Sink, E: Sink>(
    alloc: Global,
    program: Program,
    steps: u64,
    input: &mut I,
    output: &mut O,
    errors: &mut E,
) -> Result<End, NoMemory>
    requires { IsLoadable program }
    ensures answered { IfOk result (λ end. end ≢ End.Dry) }
    ensures ran { IfOk result (λ end. HasRunTo program steps
        (streams_by I.left I.faults O.shown O.faults E.shown E.faults input.old output.old errors.old)
        (streams_by I.left I.faults O.shown O.faults E.shown E.faults input.new output.new errors.new) end) }
    ensures partly { OnErr result (HasRunPartly program steps
        (streams_by I.left I.faults O.shown O.faults E.shown E.faults input.old output.old errors.old)
        (streams_by I.left I.faults O.shown O.faults E.shown E.faults input.new output.new errors.new)) }
    ensures later { E.faults errors.old ≤ E.faults errors.new }
{
    loaded_is_apart();
    loaded_code_is_closed();
    readings_exist();
    match program.kind {
        Kind::PowerPc => {
            let mut machine = ppc_step::Machine::start(program);
            runner::run(alloc, &mut machine, steps, input, output, errors)
        }
        Kind::Ia32 => {
            let mut machine = ia_step::Machine::start(program, Vec::new(alloc));
            runner::run(alloc, &mut machine, steps, input, output, errors)
        }
    }
}

// Why the command ends where the run ended so.
fn cause_of(end: End) -> Cause
    requires { end ≢ End.Dry }
    ensures { result ≡ cause_of end }
{
    match end {
        End::Exit(number) => Cause::GuestExit(number),
        End::Trap => Cause::Trap,
        End::Illegal => Cause::Illegal,
        End::Outside => Cause::Outside,
        End::DivideFault => Cause::DivideFault,
        End::Running => Cause::StepsSpent,
        End::Dry => unreachable!(),
    }
}
