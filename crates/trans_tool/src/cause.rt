//! Why a run ended: its status number and its line on the standard error.

ghost use Rattle.std.specs.Prelude.{◌≡◌, ◌≢◌, ◌≤◌, ◌⊎◌, [], IfOk, string_bytes};
ghost use Rattle.outside.specs.Causes.{Rose};
ghost use Rattle.trans_tool.specs.Lines.{code_of, refusal_text, line_of, IsTold};

use elf_load::ElfRefusal;
use outside::{Sink, put_all};
use std::alloc::{AllocError, Global};

/// Why a run of the tool ended. File 0 is IN or FILE, file 1 is OUT.
#[derive(Clone, Copy, Debug, PartialEq, Eq)]
pub enum Cause {
    /// The command did what it says.
    Done,
    /// The program that was run left with this number.
    GuestExit(u32),
    /// The words spell no command.
    Usage,
    /// The file of this number is no program: the first rule that it breaks, and the offset of what breaks it.
    BadElf(ElfRefusal, u32),
    /// The file of this number has more bytes than it may have.
    TooLong(u8),
    /// The file of this number could not be read.
    FileRead(u8),
    /// The file of this number could not be replaced.
    FileWrite(u8),
    /// The text of the command could not be put to the standard output whole.
    OutFault,
    /// The line of a cause could not be put to the standard error.
    ErrFault,
    /// There was no memory for the work.
    Memory,
    /// The program that was run made all the steps that it was given, and goes on.
    StepsSpent,
    /// The program that was run met a trap.
    Trap,
    /// The program that was run met a word or bytes that are no instruction.
    Illegal,
    /// The program that was run reached outside its segments, or against their rights.
    Outside,
    /// The program that was run divided by zero, or the quotient was too long. On IA-32 alone.
    DivideFault,
}

/// How a run of the tool ended.
#[derive(Clone, Copy, Debug, PartialEq, Eq)]
pub struct Status {
    /// The program's exit status.
    pub code: u8,
    pub cause: Cause,
}

impl Cause {
    /// The program's exit status for this cause.
    pub fn code(self) -> u8
        ensures { result ≡ code_of self }
    {
        match self {
            Cause::Done => 0,
            Cause::GuestExit(number) => (number % 256) as u8,
            Cause::Usage => 64,
            Cause::BadElf(_, _) => 65,
            Cause::TooLong(_) => 69,
            Cause::FileRead(_) => 70,
            Cause::FileWrite(_) => 71,
            Cause::OutFault => 72,
            Cause::ErrFault => 73,
            Cause::Memory => 74,
            Cause::StepsSpent => 75,
            Cause::Trap => 76,
            Cause::Illegal => 77,
            Cause::Outside => 78,
            Cause::DivideFault => 79,
        }
    }

    fn line(self, alloc: Global) -> Result<String, AllocError>
        ensures { IfOk result (λ s. string_bytes s ≡ line_of self) }
    {
        match self {
            Cause::Done | Cause::GuestExit(_) | Cause::ErrFault => Ok(String::new(alloc)),
            Cause::Usage => format!(in alloc; "trans: bad words\n"),
            Cause::BadElf(refusal, offset) => refusal_line(alloc, refusal.number(), offset),
            Cause::TooLong(file) => format!(in alloc; "trans: file {file} is too long\n"),
            Cause::FileRead(file) => format!(in alloc; "trans: cannot read file {file}\n"),
            Cause::FileWrite(file) => format!(in alloc; "trans: cannot write file {file}\n"),
            Cause::OutFault => format!(in alloc; "trans: output failed\n"),
            Cause::Memory => format!(in alloc; "trans: out of memory\n"),
            Cause::StepsSpent => format!(in alloc; "trans: steps spent\n"),
            Cause::Trap => format!(in alloc; "trans: trap\n"),
            Cause::Illegal => format!(in alloc; "trans: illegal instruction\n"),
            Cause::Outside => format!(in alloc; "trans: outside access\n"),
            Cause::DivideFault => format!(in alloc; "trans: divide fault\n"),
        }
    }
}

fn refusal_line(alloc: Global, number: u8, offset: u32) -> Result<String, AllocError>
    ensures { IfOk result (λ s. string_bytes s ≡ refusal_text number offset) }
{
    format!(in alloc; "trans: elf refusal {number} at offset {offset}\n")
}

/// Puts the line of a cause, if it has one. Without memory for the line the cause is `Memory`, whose
/// line takes none; where the line cannot be put it is `ErrFault`.
pub fn report<E: Sink>(alloc: Global, errors: &mut E, cause: Cause) -> Cause
    requires { cause ≢ Cause.ErrFault }
    ensures later { E.faults errors.old ≤ E.faults errors.new }
    ensures told { IsTold cause result (E.shown errors.old) (E.shown errors.new) (E.faults errors.old) (E.faults errors.new)
        ⊎ ((cause ≢ Cause.Usage) × IsTold Cause.Memory result (E.shown errors.old) (E.shown errors.new) (E.faults errors.old) (E.faults errors.new)) }
{
    match cause {
        Cause::Done | Cause::GuestExit(_) => cause,
        Cause::Usage => say(errors, cause, b"trans: bad words\n"),
        Cause::Memory => say(errors, cause, b"trans: out of memory\n"),
        _ => match cause.line(alloc) {
            Ok(line) => say(errors, cause, line.as_bytes()),
            Err(_) => say(errors, Cause::Memory, b"trans: out of memory\n"),
        },
    }
}

fn say<E: Sink>(errors: &mut E, cause: Cause, line: &[u8]) -> Cause
    requires line { line.now ≡ line_of cause }
    requires some { line_of cause ≢ [] }
    ensures later { E.faults errors.old ≤ E.faults errors.new }
    ensures told { IsTold cause result (E.shown errors.old) (E.shown errors.new) (E.faults errors.old) (E.faults errors.new) }
{
    match put_all(errors, line) {
        Ok(()) => cause,
        Err(_) => Cause::ErrFault,
    }
}
