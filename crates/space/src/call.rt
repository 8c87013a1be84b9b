//! The system calls of a running program, their answers, and how a run ends.

#[derive(Clone, Copy, Debug, PartialEq, Eq)]
pub enum CallKind {
    Read,
    Write,
    Close,
}

/// A call that waits for its answer. A close has no buffer: its `at` and `count` mean nothing.
#[derive(Clone, Copy, Debug, PartialEq, Eq)]
pub struct Call {
    pub kind: CallKind,
    /// The file descriptor.
    pub fd: u32,
    /// Where the buffer begins.
    pub at: u32,
    /// How many bytes the buffer has.
    pub count: u32,
}

/// The answer to a call. Which of them suit a call, and what the others mean, stands with `given`.
#[derive(Clone, Copy)]
pub enum Answer<'a> {
    /// The bytes that a read got.
    Got(&'a [u8]),
    /// How many bytes a write took.
    Took(u32),
    /// The number of an error, as Linux numbers them.
    Error(u16),
}

/// How a run stands. `Running` and `Dry` stand in reports alone: no step ends so.
#[derive(Clone, Copy, Debug, PartialEq, Eq)]
pub enum End {
    /// The run goes on.
    Running,
    /// The program left with this number.
    Exit(u32),
    /// A trap instruction, or the host's breakpoint.
    Trap,
    /// A word that is no instruction.
    Illegal,
    /// An access outside the program's segments, or against their rights.
    Outside,
    /// A call, and no answer was left.
    Dry,
    /// A division by zero, or one whose quotient doesn't fit.
    DivideFault,
}

/// What one step of a machine did.
#[derive(Clone, Copy, Debug, PartialEq, Eq)]
pub enum Event {
    Went,
    Asked(Call),
    Ended(End),
}
