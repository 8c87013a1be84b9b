//! The buffers of calls, and what their answers give.

ghost use Rattle.std.specs.Prelude.{◌≡◌, ◌≤◌, ℕ, IsTrue, true, false, length, min, take};
ghost use Rattle.std.specs.Result.{IfErr};
ghost use Rattle.machines.specs.Prelude.{Program, ArePermitted, answer_value, given, error_of as error_given, put_block};
ghost use Rattle.access.specs.Kept.{Keeps};
ghost use Rattle.machine_calls.specs.Calls.{HasBuffer, IsGiven, is_buffer, listed_call};

use access::{holds, put};
use space::{Answer, Call, CallKind, Space};

/// ENOSYS, which a call gives that there isn't.
pub const NO_SUCH_CALL: u16 = 38;

/// EIO, which stands for a code that is no error number.
const BAD_INPUT_OUTPUT: u16 = 5;

/// The highest error number of Linux.
const LAST_ERROR: u16 = 4095;

// The error that a code stands for.
fn error_of(code: u16) -> u16
    ensures code { result ≡ error_given code }
    ensures some { 1 ≤ result }
{
    if code == 0 || code > LAST_ERROR {
        BAD_INPUT_OUTPUT
    } else {
        code
    }
}

/// Whether the buffer of a call is held: a read's to be written, a write's to be read.
pub fn has_buffer(memory: &Space, call: &Call) -> bool
    ensures permitted { IsTrue result → HasBuffer call.now memory.now }
    ensures tells { (p : Program) (bytes : ℕ → ℕ) → Keeps p bytes memory.now
        → result ≡ is_buffer p call.now.kind call.now.at call.now.count }
{
    match call.kind {
        CallKind::Read => memory.holds(call.at, call.count, true),
        CallKind::Write => memory.holds(call.at, call.count, false),
        CallKind::Close => true,
    }
}

// Puts what a read got into its buffer, at most as much as that holds. The answer is how much.
fn fill(memory: &mut Space, at: u32, count: u32, bytes: &[u8]) -> u32
    requires { ArePermitted memory.old true at count }
    ensures count { result ≡ min (length bytes.now) count }
    ensures bytes { (p : Program) (kept : ℕ → ℕ) → Keeps p kept memory.old
        → Keeps p (put_block at (take (min (length bytes.now) count) bytes.now) kept) memory.new }
{
    let taken = bytes.len().min(count as usize);
    put(memory, at, &bytes[..taken]);
    taken as u32
}

/// What an answer gives to a call: its result, with the bytes of a read in the buffer, or its error. An answer that
/// doesn't suit the call gives the result 0, and a code that is no error number the error 5.
pub fn give(memory: &mut Space, call: &Call, answer: Answer<'_>) -> Result<u32, u16>
    requires { HasBuffer call.now memory.old }
    ensures gives { (p : Program) (bytes : ℕ → ℕ) → Keeps p bytes memory.old
        → IsGiven p bytes call.now.at (given (listed_call call.now bytes) (answer_value answer.entry)) result memory.new }
    ensures some { IfErr result (λ error. 1 ≤ error) }
{
    match answer {
        Answer::Got(bytes) => match call.kind {
            CallKind::Read => Ok(fill(memory, call.at, call.count, bytes)),
            CallKind::Write | CallKind::Close => Ok(0),
        },
        Answer::Took(taken) => match call.kind {
            CallKind::Write => Ok(taken.min(call.count)),
            CallKind::Read | CallKind::Close => Ok(0),
        },
        Answer::Error(code) => Err(error_of(code)),
    }
}
