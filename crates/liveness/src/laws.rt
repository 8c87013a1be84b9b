//! Laws of live sets. Each is the contract of a function that does nothing of its own.
ghost use Rattle.liveness.specs.Laws.{LiveByBehind, LiveByNext};

use ppc_isa::one_instruction;

/// A location is live before a code word exactly where the word reads it, or doesn't write it and leads
/// to a word before which it is live.
pub fn live_by_behind()
    ensures { LiveByBehind }
{}

/// A location is live before an instruction that is no flow word exactly where the instruction reads it,
/// or doesn't write it and it is live before the next word.
pub fn live_by_next()
    ensures { LiveByNext }
{
    one_instruction();
}
