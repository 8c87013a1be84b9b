//! The law on live sets, the contract of a function that does nothing of its own.

ghost use Rattle.live_enough.specs.Laws.{LiveSetsAreEnough};

use liveness::live_by_behind;
use ppc_isa::one_instruction;
use row_laws::{depends_on_its_reads_alone, keeps_agreement};

/// From two states of a program's guest that are alike in what its live sets have before the next word, the word does the same,
/// and leads to states that are alike in what they have before the word behind.
pub fn live_sets_are_enough()
    ensures { LiveSetsAreEnough }
{
    live_by_behind();
    depends_on_its_reads_alone();
    keeps_agreement();
    one_instruction();
}
