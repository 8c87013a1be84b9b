//! What holds of the two machines. Each law is the contract of a function that does nothing.

ghost use Rattle.machines.specs.Laws.{GuestStaysOver, HostStaysOver, GuestKeepsCalls, HostKeepsCalls, HasWordReading, HasOpReading, HaveOneWordReading, HaveOneOpReading, UsesFirstChoices};
ghost use Rattle.space.specs.declared.program.Program.{Program};
ghost use Rattle.machines.specs.Agreement.{AgreesWith, AgreesNarrowly, CleanReadsNoCode};
ghost use Rattle.std.specs.Prelude.{◌≡◌, ◌++◌, ℕ, List};
ghost use Rattle.ppc_isa.specs.Legal.{HasOneInstruction};
ghost use Rattle.ia_codec.specs.Prelude.{spelling, IsInProfile};
ghost use Rattle.ia_codec.specs.declared.op.Op.{Op};

use ia_codec::one_spelling;
use ppc_isa::{one_instruction, one_reading};
use runs::{agrees_in_larger, keeps_calls, stays_over};
use std::marker::Brand;

/// A guest run that is over stays as it is.
pub fn guest_stays_over()
    ensures { GuestStaysOver }
{
    stays_over::<Brand>();
}

/// A host run that is over stays as it is.
pub fn host_stays_over()
    ensures { HostStaysOver }
{
    stays_over::<Brand>();
}

/// A longer guest run makes the calls of a shorter one first.
pub fn guest_keeps_calls()
    ensures { GuestKeepsCalls }
{
    keeps_calls::<Brand>();
}

/// A longer host run makes the calls of a shorter one first.
pub fn host_keeps_calls()
    ensures { HostKeepsCalls }
{
    keeps_calls::<Brand>();
}

/// Any two readings of words are the same, and any two readings of bytes.
pub fn readings_are_one()
    ensures words { HaveOneWordReading }
    ensures ops { HaveOneOpReading }
{
    one_reading();
}

/// There is a reading of words, and one of bytes.
pub fn readings_exist()
    ensures words { HasWordReading }
    ensures ops { HasOpReading }
{
    one_reading();
    ia_codec::one_reading();
}

/// A host run doesn't depend on choices past those of its steps.
pub fn host_uses_first_choices()
    ensures { UsesFirstChoices }
{}

/// No word is that of two instructions, and no spelling begins another.
pub fn codes_are_unique()
    ensures words { (w : ℕ) → HasOneInstruction w }
    ensures ops { (a b : Op) (x y : List ℕ) → IsInProfile a → IsInProfile b → spelling a ++ x ≡ spelling b ++ y → a ≡ b }
{
    one_instruction();
    one_spelling();
}

/// A translation that agrees even where its code can't be read as data agrees, and its steps are clean.
pub fn agrees_if_narrowly()
    ensures { (p q : Program) → AgreesNarrowly p q → AgreesWith p q }
{
    agrees_in_larger::<Brand, Brand>();
}

/// Where a step is clean, the host makes it also without the right to read its code.
pub fn clean_reads_no_code()
    ensures { CleanReadsNoCode }
{}
