//! What a file's bytes are due to have is one cause.

ghost use Rattle.std.specs.Prelude.{◌≡◌, List, Option, ℕ};
ghost use Rattle.machines.specs.Prelude.{Instr, Fetched};
ghost use Rattle.runner.specs.Prelude.{Bytes};
ghost use Rattle.trans_tool.specs.Due.{IsDue, IsDueListing, IsDueRun};
ghost use Rattle.trans_tool.specs.declared.cause.Cause.{Cause};

use elf_load::{one_fault, one_program};

/// No bytes are due to have two causes: of a translation, of a listing, and of a run with so many steps and these bytes of
/// the streams.
pub fn one_due()
    ensures translation { (bytes : List ℕ) (first second : Cause) → IsDue bytes first → IsDue bytes second → first ≡ second }
    ensures listing { (bytes : List ℕ) (first second : Cause) → IsDueListing bytes first → IsDueListing bytes second → first ≡ second }
    ensures run { (words : ℕ → Option Instr) (ops : List ℕ → Option Fetched) (bytes : List ℕ) (steps : ℕ) (before : Bytes) (first second : Cause)
        → IsDueRun words ops bytes steps before first → IsDueRun words ops bytes steps before second → first ≡ second }
{
    one_program();
    one_fault();
}
