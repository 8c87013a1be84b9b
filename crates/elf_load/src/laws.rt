//! What the definitions of programs and faults say of each other.
ghost use Rattle.std.specs.Prelude.{◌≡◌, ℕ, List};
ghost use Rattle.space.specs.declared.program.Kind.{Kind};
ghost use Rattle.space.specs.declared.program.Program.{Program};
ghost use Rattle.elf_load.specs.declared.refusal.ElfRefusal.{ElfRefusal};
ghost use Rattle.elf_load.specs.Faults.{IsProgramOf, IsFirstFault};
ghost use Rattle.elf_load.specs.Loaded.{LoadedIsApart, LoadedCodeIsClosed};

/// A file lays out one program for a machine, or none.
pub fn one_program()
    ensures { (kind : Kind) (bytes : List ℕ) (first second : Program)
        → IsProgramOf kind bytes first → IsProgramOf kind bytes second → first ≡ second }
{}

/// A file that lays out a program has no fault.
pub fn program_without_fault()
    ensures { (kind : Kind) (bytes : List ℕ) (program : Program) (rule : ElfRefusal) (offset : ℕ)
        → IsProgramOf kind bytes program → ¬ IsFirstFault kind bytes rule offset }
{}

/// A file has one first fault, or none.
pub fn one_fault()
    ensures { (kind : Kind) (bytes : List ℕ) (first second : ElfRefusal) (at other : ℕ)
        → IsFirstFault kind bytes first at → IsFirstFault kind bytes second other
        → (first ≡ second) × (at ≡ other) }
{}

/// No address lies in two segments of a program that a file lays out.
pub fn loaded_is_apart()
    ensures { LoadedIsApart }
{}

/// The code segment of a program that a file lays out may not be written.
pub fn loaded_code_is_closed()
    ensures { LoadedCodeIsClosed }
{}
