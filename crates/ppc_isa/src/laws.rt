//! What holds of the legal words as a whole.

ghost use Rattle.std.specs.Prelude.{ℕ, ◌≡◌, Option};
ghost use Rattle.ppc_isa.specs.Legal.{HasOneInstruction, ReadsWords};
ghost use Rattle.ppc_isa.specs.declared.instr.Instr.{Instr};
ghost use Rattle.ppc_isa.specs.Examples.{SumsCompute, LogicCompute, ShiftsCompute, RotatesCompute, ProductsCompute, ComparesCompute, FieldsCompute, AccessesCompute, BranchesCompute, TrapsCompute};

/// No word is that of two instructions.
pub fn one_instruction()
    ensures { (w : ℕ) → HasOneInstruction w }
{}

/// There is a reading of words, and any two agree. So a definition may speak of any reading.
pub fn one_reading()
    ensures exists { (read : ℕ → Option Instr) × ReadsWords read }
    ensures agree { (f g : ℕ → Option Instr) → ReadsWords f → ReadsWords g → (w : ℕ) → f w ≡ g w }
{}

/// The rows of the definition compute these examples, which are worked out or measured elsewhere.
pub fn row_examples()
    ensures sums { SumsCompute }
    ensures logic { LogicCompute }
    ensures shifts { ShiftsCompute }
    ensures rotates { RotatesCompute }
    ensures products { ProductsCompute }
    ensures compares { ComparesCompute }
    ensures fields { FieldsCompute }
    ensures accesses { AccessesCompute }
    ensures branches { BranchesCompute }
    ensures traps { TrapsCompute }
{}
