//! The laws. Each is the contract of a function that does nothing.

ghost use Rattle.row_laws.specs.Laws.{ChangesItsWritesAlone, DependsOnItsReadsAlone, KeepsAgreement};

/// A legal instruction leaves every location that it doesn't write as it was, whatever the answer to its
/// call.
pub fn changes_its_writes_alone()
    ensures { ChangesItsWritesAlone }
{}

/// What a legal instruction does, and what it leaves in the locations that it writes, depends on the
/// locations that it reads, on its address and on memory alone, whatever the answer to its call.
pub fn depends_on_its_reads_alone()
    ensures { DependsOnItsReadsAlone }
{}

/// From two states that are the same in what a legal instruction reads, it leaves two that agree in each
/// location in which they agreed before, whatever the answer to its call.
pub fn keeps_agreement()
    ensures { KeepsAgreement }
{}
