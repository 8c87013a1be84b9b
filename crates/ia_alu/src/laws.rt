//! Laws of the rows. Each is the contract of a function that does nothing.

ghost use Rattle.ia_alu.specs.Undefined.{DefinedIsNotChosen, UndefinedFlagIsChosen, UndefinedResultIsChosen};

/// A row reads the value handed in for a flag or a result exactly where the op leaves it undefined, and then gives it
/// as it is.
pub fn undefined_alone_is_chosen()
    ensures defined { DefinedIsNotChosen }
    ensures flags { UndefinedFlagIsChosen }
    ensures results { UndefinedResultIsChosen }
{}
