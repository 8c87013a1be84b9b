//! Rows of ops, worked out by hand. Each is the contract of a function that does nothing.

ghost use Rattle.ia_codec.specs.RowExamples.{ShiftsShown, ProductsShown, DivisionsShown, OthersShown};

/// A count of 32 is none, flags are kept then, and OF is free for a count above 1.
pub fn shifts_by_hand()
    ensures { ShiftsShown }
{}

/// Carries of products, at both halves.
pub fn products_by_hand()
    ensures { ProductsShown }
{}

/// Quotients toward 0, and what faults.
pub fn divisions_by_hand()
    ensures { DivisionsShown }
{}

/// The bit scan, the bytes turned round, and 0 less a number.
pub fn other_rows_by_hand()
    ensures { OthersShown }
{}
