//! Rows of PowerPC.

ghost use Rattle.worked_rows.specs.GuestRows.{ProductsShown, DivisionsShown, ComparesShown, ShiftsShown, LoadsShown, StoresShown};

/// The high word of a product of negative numbers, as signed and as they stand.
pub fn products()
    ensures { ProductsShown }
{}

/// Quotients toward 0, and the corners: by 0, and the least number by -1.
pub fn divisions()
    ensures { DivisionsShown }
{}

/// -1 is less than 1 as a signed number, and greater as it stands.
pub fn compares()
    ensures { ComparesShown }
{}

/// A negative number is shifted with its sign, and CA says whether a one left it. A word of zeros has 32.
pub fn shifts()
    ensures { ShiftsShown }
{}

/// One access of each kind: its width, its address, and what it gives or stores.
pub fn accesses()
    ensures loads { LoadsShown }
    ensures stores { StoresShown }
{}
