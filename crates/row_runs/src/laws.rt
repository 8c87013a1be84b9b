//! What runs load. Each law is the contract of a function that does nothing.

ghost use Rattle.row_runs.specs.Oracles.{RowsArePrompt, WindowsLoadAlike, SameAccessesLoadAlike};

/// The kind, the width and the address of a row's access don't depend on the number that it loads, and a row without a load
/// doesn't depend on it at all.
pub fn rows_are_prompt()
    ensures { RowsArePrompt }
{}

/// A window whose loads all find the same bytes does what it does where every load is answered with them.
pub fn windows_load_alike()
    ensures { WindowsLoadAlike }
{}

/// A window and a body that have the same accesses when every load is answered with given bytes do the same over each memory in
/// which the window's loads find those bytes.
pub fn same_accesses_load_alike()
    ensures { SameAccessesLoadAlike }
{}
