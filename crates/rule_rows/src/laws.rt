//! What the rows of a window do. The law is the contract of a function that does nothing.

ghost use Rattle.rule_rows.specs.Laws.{WindowsRun};

use ppc_isa::one_instruction;

/// The rows of a window, over places that show a guest, lead to places that show where the window's words lead it, with the
/// accesses that the words make.
pub fn windows_run()
    ensures { WindowsRun }
{
    one_instruction();
}
