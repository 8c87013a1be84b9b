//! What the lines of a body do. Each law is the contract of a function that does nothing.

ghost use Rattle.rule_lines.specs.Runs.{BodiesRun};

use rule_soundness::ops_have_shapes;

/// The ops of a body do on the host what its lines do over numbers, where each load is answered with what memory has.
pub fn bodies_run()
    ensures { BodiesRun }
{
    ops_have_shapes();
}
