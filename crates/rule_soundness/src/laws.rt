//! The tables of rows and of ops are the machines'. Each law is the contract of a function that does nothing.

ghost use Rattle.rule_soundness.specs.Fields.{RowsReadFields, RowsPutFields, AccessesPutFields, BranchesPutFields, LoadsHaveWidths};
ghost use Rattle.rule_soundness.specs.Shapes.{OpsHaveShapes, OpsLeaveAtMost};

/// A row that may stand in a window reads the registers and the immediate that the table says, puts what the table says,
/// and loads as many bytes.
pub fn rows_have_fields()
    ensures reads { RowsReadFields }
    ensures puts { RowsPutFields }
    ensures accesses { AccessesPutFields }
    ensures branches { BranchesPutFields }
    ensures widths { LoadsHaveWidths }
{}

/// An op that may stand in a body takes its values from the sources that the table says and puts its results where it
/// says, and leaves undefined no more than it says.
pub fn ops_have_shapes()
    ensures shapes { OpsHaveShapes }
    ensures leaves { OpsLeaveAtMost }
{}
