//! What an instruction puts beside its result: CR where it records, XER where it carries.

ghost use Rattle.std.specs.Prelude.{◌≡◌, false};
ghost use Rattle.machines.specs.Prelude.{immediate_carries, immediate_records, logic_immediate_records, carry_out, unary_carry, logic_carries};

use ppc_isa::{
    ArithmeticOp, ArithmeticUnaryOp, ImmediateOp, LogicImmediateOp, LogicOp, carry_out,
    immediate_carries, immediate_records, logic_carries, logic_immediate_records, unary_carry,
};

#[derive(Clone, Copy)]
pub(crate) struct Form {
    pub(crate) carries: bool,
    pub(crate) records: bool,
}

/// A result alone.
pub(crate) const PLAIN: Form = Form {
    carries: false,
    records: false,
};

pub(crate) fn immediate_form(op: ImmediateOp) -> Form
    ensures { result ≡ record { carries = immediate_carries op; records = immediate_records op } }
{
    Form {
        carries: immediate_carries(op),
        records: immediate_records(op),
    }
}

pub(crate) fn logic_immediate_form(op: LogicImmediateOp) -> Form
    ensures { result ≡ record { carries = false; records = logic_immediate_records op } }
{
    Form {
        carries: false,
        records: logic_immediate_records(op),
    }
}

pub(crate) fn arithmetic_form(op: ArithmeticOp, records: bool) -> Form
    ensures { result ≡ record { carries = carry_out op; records = records } }
{
    Form {
        carries: carry_out(op),
        records,
    }
}

pub(crate) fn arithmetic_unary_form(op: ArithmeticUnaryOp, records: bool) -> Form
    ensures { result ≡ record { carries = unary_carry op; records = records } }
{
    Form {
        carries: unary_carry(op),
        records,
    }
}

pub(crate) fn logic_form(op: LogicOp, records: bool) -> Form
    ensures { result ≡ record { carries = logic_carries op; records = records } }
{
    Form {
        carries: logic_carries(op),
        records,
    }
}
