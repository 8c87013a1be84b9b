//! The profile of IA-32 that translations use: ops and their one spelling, price and name.
#![tactic(auto)]

mod bytes;
mod condition;
mod decoding;
mod encoding;
mod examples;
mod names;
mod op;
mod pricing;
mod profile;
mod reading;

pub use bytes::Bytes12;
pub use decoding::{decode, one_reading, one_spelling};
pub use encoding::encode;
pub use examples::{divisions_by_hand, other_rows_by_hand, products_by_hand, shifts_by_hand};
pub use names::mnemonic;
pub use op::{AluOp, Condition, ExtendOp, Op, Operand, ShiftOp, UnaryOp};
pub use pricing::cost;
pub use profile::in_profile;
