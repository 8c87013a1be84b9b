//! What the rows of PowerPC instructions share over an algebra of words: the values that a row reads and gives, fields of
//! CR, recording forms, and effects that change little.
#![tactic(auto)]

mod given;
mod operands;
mod recording;

pub use given::{Access, Effect, GuestIn};
pub use operands::{base, extended_byte, extended_half};
pub use recording::{compare, gives_a, gives_d, put_field, unchanged};
