//! Rules that may stand for words of the guest.
#![tactic(auto)]

mod audited;

pub use audited::Audited;
