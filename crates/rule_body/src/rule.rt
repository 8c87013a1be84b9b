//! Rules.

use crate::body::Body;
use crate::goal::Goal;
use word_kit::Refutation;

/// A goal, a body that may stand for it, and the clauses by which that is shown.
#[derive(Drop)]
pub struct Rule {
    pub goal: Goal,
    pub body: Body,
    pub log: Refutation,
}
