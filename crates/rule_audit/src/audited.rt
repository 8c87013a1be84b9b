//! Lists of rules that passed the audit.

ghost use Rattle.std.specs.Prelude.{◌≡◌, []};

use rule_body::Rule;
use std::alloc::Global;

/// Rules, each of which has passed the audit. The empty list is the only one that can be made so far.
#[derive(Drop)]
pub struct Audited {
    rules: Vec<Rule>,
}

impl Audited {
    /// No rules.
    pub fn none(alloc: Global) -> Audited
        ensures { result.rules.items ≡ [] }
    {
        Audited {
            rules: Vec::new(alloc),
        }
    }

    /// The rules, in their order.
    pub fn rules(&self) -> &[Rule]
        ensures { result.now ≡ self.now.rules.items }
    {
        self.rules.as_slice()
    }
}
