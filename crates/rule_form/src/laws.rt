//! What the definition of rule texts says.

ghost use Rattle.std.specs.Prelude.{◌≡◌, ℕ, List};
ghost use Rattle.line_text.specs.FirstBad.{IsFirstBad};
ghost use Rattle.rule_body.specs.declared.rule.Rule.{Rule};
ghost use Rattle.rule_body.specs.Prelude.{IsRule};
ghost use Rattle.rule_form.specs.Texts.{RuleText, AreWritten, IsRuleText, text_of, written, HasRoom};

/// No text is of two lists of rules.
pub fn one_list()
    ensures { (p q : List RuleText) → AreWritten p → AreWritten q → text_of p ≡ text_of q → p ≡ q }
{}

/// A text of rules has no bad line, and a text has one first bad line at most.
pub fn one_line()
    ensures good { (text : List ℕ) (rules : List RuleText) (n : ℕ) → AreWritten rules → text ≡ text_of rules → IsFirstBad IsRuleText text n → ⊥ }
    ensures once { (text : List ℕ) (m n : ℕ) → IsFirstBad IsRuleText text m → IsFirstBad IsRuleText text n → m ≡ n }
{}

/// No two rules are written by the same lists.
pub fn one_rule()
    ensures { (r s : Rule) → IsRule r → IsRule s → HasRoom r → HasRoom s → written r ≡ written s → r ≡ s }
{}
