//! What the definitions of labels and of texts say.

ghost use Rattle.std.specs.Prelude.{◌≡◌, ℕ, ◌≤◌, List};
ghost use Rattle.line_text.specs.FirstBad.{IsFirstBad};
ghost use Rattle.plan_form.specs.declared.problem.Problem.{Problem};
ghost use Rattle.plan_form.specs.declared.problem.Step.{Step};
ghost use Rattle.plan_form.specs.Full.{IsFull};
ghost use Rattle.plan_form.specs.Plans.{IsValidPlan};
ghost use Rattle.plan_form.specs.Labels.{Certifies};
ghost use Rattle.plan_form.specs.Texts.{BlockText, AreWritten, IsPlanText, text_of};

/// Labels that certify a cost bound every valid plan: none costs less.
pub fn certified_cost_is_least()
    ensures { (q : Problem) (values : List (List ℕ)) (cost : ℕ) → IsFull q → Certifies q values cost
        → (steps : List Step) (other : ℕ) → IsValidPlan q steps other → cost ≤ other }
{}

/// No text is of two lists of plans.
pub fn one_list()
    ensures { (p q : List BlockText) → AreWritten p → AreWritten q → text_of p ≡ text_of q → p ≡ q }
{}

/// A text of plans has no bad line, and a text has one first bad line at most.
pub fn one_line()
    ensures good { (text : List ℕ) (plans : List BlockText) (n : ℕ) → AreWritten plans → text ≡ text_of plans → IsFirstBad IsPlanText text n → ⊥ }
    ensures once { (text : List ℕ) (m n : ℕ) → IsFirstBad IsPlanText text m → IsFirstBad IsPlanText text n → m ≡ n }
{}
