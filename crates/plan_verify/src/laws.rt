//! What the definition of failures says.

ghost use Rattle.plan_verify.specs.Failures.{CertifiedPlansDoNotFail};

/// No plan that its labels certify fails: what is refused isn't certified.
pub fn certified_plans_do_not_fail()
    ensures { CertifiedPlansDoNotFail }
{}
