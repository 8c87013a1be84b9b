//! From runs over numbers to the soundness of a rule. The law is the contract of a function that does nothing.

ghost use Rattle.rule_meaning.specs.Sound.{RunsMakeSound};

use ppc_isa::one_instruction;
use rule_renaming::one_instance_is_enough;
use rule_soundness::rows_have_fields;

/// Where rows do what a rule's window does, and lines what its body does, a rule whose lines end as its rows do, for all inputs
/// and choices, is sound.
pub fn runs_make_sound()
    ensures { RunsMakeSound }
{
    one_instruction();
    rows_have_fields();
    one_instance_is_enough();
}
