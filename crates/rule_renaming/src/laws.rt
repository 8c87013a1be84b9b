//! What one instance of a rule says of all. Each law is the contract of a function that does nothing.

ghost use Rattle.rule_renaming.specs.Plain.{OneInstanceIsEnough};
ghost use Rattle.rule_renaming.specs.Examples.{AdditionIsSound};

use ppc_isa::one_instruction;

/// A rule of the grammar that is sound with parameter k as GPR k, under the one map that holds its parameters in slots
/// and nothing else, is sound under every binding and every map.
pub fn one_instance_is_enough()
    ensures { OneInstanceIsEnough }
{
    one_instruction();
}

/// A worked rule: `add p1,p2,p3` in three slots is `lea ebx,[esi+edi]`. It is one of the grammar, and sound.
pub fn addition_is_sound()
    ensures { AdditionIsSound }
{
    one_instruction();
    one_instance_is_enough();
}
