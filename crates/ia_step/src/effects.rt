//! What an op makes of the values that it reads.

ghost use Rattle.std.specs.Prelude.{◌≡◌, ℕ};
ghost use Rattle.machines.specs.Prelude.{Program, host_row, IsInProfile, Core, host_values};
ghost use Rattle.ia_alu.specs.Values.{outcome_of};
ghost use Rattle.ia_step.specs.Shown.{IsCore};
ghost use Rattle.ia_step.specs.Values.{choice_of, flags_of, flags_in};

use crate::choices::Choice;
use crate::parts::{Flags, Parts};
use ia_alu::{HostEffect, HostIn, effect};
use ia_codec::Op;
use reg_map::EDX;
use word_kit::Plain;

/// The flags of an op's effect.
pub(crate) fn flags_of(made: &HostEffect<Plain>) -> Flags
    ensures { flags_of result ≡ flags_in made.now }
{
    Flags {
        cf: made.cf,
        zf: made.zf,
        sf: made.sf,
        of: made.of,
    }
}

impl Parts {
    /// What an op makes of the values of its operands.
    pub(crate) fn effect(&self, op: Op, choice: Choice, x: u32, y: u32) -> HostEffect<Plain>
        requires { IsInProfile op }
        ensures { (p : Program) (core : Core) → IsCore p self.now core
            → outcome_of (λ w. w) (λ b. b) result ≡ host_row op (host_values (choice_of choice) core x y) }
    {
        let free = choice.flags();
        let from = HostIn {
            x,
            y,
            high: self.reg(EDX),
            cf: self.flags.cf,
            zf: self.flags.zf,
            sf: self.flags.sf,
            of: self.flags.of,
            free: choice.word(),
            free_cf: free.cf,
            free_zf: free.zf,
            free_sf: free.sf,
            free_of: free.of,
        };
        match effect(&mut Plain, &op, &from) {
            Ok(made) => made,
            Err(_) => unreachable!(),
        }
    }
}
