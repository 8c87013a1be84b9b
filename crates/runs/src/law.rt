//! The laws of runs. Each is the contract of a function that does nothing, over every machine that its
//! bound's trait can describe. A caller picks the members of the traits at `Brand`.
ghost use Rattle.std.specs.Prelude.{ℕ, refl};
ghost use Rattle.std.proofs.Common.{inl};
ghost use Rattle.runs.specs.Machine.{Outcome, Goes, Anywhere};
ghost use Rattle.runs.specs.Laws.{StaysOver, KeepsCalls, IsNarrower, SameRun, AgreesInLarger};
ghost use Rattle.runs.specs.Simulation.{IsBounded, Advances, Agreement, AdvancesOrStands, exits_at_once, goes_for_ever, MeetAtZero};

use std::marker::Brand;

/// A machine, by its states and its step.
pub trait Machine {
    // What no step changes, as the code and the rights to memory.
    ghost Setting: { Type 0 };

    ghost State: { Type 0 };

    ghost step: { Setting → State → Outcome State };
}

/// A run that is over stays as it is.
pub fn stays_over<M: Machine>()
    ensures { (s : M.Setting) → StaysOver (M.step s) }
{}

/// A longer run makes the calls of a shorter one first.
pub fn keeps_calls<M: Machine>()
    ensures { (s : M.Setting) → KeepsCalls (M.step s) }
{}

/// A machine in a space, and in a larger one.
pub trait TwoSpaces {
    ghost Setting: { Type 0 };

    ghost State: { Type 0 };

    ghost narrow: { Setting → State → Outcome State };

    ghost wide: { Setting → State → Outcome State };

    ghost is_narrower: { (s : Setting) → IsNarrower (narrow s) (wide s) };
}

/// A run that never goes outside in the smaller space is the same run in the larger one.
pub fn same_run<T: TwoSpaces>()
    ensures { (s : T.Setting) → SameRun (T.narrow s) (T.wide s) }
{}

/// A host that agrees with the guest in the smaller space agrees with it in the larger one, and takes
/// no step that needs the larger one.
pub fn agrees_in_larger<M: Machine, T: TwoSpaces>()
    ensures { (r : M.Setting) (s : T.Setting) → AgreesInLarger (M.step r) (T.narrow s) (T.wide s) }
{}

/// Two machines and a relation between their states that every step keeps, within its share of both
/// bounds.
pub trait Simulation {
    // What no step of either machine changes, as the program and its translation.
    ghost Setting: { Type 0 };

    ghost Guest: { Type 0 };

    ghost Host: { Type 0 };

    ghost guest: { Setting → Guest → Outcome Guest };

    ghost host: { Setting → Host → Outcome Host };

    // What is asked of each state from which the host makes a step.
    ghost IsClean: { Setting → Host → Type 0 };

    // The relation, with the guest instructions since the block began and the host ops since the last of them.
    ghost Meets: { Setting → ℕ → ℕ → Guest → Host → Type 0 };

    ghost is_bounded: { (s : Setting) → IsBounded (guest s) (host s) (IsClean s) (Meets s) };

    ghost advances: { (s : Setting) → Advances (guest s) (host s) (IsClean s) (Meets s) };
}

/// From states that meet, the host agrees with the guest.
pub fn agreement<S: Simulation>()
    ensures { (s : S.Setting) → Agreement (S.guest s) (S.host s) (S.IsClean s) (S.Meets s) }
{}

/// Were a step allowed that stands still on both sides, the law would be false: a guest that exits and
/// a host that goes on for ever would meet.
pub fn standing_still_fails()
    ensures bounded { IsBounded exits_at_once goes_for_ever Anywhere MeetAtZero }
    ensures stands { AdvancesOrStands exits_at_once goes_for_ever Anywhere MeetAtZero }
    ensures differs { ¬ (Agreement exits_at_once goes_for_ever Anywhere MeetAtZero) }
{}

// What stands here is the least that the traits ask for; a caller picks its own.
impl Machine for Brand {
    ghost Setting = { Unit {0} };

    ghost State = { Unit {0} };

    ghost step = { λ _ s. Goes s };
}

impl TwoSpaces for Brand {
    ghost Setting = { Unit {0} };

    ghost State = { Unit {0} };

    ghost narrow = { λ _ s. Goes s };

    ghost wide = { λ _ s. Goes s };

    ghost is_narrower = { λ _ _. inl refl };
}

impl Simulation for Brand {
    ghost Setting = { Unit {0} };

    ghost Guest = { Unit {0} };

    ghost Host = { Unit {0} };

    ghost guest = { λ _ g. Goes g };

    ghost host = { λ _ h. Goes h };

    ghost IsClean = { λ _ _. ⊥ };

    ghost Meets = { λ _ _ _ _ _. ⊥ };

    ghost is_bounded = { λ _ _ _ _ _ meets. absurd meets };

    ghost advances = { λ _ _ _ _ _ meets. absurd meets };
}
