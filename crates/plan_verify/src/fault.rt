//! Why plans are refused.

use std::alloc::AllocError;
use thiserror::Error;
use word_kit::NoMemory;

/// Why plans are refused.
#[derive(Debug, Drop, Error)]
pub enum PlanFault {
    /// The first block whose plan fails, counted from 0, and the place in it where that fails first.
    #[error("plan of block {0} is bad at place {1}")]
    Bad(u32, u32),
    /// There was no memory for the problems.
    #[error("out of memory")]
    Memory(NoMemory),
}

impl From<AllocError> for PlanFault {
    ghost use Rattle.plan_verify.specs.Failures.{IsMemory};

    ghost from_gives = { λ _ e. IsMemory e };

    fn from(_error: AllocError) -> PlanFault {
        PlanFault::Memory(NoMemory)
    }
}

impl From<NoMemory> for PlanFault {
    ghost use Rattle.plan_verify.specs.Failures.{IsMemory};

    ghost from_gives = { λ _ e. IsMemory e };

    fn from(error: NoMemory) -> PlanFault {
        PlanFault::Memory(error)
    }
}
