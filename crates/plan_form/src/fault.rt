//! Why a text is no plan text.

use std::alloc::AllocError;
use thiserror::Error;
use word_kit::NoMemory;

/// Why a text is no plan text.
#[derive(Debug, Drop, Error)]
pub enum TextFault {
    /// The first line, counted from 1, with which no text begins; where the text ends early, the line after the last.
    #[error("line {0} is bad")]
    BadLine(u32),
    /// There was no memory for the plans, or the text has 2^32 - 1 bytes or more.
    #[error("out of memory")]
    Memory(NoMemory),
}

impl From<AllocError> for TextFault {
    ghost use Rattle.plan_form.specs.TextFaults.{IsMemory};

    ghost from_gives = { λ _ e. IsMemory e };

    fn from(_error: AllocError) -> TextFault {
        TextFault::Memory(NoMemory)
    }
}
