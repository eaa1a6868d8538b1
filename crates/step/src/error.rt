// Why a step is refused.
ghost use Rattle.step.specs.StepError.{refused, distinct};

use crate::State;
use avr::{Refusal, Refused};
use thiserror::Error;

/// Why a step is refused, in document 02's order.
#[derive(Debug, Clone, Copy, PartialEq, Eq, Error)]
pub enum StepError {
    /// Refusal 21.
    #[error("offset odd or outside the image")]
    Offset,
    /// Refusal 22.
    #[error("bytes that do not decode")]
    NotDecoded,
    /// Refusal 23.
    #[error("instruction not listed")]
    NotListed,
    /// Refusal 24.
    #[error("next offset outside the image")]
    NextOutside,
}

impl Refusal for StepError {
    ghost refused = { refused };

    ghost distinct = { distinct };

    fn refused(&self) -> Refused {
        let number = match self {
            StepError::Offset => 21,
            StepError::NotDecoded => 22,
            StepError::NotListed => 23,
            StepError::NextOutside => 24,
        };
        Refused {
            number,
            value: None,
        }
    }
}

/// A refused step: why, and the state that it gives back, which is the one that it began with.
#[derive(Debug, Clone, Copy, PartialEq, Eq, Error)]
#[error("{why}")]
pub struct Stopped {
    pub why: StepError,
    pub state: State,
}
