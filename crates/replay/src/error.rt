// What stops a replay.
ghost use Rattle.replay.specs.ReplayError.{refused, distinct};

use avr::{Refusal, Refused};
use step::error::StepError;
use thiserror::Error;

/// What stops a replay. Lines and frames are counted from 1.
#[derive(Debug, Clone, Copy, PartialEq, Eq, Error)]
pub enum ReplayError {
    /// Refusal 6: the line with this number is no frame.
    #[error("line {0}: bad frame")]
    BadFrame(usize),
    /// Refusal 20: the frame with this number is not what the frame before it steps to.
    #[error("frame {0} differs")]
    Differs(usize),
    /// Refusals 21 to 24: the step from the frame with this number is refused.
    #[error("frame {frame}: {why}")]
    Stopped { why: StepError, frame: usize },
}

impl Refusal for ReplayError {
    ghost refused = { refused };

    ghost distinct = { distinct };

    fn refused(&self) -> Refused {
        match self {
            ReplayError::BadFrame(line) => Refused {
                number: 6,
                value: Some(*line),
            },
            ReplayError::Differs(frame) => Refused {
                number: 20,
                value: Some(*frame),
            },
            ReplayError::Stopped { why, frame } => Refused {
                number: why.refused().number,
                value: Some(*frame),
            },
        }
    }
}
