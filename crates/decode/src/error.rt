// Why bytes are not decoded.
ghost use Rattle.decode.specs.DecodeError.{refused, distinct};

use avr::{Refusal, Refused};
use thiserror::Error;

/// Why bytes are not decoded.
#[derive(Debug, Clone, Copy, PartialEq, Eq, Error)]
pub enum DecodeError {
    /// No row of the target fits the word.
    #[error("no instruction begins with ${0:04X}")]
    InvalidOpcode(u16),
    /// Bytes are missing: how many are needed.
    #[error("the instruction needs {0} bytes")]
    Short(u8),
}

impl Refusal for DecodeError {
    ghost refused = { refused };

    ghost distinct = { distinct };

    fn refused(&self) -> Refused {
        match self {
            DecodeError::InvalidOpcode(word) => Refused {
                number: 1,
                value: Some(*word as usize),
            },
            DecodeError::Short(needed) => Refused {
                number: 2,
                value: Some(*needed as usize),
            },
        }
    }
}
