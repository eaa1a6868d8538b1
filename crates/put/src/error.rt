// Why a text is not written into the caller's buffer.
ghost use Rattle.put.specs.NoRoom.{refused, distinct};

use avr::{Refusal, Refused};
use thiserror::Error;

/// The buffer is too short.
#[derive(Debug, Clone, Copy, PartialEq, Eq, Error)]
#[error("the buffer needs {needed} bytes")]
pub struct NoRoom {
    /// how many bytes are needed
    pub needed: usize,
}

impl Refusal for NoRoom {
    ghost refused = { refused };

    ghost distinct = { distinct };

    fn refused(&self) -> Refused {
        Refused {
            number: 3,
            value: Some(self.needed),
        }
    }
}
