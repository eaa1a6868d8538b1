// Why the text of a record is not written.
ghost use Rattle.std.specs.Prelude.{◌≡◌};
ghost use Rattle.text.specs.WriteError.{refused, distinct};
ghost use Rattle.text.specs.declared.error.WriteError.TheVariants as write_error;

use avr::{Refusal, Refused};
use encode::error::NoSuchRecord;
use put::error::NoRoom;
use thiserror::Error;

/// Why the text of a record is not written.
#[derive(Debug, Clone, Copy, PartialEq, Eq, Error)]
pub enum WriteError {
    /// For the target no bytes decode to the record.
    #[error("no bytes decode to the record")]
    NoSuchRecord,
    /// The buffer is too short: how many bytes are needed.
    #[error("the buffer needs {0} bytes")]
    NoRoom(usize),
}

impl From<NoSuchRecord> for WriteError {
    ghost from_gives = { λ _ e. e ≡ write_error.NoSuchRecord };

    fn from(_e: NoSuchRecord) -> WriteError {
        WriteError::NoSuchRecord
    }
}

impl From<NoRoom> for WriteError {
    ghost from_gives = { λ d e. e ≡ write_error.NoRoom d.needed };

    fn from(e: NoRoom) -> WriteError {
        WriteError::NoRoom(e.needed)
    }
}

impl Refusal for WriteError {
    ghost refused = { refused };

    ghost distinct = { distinct };

    fn refused(&self) -> Refused {
        match self {
            WriteError::NoSuchRecord => Refused {
                number: 4,
                value: None,
            },
            WriteError::NoRoom(needed) => Refused {
                number: 3,
                value: Some(*needed),
            },
        }
    }
}
