// Why an image is not listed.
ghost use Rattle.listing.specs.ListError.{refused, distinct};

use avr::{Refusal, Refused};
use thiserror::Error;

/// Why an image is not listed.
#[derive(Debug, Clone, Copy, PartialEq, Eq, Error)]
pub enum ListError {
    /// The image has more than 8,388,608 bytes.
    #[error("the image has more than 8,388,608 bytes")]
    TooLong,
    /// The buffer is too short: how many bytes are needed.
    #[error("the buffer needs {0} bytes")]
    NoRoom(usize),
}

impl Refusal for ListError {
    ghost refused = { refused };

    ghost distinct = { distinct };

    fn refused(&self) -> Refused {
        match self {
            ListError::TooLong => Refused {
                number: 5,
                value: None,
            },
            ListError::NoRoom(needed) => Refused {
                number: 3,
                value: Some(*needed),
            },
        }
    }
}
