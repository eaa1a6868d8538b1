// Why an archived text is not read back.
ghost use Rattle.archive.specs.ListingError.{refused, distinct};

use avr::{Refusal, Refused};
use thiserror::Error;

/// Why an archived text is not read back.
#[derive(Debug, Clone, Copy, PartialEq, Eq, Error)]
pub enum ListingError {
    /// The text is no image's.
    #[error("not a listing of an image")]
    NoImage,
    /// The caller's image is too short: how many bytes are needed.
    #[error("no room for the image")]
    NoRoom(usize),
}

impl Refusal for ListingError {
    ghost refused = { refused };

    ghost distinct = { distinct };

    fn refused(&self) -> Refused {
        match self {
            ListingError::NoImage => Refused {
                number: 13,
                value: None,
            },
            ListingError::NoRoom(needed) => Refused {
                number: 14,
                value: Some(*needed),
            },
        }
    }
}
