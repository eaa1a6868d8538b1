// Why a walk does not begin.
ghost use Rattle.walk.specs.TooLong.{refused, distinct};

use avr::{Refusal, Refused};
use thiserror::Error;

/// The image has more than 8,388,608 bytes.
#[derive(Debug, Clone, Copy, PartialEq, Eq, Error)]
#[error("the image has more than 8,388,608 bytes")]
pub struct TooLong;

impl Refusal for TooLong {
    ghost refused = { refused };

    ghost distinct = { distinct };

    fn refused(&self) -> Refused {
        Refused {
            number: 5,
            value: None,
        }
    }
}
