// Why a record is not encoded.
ghost use Rattle.encode.specs.NoSuchRecord.{refused, distinct};

use avr::{Refusal, Refused};
use thiserror::Error;

/// For the target no bytes decode to the record.
#[derive(Debug, Clone, Copy, PartialEq, Eq, Error)]
#[error("no bytes decode to the record")]
pub struct NoSuchRecord;

impl Refusal for NoSuchRecord {
    ghost refused = { refused };

    ghost distinct = { distinct };

    fn refused(&self) -> Refused {
        Refused {
            number: 4,
            value: None,
        }
    }
}
