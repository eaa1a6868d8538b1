// Why a line is not read as a frame.
ghost use Rattle.frame.specs.BadFrame.{refused, distinct};

use avr::{Refusal, Refused};
use thiserror::Error;

/// The line is no frame: 2 to 130 hexadecimal digits, even in number, with the flag 00 or 01 at their head.
#[derive(Debug, Clone, Copy, PartialEq, Eq, Error)]
#[error("bad frame")]
pub struct BadFrame;

impl Refusal for BadFrame {
    ghost refused = { refused };

    ghost distinct = { distinct };

    fn refused(&self) -> Refused {
        Refused {
            number: 6,
            value: None,
        }
    }
}
