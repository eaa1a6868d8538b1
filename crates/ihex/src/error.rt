// Why a text of Intel HEX is not read, and why an image is not written as one.
ghost use Rattle.ihex.specs.HexError as hex_error;
ghost use Rattle.ihex.specs.HexWriteError as hex_write_error;

use avr::{Refusal, Refused};
use thiserror::Error;

/// What is wrong with a line.
#[derive(Debug, Clone, Copy, PartialEq, Eq, Error)]
pub enum Fault {
    /// It is no colon and upper-case digits for as many bytes as it says, or a data line without bytes, or another end line.
    #[error("bad form")]
    Form,
    /// Its bytes do not add up to 0.
    #[error("bad sum")]
    Sum,
    /// Its type is neither 00 nor 01.
    #[error("another type")]
    Type,
    /// Its bytes do not stand behind those of the line before.
    #[error("begins before the end of the last data line")]
    Order,
    /// Its bytes do not fit the image.
    #[error("beyond 65536 bytes")]
    Room,
}

/// Why a text is not read.
#[derive(Debug, Clone, Copy, PartialEq, Eq, Error)]
pub enum HexError {
    /// The first line with a fault, by its number from 1.
    #[error("line {line}: {fault}")]
    Line { fault: Fault, line: usize },
    /// There is no end line.
    #[error("no end line")]
    NoEnd,
}

impl Refusal for HexError {
    ghost refused = { hex_error.refused };

    ghost distinct = { hex_error.distinct };

    fn refused(&self) -> Refused {
        match self {
            HexError::Line { fault, line } => Refused {
                number: match fault {
                    Fault::Form => 7,
                    Fault::Sum => 8,
                    Fault::Type => 9,
                    Fault::Order => 10,
                    Fault::Room => 11,
                },
                value: Some(*line),
            },
            HexError::NoEnd => Refused {
                number: 12,
                value: None,
            },
        }
    }
}

/// Why an image is not written.
#[derive(Debug, Clone, Copy, PartialEq, Eq, Error)]
pub enum HexWriteError {
    /// The image has more than 65,536 bytes.
    #[error("image too long")]
    TooLong,
    /// The buffer is too short: how many bytes are needed.
    #[error("no room")]
    NoRoom(usize),
}

impl Refusal for HexWriteError {
    ghost refused = { hex_write_error.refused };

    ghost distinct = { hex_write_error.distinct };

    fn refused(&self) -> Refused {
        match self {
            HexWriteError::TooLong => Refused {
                number: 5,
                value: None,
            },
            HexWriteError::NoRoom(needed) => Refused {
                number: 3,
                value: Some(*needed),
            },
        }
    }
}
