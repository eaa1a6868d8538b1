// Why a routine is not measured.
ghost use Rattle.std.specs.Prelude.{◌≡◌};
ghost use Rattle.stack.specs.StackError.{refused, distinct};
ghost use Rattle.stack.specs.declared.error.StackError.TheVariants as stack_error;

use avr::{Refusal, Refused};
use thiserror::Error;

/// Why a routine is refused, in document 02's order: refusals 30 to 37.
#[derive(Debug, Clone, Copy, PartialEq, Eq, Error)]
pub enum Why {
    #[error("entry or call target odd or outside the image")]
    NoEntry,
    #[error("line that does not decode")]
    NotDecoded,
    #[error("jump, branch, skip or indirect call")]
    Leaves,
    #[error("out to $3D or $3E")]
    MovesStack,
    #[error("pop below the level at entry")]
    PopsBelow,
    #[error("return at another level than at entry")]
    ReturnsAbove,
    #[error("seventeenth call level")]
    TooDeep,
    #[error("image's end before a return")]
    NoReturn,
}

impl Why {
    // The refusal of a routine, with the offset that decided.
    pub(crate) fn at(self, at: usize) -> StackError
        ensures { result ≡ stack_error.Refused self at }
    {
        StackError::Refused { why: self, at }
    }
}

/// Why a routine is not measured.
#[derive(Debug, Clone, Copy, PartialEq, Eq, Error)]
pub enum StackError {
    /// Refusal 5: the image has more than 8,388,608 bytes.
    #[error("the image has more than 8,388,608 bytes")]
    TooLong,
    /// The routine is refused: why, and the offset of the line that decided, or of the entry.
    #[error("{at:06X}: {why}")]
    Refused { why: Why, at: usize },
}

impl Refusal for StackError {
    ghost refused = { refused };

    ghost distinct = { distinct };

    fn refused(&self) -> Refused {
        match self {
            StackError::TooLong => Refused {
                number: 5,
                value: None,
            },
            StackError::Refused { why, at } => Refused {
                number: match why {
                    Why::NoEntry => 30,
                    Why::NotDecoded => 31,
                    Why::Leaves => 32,
                    Why::MovesStack => 33,
                    Why::PopsBelow => 34,
                    Why::ReturnsAbove => 35,
                    Why::TooDeep => 36,
                    Why::NoReturn => 37,
                },
                value: Some(*at),
            },
        }
    }
}
