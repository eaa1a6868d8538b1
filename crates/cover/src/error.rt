// Why a map is not visited, counted, joined, written or read.
ghost use Rattle.cover.specs.NotAMap as not_a_map;
ghost use Rattle.cover.specs.VisitError as visit_error;
ghost use Rattle.cover.specs.MapWriteError as map_write_error;
ghost use Rattle.cover.specs.RangesError as ranges_error;

use avr::{Refusal, Refused};
use thiserror::Error;

// The refusal that all errors below share.
const NOT_A_MAP: Refused = Refused {
    number: 40,
    value: None,
};

/// The map has not 8,192 bytes.
#[derive(Debug, Clone, Copy, PartialEq, Eq, Error)]
#[error("not a map of 8,192 bytes")]
pub struct NotAMap;

impl Refusal for NotAMap {
    ghost refused = { not_a_map.refused };

    ghost distinct = { not_a_map.distinct };

    fn refused(&self) -> Refused {
        NOT_A_MAP
    }
}

/// Why a line is dropped.
#[derive(Debug, Clone, Copy, PartialEq, Eq, Error)]
pub enum VisitError {
    /// The map has not 8,192 bytes.
    #[error("not a map of 8,192 bytes")]
    NotAMap,
    /// The line is not six upper-case hexadecimal digits.
    #[error("bad frame")]
    Malformed,
    /// The offset is odd, so that no word begins there.
    #[error("odd offset")]
    Odd,
    /// The offset is past the last word of a map.
    #[error("offset past 131,071")]
    Past,
}

impl Refusal for VisitError {
    ghost refused = { visit_error.refused };

    ghost distinct = { visit_error.distinct };

    fn refused(&self) -> Refused {
        match self {
            VisitError::NotAMap => NOT_A_MAP,
            VisitError::Malformed => Refused {
                number: 6,
                value: None,
            },
            VisitError::Odd => Refused {
                number: 41,
                value: None,
            },
            VisitError::Past => Refused {
                number: 42,
                value: None,
            },
        }
    }
}

/// Why the ranges or the picture of a map are not written.
#[derive(Debug, Clone, Copy, PartialEq, Eq, Error)]
pub enum MapWriteError {
    /// The map has not 8,192 bytes.
    #[error("not a map of 8,192 bytes")]
    NotAMap,
    /// The buffer is too short: how many bytes are needed.
    #[error("the buffer needs {0} bytes")]
    NoRoom(usize),
}

impl Refusal for MapWriteError {
    ghost refused = { map_write_error.refused };

    ghost distinct = { map_write_error.distinct };

    fn refused(&self) -> Refused {
        match self {
            MapWriteError::NotAMap => NOT_A_MAP,
            MapWriteError::NoRoom(needed) => Refused {
                number: 3,
                value: Some(*needed),
            },
        }
    }
}

/// Why ranges are not read.
#[derive(Debug, Clone, Copy, PartialEq, Eq, Error)]
pub enum RangesError {
    /// The map has not 8,192 bytes.
    #[error("not a map of 8,192 bytes")]
    NotAMap,
    /// The ranges do not rise, or two of them touch, or one is cut short.
    #[error("bad list")]
    BadList,
}

impl Refusal for RangesError {
    ghost refused = { ranges_error.refused };

    ghost distinct = { ranges_error.distinct };

    fn refused(&self) -> Refused {
        match self {
            RangesError::NotAMap => NOT_A_MAP,
            RangesError::BadList => Refused {
                number: 43,
                value: None,
            },
        }
    }
}
