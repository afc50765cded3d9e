//! Why a text is refused.

ghost use Rattle.std.specs.Prelude.{◌≡◌};
ghost use Rattle.expr_reader.specs.declared.fault.ExprFault.TheVariants.{NoMemory};

use std::alloc::{AllocError, AllocFailed};
use thiserror::Error;

/// Why a text is refused. Places are offsets in the text, in bytes.
#[derive(Clone, Copy, Debug, PartialEq, Eq, Drop, Error)]
pub enum ExprFault {
    /// The first token or byte that can't stand where it stands, or the text's length where it ends too early.
    #[error("syntax at {at}")]
    Syntax { at: u64 },
    /// A number above 2^64 - 1 begins there.
    #[error("number too large at {at}")]
    NumberTooLarge { at: u64 },
    /// The ninth layer on one path begins there.
    #[error("too deep at {at}")]
    TooDeep { at: u64 },
    /// The number there breaks its rule.
    #[error("bad parameter at {at}")]
    BadParameter { at: u64 },
    /// The parent there has less alignment than the layer above it needs.
    #[error("needs alignment at {at}")]
    NeedsAlignment { at: u64 },
    /// The process has no memory left.
    #[error("out of memory")]
    NoMemory,
}

impl From<AllocError> for ExprFault {
    ghost from_gives = { λ _ e. e ≡ NoMemory };

    fn from(_error: AllocError) -> ExprFault {
        ExprFault::NoMemory
    }
}

impl<T: Drop> From<AllocFailed<T>> for ExprFault {
    ghost from_gives = { λ _ e. e ≡ NoMemory };

    fn from(_error: AllocFailed<T>) -> ExprFault {
        ExprFault::NoMemory
    }
}
