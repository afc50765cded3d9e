//! Lines read as calls, and the text of calls, answers and faults.
#![tactic(auto)]

ghost use Rattle.trace_text.specs.Laws.{PrintedIsRead, ReadIsSpelled, ReadIsSayable, SilentIsPassed, LongIsRefused};

mod fields;
mod print;
mod read;
mod values;

use heap_core::CallFault;
pub use print::{answer_line, fault_line, print_call};
pub use read::read_line;
use thiserror::Error;

/// Why a line is no call.
#[derive(Clone, Copy, Debug, PartialEq, Eq, Error)]
pub enum LineFault {
    /// It has more than 256 bytes.
    #[error("too long")]
    TooLong,
    /// The field at this column is not what stands there, or the line ends where one is missing. The first is 1.
    #[error("bad line at column {column}")]
    BadLine { column: u32 },
    /// The number at this column is larger than may be.
    #[error("number too large at column {column}")]
    NumberTooLarge { column: u32 },
}

/// Why a trace ends before its last line.
#[derive(Clone, Copy, Debug, PartialEq, Eq, Error)]
pub enum TraceFault {
    /// The line is no call.
    #[error(transparent)]
    Line { fault: LineFault },
    /// The call may not be made.
    #[error(transparent)]
    Call { fault: CallFault },
    /// The trace has more bytes than are read.
    #[error("too much input")]
    TooMuchInput,
}

/// A law and no code: what `print_call` writes of a call whose numbers are in range is read as that call.
pub fn printed_is_read()
    ensures { PrintedIsRead }
{}

/// A law and no code: a line is read as a call exactly where its fields spell the parts of the call, each in turn.
pub fn read_is_spelled()
    ensures { ReadIsSpelled }
{}

/// A law and no code: the numbers of a call that is read are in range.
pub fn read_is_sayable()
    ensures { ReadIsSayable }
{}

/// A law and no code: a line is no call exactly where it has no field or the first begins with `#`.
pub fn silent_is_passed()
    ensures { SilentIsPassed }
{}

/// A law and no code: a line is too long exactly with more than 256 bytes.
pub fn long_is_refused()
    ensures { LongIsRefused }
{}
