//! Replays a trace of calls from a source on a heap over one Space, and writes each answer and a report to a sink.
#![tactic(auto)]

ghost use Rattle.std.specs.Prelude.{◌≡◌};
ghost use Rattle.play_core.specs.Codes.{code_of};

mod expression;
mod feeding;
pub mod laws;
mod playing;
mod putting;
mod reader;
mod replaying;
mod report;
mod top;
mod words;

pub use top::run;

/// How a run ended.
#[derive(Clone, Copy, Debug, PartialEq, Eq)]
pub enum Status {
    /// The trace was read to its end, and the answers and the report were written. Or what stands in the expression was.
    Good,
    /// The words are no command. The usage was written, and nothing was read.
    Usage,
    /// The expression is in fault. What is wrong and where was written, and nothing was read.
    Expression,
    /// A line was in fault. The answers to the lines before it and its fault were written.
    Trace,
    /// The source failed. The answers to the lines before that were written.
    ReadFault,
    /// The sink failed within the text, or to hand on what was put. Nothing was put after that.
    WriteFault,
    /// The root could not be opened. The node was written, and nothing was read.
    OpeningRefused,
    /// The process has no memory for the expression, the Space or the heap. Nothing was read or written.
    NoMemory,
}

impl Status {
    /// The exit code of a process that ends so.
    pub fn code(&self) -> u8
        ensures { result ≡ code_of self.now }
    {
        match self {
            Status::Good => 0,
            Status::Usage => 2,
            Status::Expression => 3,
            Status::Trace => 4,
            Status::ReadFault => 5,
            Status::WriteFault => 6,
            Status::OpeningRefused => 7,
            Status::NoMemory => 8,
        }
    }
}

// How a part of a run ended.
#[derive(Clone, Copy, Debug, PartialEq, Eq)]
pub(crate) enum Step {
    Goes,
    Stops,
    SinkFailed,
}
