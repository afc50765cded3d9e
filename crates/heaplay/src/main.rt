//! Tells what stands in an expression, or replays a trace from standard input on a heap of its layers, as the words of
//! the command line say. All output goes to standard output.
#![tactic(auto)]

use play_core::{Status, run};
use source_sink::{StdSink, StdSource};
use space_core::Space;
use std::process::ExitCode;
use std::rt::Env;
use std::{env, io};

// The exit code where the runtime refuses the words, which is no status of `run`.
const WORDS_REFUSED: u8 = 11;

// The words behind the program's name.
fn words<R: Env + AllocGlobal>(rt: &R) -> io::Result<Vec<String>> {
    Ok(env::args(rt)?.skip(1).collect(rt.alloc())?)
}

fn main(rt: HostRuntime) -> ExitCode {
    let Ok(words) = words(&rt) else {
        return ExitCode::from(WORDS_REFUSED);
    };
    let mut source = StdSource::new(rt.stdin());
    let Ok(mut sink) = StdSink::new(rt.alloc(), rt.stdout()) else {
        return ExitCode::from(Status::NoMemory.code());
    };
    let mut space = Space::closed();
    let status = run(
        rt.alloc(),
        words.as_slice(),
        &mut source,
        &mut sink,
        &mut space,
    );
    ExitCode::from(status.code())
}
