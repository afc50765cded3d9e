// What no clause says: that the calls succeed, and how they fare over a reader and a writer that fail in mid-stream.
ghost use Rattle.std.specs.Prelude.{◌≡◌, ◌<◌, false, length};

use crate::{
    Failed, MemorySink, MemorySource, Sink, Source, StdSink, StdSource, StillSink, StillSource,
};
use space_core::Space;
use std::io;
use std::io::{ErrorKind, Read, Write};
use std::process::Abort;
use std::test::Fail;

// Gives `abc`, fails once, gives `abc` again, and then nothing more.
#[derive(Drop)]
struct TornReader {
    calls: u32,
}

impl Read for TornReader {
    fn read(&mut self, into: &mut [u8]) -> io::Result<usize> {
        let call = self.calls;
        self.calls = call.saturating_add(1);
        match call {
            0 | 2 => {
                let count = into.len().min(3);
                into[..count].copy_from_slice(&b"abc"[..count]);
                Ok(count)
            }
            1 => Err(io::Error::from(ErrorKind::TimedOut)),
            _ => Ok(0),
        }
    }
}

// Takes two bytes, fails once, takes none once, and then takes all.
#[derive(Drop)]
struct TornWriter {
    calls: u32,
    taken: Vec<u8>,
}

impl Write for TornWriter {
    fn write(&mut self, piece: &[u8]) -> io::Result<usize> {
        let call = self.calls;
        self.calls = call.saturating_add(1);
        let count = match call {
            0 => piece.len().min(2),
            1 => return Err(io::Error::from(ErrorKind::TimedOut)),
            2 => 0,
            _ => piece.len(),
        };
        self.taken.extend_from_slice(&piece[..count])?;
        Ok(count)
    }

    fn flush(&mut self) -> io::Result<()> {
        Ok(())
    }
}

// A source of 17 bytes: how many it gives at most in a call, the calls that fail, and its answers to slices of
// 12 bytes until it is finished.
struct Taking {
    most: usize,
    failing: &'static [u64],
    answers: &'static [Result<usize, Failed>],
}

const TAKINGS: [Taking; 4] = [
    Taking {
        most: 10,
        failing: &[1],
        answers: &[Ok(10), Err(Failed)],
    },
    Taking {
        most: 10,
        failing: &[],
        answers: &[Ok(10), Ok(7), Ok(0)],
    },
    Taking {
        most: 20,
        failing: &[7],
        answers: &[Ok(12), Ok(5), Ok(0)],
    },
    Taking {
        most: 20,
        failing: &[3, 0],
        answers: &[Err(Failed)],
    },
];

// A call of a sink, and its answer.
enum Calling {
    Put(Result<usize, Failed>),
    Flush(Result<(), Failed>),
}

// A sink: its room, the calls that fail, the answers to pieces of three bytes and to flushes, and what it holds then.
struct Putting {
    free: usize,
    failing: &'static [u64],
    calls: &'static [Calling],
    held: &'static [u8],
}

const PUTTINGS: [Putting; 4] = [
    Putting {
        free: 9,
        failing: &[1],
        calls: &[
            Calling::Put(Ok(3)),
            Calling::Put(Err(Failed)),
            Calling::Put(Ok(3)),
        ],
        held: b"abcabc",
    },
    Putting {
        free: 5,
        failing: &[],
        calls: &[
            Calling::Put(Ok(3)),
            Calling::Put(Err(Failed)),
            Calling::Flush(Ok(())),
            Calling::Put(Err(Failed)),
        ],
        held: b"abc",
    },
    Putting {
        free: 5,
        failing: &[7, 0],
        calls: &[
            Calling::Put(Err(Failed)),
            Calling::Put(Ok(3)),
            Calling::Put(Err(Failed)),
        ],
        held: b"abc",
    },
    Putting {
        free: 9,
        failing: &[0, 3],
        calls: &[
            Calling::Flush(Err(Failed)),
            Calling::Flush(Ok(())),
            Calling::Put(Ok(3)),
            Calling::Flush(Err(Failed)),
            Calling::Put(Ok(3)),
        ],
        held: b"abcabc",
    },
];

// A writer behind a sink: a piece of three bytes waits until it is handed on.
const WAITING: [Calling; 6] = [
    Calling::Flush(Ok(())),
    Calling::Put(Ok(3)),
    Calling::Flush(Err(Failed)),
    Calling::Put(Ok(3)),
    Calling::Flush(Err(Failed)),
    Calling::Flush(Ok(())),
];

// One call through the bound.
fn take_from<S: Source>(source: &mut S, into: &mut [u8]) -> Result<usize, Failed>
    requires room { 0 < length into.old }
    requires opened { S.finished source.old ≡ false }
{
    source.take(into)
}

fn put_into<K: Sink>(sink: &mut K, piece: &[u8], space: &Space) -> Result<usize, Failed>
    requires { 0 < length piece.now }
{
    sink.put(piece, space)
}

// Makes each call, with the piece `abc`.
fn answers<K: Sink>(rt: &impl Abort, sink: &mut K, calls: &[Calling]) {
    let space = Space::closed();
    for call in calls {
        match call {
            Calling::Put(want) => assert_eq!(rt; sink.put(b"abc", &space), *want),
            Calling::Flush(want) => assert_eq!(rt; sink.flush(), *want),
        }
    }
}

#[test]
fn a_reader_that_fails_is_a_fault_and_no_end(rt: HostRuntime) -> Result<(), Fail> {
    let mut into = [0; 8];
    let mut source = StdSource::new(TornReader { calls: 0 });
    let Ok(count) = source.take(&mut into) else {
        panic!(rt; "the first read failed");
    };
    assert!(rt; count == 3);
    assert_eq!(rt; &into[..3], b"abc".as_slice());
    assert_eq!(rt; take_from(&mut source, &mut into), Err(Failed));
    let mut ended = StdSource::new(TornReader { calls: 3 });
    assert_eq!(rt; take_from(&mut ended, &mut into), Ok(0));
    Ok(())
}

#[test]
fn a_writer_that_fails_or_takes_nothing_is_a_fault(rt: HostRuntime) -> Result<(), Fail> {
    let mut writer = TornWriter {
        calls: 0,
        taken: Vec::new(rt.alloc()),
    };
    let Ok(mut sink) = StdSink::new(rt.alloc(), &mut writer) else {
        panic!(rt; "no memory");
    };
    answers(&rt, &mut sink, &WAITING);
    drop(sink);
    assert_eq!(rt; writer.taken.as_slice(), b"abcabc".as_slice());
    Ok(())
}

// A piece that is longer than the buffer goes on at once, as far as the writer takes it.
#[test]
fn a_long_piece_is_written_once(rt: HostRuntime) -> Result<(), Fail> {
    let space = Space::closed();
    let piece = [b'a'; 9000];
    let mut writer = TornWriter {
        calls: 0,
        taken: Vec::new(rt.alloc()),
    };
    let Ok(mut sink) = StdSink::new(rt.alloc(), &mut writer) else {
        panic!(rt; "no memory");
    };
    for want in [Ok(2), Err(Failed), Err(Failed), Ok(9000)] {
        assert_eq!(rt; put_into(&mut sink, &piece, &space), want);
    }
    drop(sink);
    assert_eq!(rt; writer.taken.len(), 9002);
    Ok(())
}

#[test]
fn what_is_in_memory_comes_and_goes_whole(rt: HostRuntime) -> Result<(), Fail> {
    let space = Space::closed();
    let mut source = StillSource::new(Vec::from_slice(rt.alloc(), b"abcde")?);
    let mut into = [0; 3];
    assert_eq!(rt; take_from(&mut source, &mut into), Ok(3));
    assert_eq!(rt; &into, b"abc");
    let Ok(mut sink) = StillSink::new(rt.alloc(), 4) else {
        panic!(rt; "no memory");
    };
    for (piece, want) in [(b"abc", Ok(3)), (b"def", Err(Failed))] {
        assert_eq!(rt; put_into(&mut sink, piece, &space), want);
    }
    assert_eq!(rt; put_into(&mut sink, b"d", &space), Ok(1));
    assert_eq!(rt; sink.flush(), Ok(()));
    assert_eq!(rt; sink.bytes(), b"abcd".as_slice());
    assert_eq!(rt;
        format!(in rt.alloc(); "{Failed}")?.as_str(),
        "the device failed"
    );
    Ok(())
}

#[test]
fn a_source_in_memory_fails_in_the_named_calls(rt: HostRuntime) -> Result<(), Fail> {
    for row in &TAKINGS {
        takes(&rt, row)?;
    }
    Ok(())
}

fn takes(rt: &(impl AllocGlobal + Abort), row: &Taking) -> Result<(), Fail> {
    let alloc = rt.alloc();
    let bytes = Vec::from_slice(alloc, b"seventeen letters")?;
    assert!(rt; 1 <= row.most);
    let mut source = MemorySource::new(bytes, row.most, Vec::from_slice(alloc, row.failing)?);
    let mut into = [0; 12];
    let mut open = true;
    for want in row.answers {
        assert!(rt; open);
        let answer = source.take(&mut into);
        assert_eq!(rt; answer, *want);
        open = matches!(answer, Ok(1..));
    }
    assert!(rt; !open);
    Ok(())
}

#[test]
fn a_sink_in_memory_fails_in_the_named_calls(rt: HostRuntime) -> Result<(), Fail> {
    for row in &PUTTINGS {
        puts(&rt, row)?;
    }
    Ok(())
}

fn puts(rt: &(impl AllocGlobal + Abort), row: &Putting) -> Result<(), Fail> {
    let alloc = rt.alloc();
    let failing = Vec::from_slice(alloc, row.failing)?;
    let Ok(mut sink) = MemorySink::new(alloc, row.free, failing) else {
        panic!(rt; "no memory");
    };
    answers(rt, &mut sink, row.calls);
    assert_eq!(rt; sink.bytes(), row.held);
    Ok(())
}
