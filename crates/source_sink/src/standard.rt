// std's readers and writers. They tell no content.
ghost use Rattle.std.specs.Prelude.{◌≡◌, None, false, true, IfOk};

use crate::{Failed, Sink, Source};
use space_core::{NoMemory, Space};
use std::alloc::Global;
use std::io::{BufWriter, Read, Write};

/// Takes from a reader, and doesn't tell what is left. Each error of the reader is a fault, an interrupted call too.
#[derive(Drop)]
pub struct StdSource<R> {
    reader: R,
    faults: u64,
    finished: bool,
}

impl<R: Read> StdSource<R> {
    /// A source that isn't finished and has not failed.
    pub fn new(reader: R) -> StdSource<R>
        ensures untold { ⟦<StdSource<R> as Source>⟧.left result ≡ None }
        ensures faultless { ⟦<StdSource<R> as Source>⟧.faults result ≡ 0 }
        ensures opened { ⟦<StdSource<R> as Source>⟧.finished result ≡ false }
    {
        StdSource {
            reader,
            faults: 0,
            finished: false,
        }
    }
}

impl<R: Read> Source for StdSource<R> {
    ghost left = { λ _. None };

    ghost faults = { λ s. s.faults };

    ghost finished = { λ s. s.finished };

    /// Reads once. `Ok(0)` is the reader's end, and each of its errors is `Failed`.
    fn take(&mut self, into: &mut [u8]) -> Result<usize, Failed> {
        match self.reader.read(into) {
            Ok(count) => {
                self.finished = count == 0;
                Ok(count)
            }
            Err(_) => {
                self.faults = self.faults.saturating_add(1);
                self.finished = true;
                Err(Failed)
            }
        }
    }
}

/// Puts into a writer through std's `BufWriter`, and doesn't tell what it holds. Each error of that is a fault, and so is
/// a write of no byte. What was not handed on when it is dropped is written then, and a fault of that isn't told.
#[derive(Drop)]
pub struct StdSink<W: Write + Drop> {
    writer: BufWriter<W>,
    faults: u64,
}

impl<W: Write + Drop> StdSink<W> {
    /// A sink that has not failed, with an empty buffer of its own.
    ///
    /// # Errors
    /// `NoMemory` where the allocator has no room for the buffer.
    pub fn new(alloc: Global, writer: W) -> Result<StdSink<W>, NoMemory>
        ensures untold { IfOk result (λ sink. ⟦<StdSink<W> as Sink>⟧.holds sink ≡ None) }
        ensures faultless { IfOk result (λ sink. ⟦<StdSink<W> as Sink>⟧.faults sink ≡ 0) }
        ensures flushed { IfOk result (λ sink. ⟦<StdSink<W> as Sink>⟧.flushed sink ≡ true) }
    {
        let Ok(writer) = BufWriter::new(alloc, writer) else {
            return Err(NoMemory);
        };
        Ok(StdSink { writer, faults: 0 })
    }
}

impl<W: Write + Drop> Sink for StdSink<W> {
    ghost use Rattle.std.specs.Prelude.{length, nat_eq};
    ghost use Rattle.std.specs.Io.Buffered.{writer_buffer};

    ghost holds = { λ _. None };

    ghost faults = { λ s. s.faults };

    ghost flushed = { λ s. nat_eq (length (writer_buffer s.writer)) 0 };

    /// Writes once into the buffer, which hands on when it is full, and does not look at the Space. An error and a
    /// write of no byte are `Failed`.
    fn put(&mut self, piece: &[u8], _space: &Space) -> Result<usize, Failed> {
        match self.writer.write(piece) {
            Ok(count) if 0 < count => Ok(count),
            _ => {
                self.faults = self.faults.saturating_add(1);
                Err(Failed)
            }
        }
    }

    /// Writes what stands in the buffer, and flushes the writer. An error of one of these is `Failed`.
    fn flush(&mut self) -> Result<(), Failed> {
        if self.writer.flush().is_err() {
            self.faults = self.faults.saturating_add(1);
            return Err(Failed);
        }
        Ok(())
    }
}
