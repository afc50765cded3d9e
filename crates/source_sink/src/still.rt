// A source and a sink in memory, which fail only for want of room.
ghost use Rattle.std.specs.Prelude.{◌≡◌, ◌≤◌, ◌<◌, ◌+◌, ◌++◌, ◌↔◌, [], Some, drop, take, length, min, IfOk, OnOk, OnErr, IsErr, IsOk, Ok, false, true};
ghost use Rattle.source_sink.specs.Counts.{Rose, most_faults};
ghost use Rattle.source_sink.specs.Sources.{finishes};

use crate::{Failed, Sink, Source};
use space_core::{NoMemory, Space};
use std::alloc::Global;
use std::marker::Model;

// Copies from the front as many bytes as there are and fit, and says how many.
pub(crate) fn copy_front(from: &[u8], into: &mut [u8]) -> usize
    ensures count { result ≡ min (length from.now) (length into.new) }
    ensures bytes { from.now ≡ take result into.new ++ drop result from.now }
{
    let count = from.len().min(into.len());
    into[..count].copy_from_slice(&from[..count]);
    count
}

/// Gives its bytes, as many at a time as fit. It never fails.
#[derive(Drop)]
pub struct StillSource {
    bytes: Vec<u8>,
    at: usize,
    finished: bool,
}

impl Model for StillSource {
    ghost use Rattle.std.specs.Prelude.{◌≤◌, drop, vec_len};
    ghost use Rattle.source_sink.specs.Sources.{Giving};

    ghost Value = { Giving };

    ghost view = { λ s. record { left = drop s.at s.bytes.items; finished = s.finished } };

    ghost invariant = { λ s. s.at ≤ vec_len s.bytes };
}

impl StillSource {
    /// A source of these bytes, which isn't finished.
    pub fn new(bytes: Vec<u8>) -> StillSource
        ensures { result ≡ record { left = bytes.items; finished = false } }
    {
        StillSource {
            bytes,
            at: 0,
            finished: false,
        }
    }
}

impl Source for StillSource {
    ghost left = { λ s. Some s.left };

    ghost faults = { λ s. 0 };

    ghost finished = { λ s. s.finished };

    /// Gives as many bytes as are left and fit, and none only at the end. It never fails.
    fn take(&mut self, into: &mut [u8]) -> Result<usize, Failed>
        requires room { 0 < length into.old }
        requires open { self.old.finished ≡ false }
        ensures bound { IfOk result (λ count. count ≤ length into.new) }
        ensures taken { IfOk result (λ count. self.old.left ≡ take count into.new ++ self.new.left) }
        ensures end { IfOk result (λ count. count ≡ 0 → self.old.left ≡ []) }
        ensures finished { self.new.finished ≡ finishes result }

        ensures exact { result ≡ Ok (min (length self.old.left) (length into.old)) }
    {
        let count = copy_front(&self.bytes[self.at..], into);
        self.at += count;
        self.finished = count == 0;
        Ok(count)
    }
}

/// Takes each piece whole while there is room, which it has from the start.
#[derive(Drop)]
pub struct StillSink {
    bytes: Vec<u8>,
    free: usize,
    faults: u64,
}

impl Model for StillSink {
    ghost use Rattle.std.specs.Prelude.{◌+◌, ◌≤◌, vec_capacity, vec_len};
    ghost use Rattle.source_sink.specs.Sinks.{Holding};

    ghost Value = { Holding };

    ghost view = { λ s. record { bytes = s.bytes.items; free = s.free; faults = s.faults } };

    ghost invariant = { λ s. vec_len s.bytes + s.free ≤ vec_capacity s.bytes };
}

impl StillSink {
    /// An empty sink with room for so many bytes.
    ///
    /// # Errors
    /// `NoMemory` where the allocator has no room for them.
    pub fn new(alloc: Global, free: usize) -> Result<StillSink, NoMemory>
        ensures { IfOk result (λ sink. sink ≡ record { bytes = []; free = free; faults = 0 }) }
    {
        let Ok(bytes) = Vec::with_capacity(alloc, free) else {
            return Err(NoMemory);
        };
        Ok(StillSink {
            bytes,
            free,
            faults: 0,
        })
    }

    /// The bytes that it holds.
    pub fn bytes(&self) -> &[u8]
        ensures { result.now ≡ self.now.bytes }
    {
        &self.bytes
    }
}

impl Sink for StillSink {
    ghost holds = { λ s. Some s.bytes };

    ghost faults = { λ s. s.faults };

    ghost flushed = { λ _. true };

    /// Appends the whole piece where it fits. A piece that doesn't fit is `Failed`, and no other.
    fn put(&mut self, piece: &[u8], _space: &Space) -> Result<usize, Failed>
        requires { 0 < length piece.now }
        ensures bound { IfOk result (λ count. (0 < count) × (count ≤ length piece.now)) }
        ensures appended { IfOk result (λ count. self.new.bytes ≡ self.old.bytes ++ take count piece.now) }
        ensures counted { OnOk result (self.new.faults ≡ self.old.faults) }
        ensures nothing { OnErr result (self.new.bytes ≡ self.old.bytes) }
        ensures cause { OnErr result ((self.old.faults ≤ self.new.faults) × Rose self.old.faults self.new.faults) }
        ensures most { OnErr result (self.new.faults ≤ most_faults) }

        ensures exact { IsErr result ↔ (self.old.free < length piece.now) }
        ensures whole { IfOk result (λ count. count ≡ length piece.now) }
        ensures room { self.new.free + length self.new.bytes ≡ self.old.free + length self.old.bytes }
    {
        if piece.len() > self.free {
            self.faults = self.faults.saturating_add(1);
            return Err(Failed);
        }
        self.bytes.extend_from_slice(piece).unwrap();
        self.free -= piece.len();
        Ok(piece.len())
    }
    /// Does nothing, since it keeps what it took.
    fn flush(&mut self) -> Result<(), Failed>
        ensures done { IsOk result }
        ensures same { self.new ≡ self.old }
    {
        Ok(())
    }
}
