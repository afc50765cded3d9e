// A source and a sink in memory that fail in named calls.
ghost use Rattle.std.specs.Prelude.{◌≡◌, ◌≤◌, ◌<◌, ◌+◌, ◌++◌, ◌↔◌, ◌⊎◌, [], Some, Contains, take, length, min, IfOk, OnOk, OnErr, IsErr, false, true};
ghost use Rattle.source_sink.specs.Counts.{one_more};
ghost use Rattle.source_sink.specs.Sources.{finishes};

use crate::still::copy_front;
use crate::{Failed, Sink, Source};
use space_core::{NoMemory, Space};
use std::alloc::Global;
use std::marker::Model;

/// Gives its bytes, at most so many a call, and fails in the calls whose numbers it was given. Calls are
/// counted from 0, and their count stops at 2^64 - 1.
#[derive(Drop)]
pub struct MemorySource {
    bytes: Vec<u8>,
    at: usize,
    most: usize,
    calls: u64,
    failing: Vec<u64>,
    faults: u64,
    finished: bool,
}

impl Model for MemorySource {
    ghost use Rattle.std.specs.Prelude.{◌≤◌, ◌<◌, drop, vec_len};
    ghost use Rattle.source_sink.specs.Sources.{Feeding};

    ghost Value = { Feeding };

    ghost view = { λ s. record {
      left = drop s.at s.bytes.items;
      most = s.most;
      calls = s.calls;
      failing = s.failing.items;
      faults = s.faults;
      finished = s.finished;
    } };

    ghost invariant = { λ s. (s.at ≤ vec_len s.bytes) × (0 < s.most) };
}

impl MemorySource {
    /// A source of these bytes, which was not called and isn't finished. It takes no memory.
    pub fn new(bytes: Vec<u8>, most: usize, failing: Vec<u64>) -> MemorySource
        requires { 1 ≤ most }
        ensures { result ≡ record {
          left = bytes.items;
          most = most;
          calls = 0;
          failing = failing.items;
          faults = 0;
          finished = false;
        } }
    {
        MemorySource {
            bytes,
            at: 0,
            most,
            calls: 0,
            failing,
            faults: 0,
            finished: false,
        }
    }
}

impl Source for MemorySource {
    ghost left = { λ s. Some s.left };

    ghost faults = { λ s. s.faults };

    ghost finished = { λ s. s.finished };

    /// Fails exactly in the named calls. In another it gives as many bytes as are left, fit and may come at once,
    /// and none only at the end.
    fn take(&mut self, into: &mut [u8]) -> Result<usize, Failed>
        requires room { 0 < length into.old }
        requires open { self.old.finished ≡ false }
        ensures bound { IfOk result (λ count. count ≤ length into.new) }
        ensures taken { IfOk result (λ count. self.old.left ≡ take count into.new ++ self.new.left) }
        ensures end { IfOk result (λ count. count ≡ 0 → self.old.left ≡ []) }
        ensures counted { OnOk result (self.new.faults ≡ self.old.faults) }
        ensures nothing { OnErr result (self.new.left ≡ self.old.left) }
        ensures cause { OnErr result ((self.old.faults ≤ self.new.faults) × (self.new.faults ≡ one_more self.old.faults)) }
        ensures finished { self.new.finished ≡ finishes result }

        ensures named { IsErr result ↔ Contains self.old.failing self.old.calls }
        ensures exact { IfOk result (λ count. count ≡ min (min (length self.old.left) (length into.old)) self.old.most) }
        ensures called { self.new.calls ≡ one_more self.old.calls }
        ensures same { (self.new.most ≡ self.old.most) × (self.new.failing ≡ self.old.failing) }
    {
        let call = self.calls;
        self.calls = call.saturating_add(1);
        if self.failing.contains(&call) {
            self.faults = self.faults.saturating_add(1);
            self.finished = true;
            return Err(Failed);
        }
        let most = self.most.min(into.len());
        let count = copy_front(&self.bytes[self.at..], &mut into[..most]);
        self.at += count;
        self.finished = count == 0;
        Ok(count)
    }
}

/// Takes each piece whole while there is room, which it has from the start, and fails in the calls whose numbers
/// it was given. Calls of both kinds are counted together from 0, and their count stops at 2^64 - 1.
#[derive(Drop)]
pub struct MemorySink {
    bytes: Vec<u8>,
    free: usize,
    calls: u64,
    failing: Vec<u64>,
    faults: u64,
}

impl Model for MemorySink {
    ghost use Rattle.std.specs.Prelude.{◌+◌, ◌≤◌, vec_capacity, vec_len};
    ghost use Rattle.source_sink.specs.Sinks.{Keeping};

    ghost Value = { Keeping };

    ghost view = { λ s. record {
      bytes = s.bytes.items;
      free = s.free;
      calls = s.calls;
      failing = s.failing.items;
      faults = s.faults;
    } };

    ghost invariant = { λ s. vec_len s.bytes + s.free ≤ vec_capacity s.bytes };
}

impl MemorySink {
    /// An empty sink with room for so many bytes, which was not called.
    ///
    /// # Errors
    /// `NoMemory` where the allocator has no room for them.
    pub fn new(alloc: Global, free: usize, failing: Vec<u64>) -> Result<MemorySink, NoMemory>
        ensures { IfOk result (λ sink. sink ≡ record {
          bytes = [];
          free = free;
          calls = 0;
          failing = failing.items;
          faults = 0;
        }) }
    {
        let Ok(bytes) = Vec::with_capacity(alloc, free) else {
            return Err(NoMemory);
        };
        Ok(MemorySink {
            bytes,
            free,
            calls: 0,
            failing,
            faults: 0,
        })
    }

    /// The bytes that it holds.
    pub fn bytes(&self) -> &[u8]
        ensures { result.now ≡ self.now.bytes }
    {
        &self.bytes
    }
}

impl Sink for MemorySink {
    ghost holds = { λ s. Some s.bytes };

    ghost faults = { λ s. s.faults };

    ghost flushed = { λ _. true };

    /// Fails exactly in the named calls and for a piece that doesn't fit. In another call it appends the whole
    /// piece.
    fn put(&mut self, piece: &[u8], _space: &Space) -> Result<usize, Failed>
        requires { 0 < length piece.now }
        ensures bound { IfOk result (λ count. (0 < count) × (count ≤ length piece.now)) }
        ensures appended { IfOk result (λ count. self.new.bytes ≡ self.old.bytes ++ take count piece.now) }
        ensures counted { OnOk result (self.new.faults ≡ self.old.faults) }
        ensures nothing { OnErr result (self.new.bytes ≡ self.old.bytes) }
        ensures cause { OnErr result ((self.old.faults ≤ self.new.faults) × (self.new.faults ≡ one_more self.old.faults)) }

        ensures named { IsErr result ↔ (Contains self.old.failing self.old.calls ⊎ (self.old.free < length piece.now)) }
        ensures whole { IfOk result (λ count. count ≡ length piece.now) }
        ensures room { self.new.free + length self.new.bytes ≡ self.old.free + length self.old.bytes }
        ensures called { self.new.calls ≡ one_more self.old.calls }
        ensures same { self.new.failing ≡ self.old.failing }
    {
        let call = self.calls;
        self.calls = call.saturating_add(1);
        if self.failing.contains(&call) || piece.len() > self.free {
            self.faults = self.faults.saturating_add(1);
            return Err(Failed);
        }
        self.bytes.extend_from_slice(piece).unwrap();
        self.free -= piece.len();
        Ok(piece.len())
    }
    /// Fails exactly in the named calls. In another it does nothing, since it keeps what it took.
    fn flush(&mut self) -> Result<(), Failed>
        ensures kept { self.new.bytes ≡ self.old.bytes }
        ensures counted { OnOk result (self.new.faults ≡ self.old.faults) }
        ensures cause { OnErr result ((self.old.faults ≤ self.new.faults) × (self.new.faults ≡ one_more self.old.faults)) }

        ensures named { IsErr result ↔ Contains self.old.failing self.old.calls }
        ensures room { self.new.free ≡ self.old.free }
        ensures called { self.new.calls ≡ one_more self.old.calls }
        ensures same { self.new.failing ≡ self.old.failing }
    {
        let call = self.calls;
        self.calls = call.saturating_add(1);
        if self.failing.contains(&call) {
            self.faults = self.faults.saturating_add(1);
            return Err(Failed);
        }
        Ok(())
    }
}
