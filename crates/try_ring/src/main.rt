//! A ring of buffers for messages. Each message goes into the next buffer, which grows where it is too short: where it stands
//! within a quantum of 64 bytes, and elsewhere beyond.
#![tactic(auto)]

ghost use Rattle.std.specs.Prelude.{◌≡◌, ◌≢◌, ◌<◌, ℕ, length, take, OnOk};
ghost use Rattle.owned_heap.specs.Rows.{row_of};

use owned_heap::{BlockVec, Layer, Layers, Multiple, NoMemory, PushError};
use std::alloc::Global;
use thiserror::Error;

#[derive(Drop, Debug, Error)]
enum Fault {
    #[error("out of memory")]
    NoMemory(#[from] NoMemory),
    #[error("a layer can't be opened")]
    Refused,
    #[error("a buffer can't be made: {0}")]
    Push(#[from] PushError),
    #[error("the heap is full")]
    Full,
}

const BUFFERS: usize = 4;

const TURNS: usize = 24;

// Makes the buffers, all short.
fn fill<L: Layer>(ring: &mut BlockVec<L>) -> Result<(), Fault> {
    for _ in 0..BUFFERS {
        ring.push(16)?;
    }
    Ok(())
}

// Puts a message into a buffer.
fn put<L: Layer>(ring: &mut BlockVec<L>, index: usize, message: &[u8]) -> Result<(), Fault>
    requires { index < length ring.old.rows }
    ensures put { OnOk result (take (length message.now) (row_of ring.new.rows index) ≡ message.now) }
    ensures others { (k : ℕ) → k ≢ index → row_of ring.new.rows k ≡ row_of ring.old.rows k }
    ensures len { length ring.new.rows ≡ length ring.old.rows }
{
    let size = message.len();
    if ring.bytes(index).len() < size && !ring.reallocate(index, size as u64) {
        return Err(Fault::Full);
    }
    ring.write_at(index, 0, message);
    Ok(())
}

// Puts two messages side by side. The first is there still when the second was written, and when its own buffer has moved.
fn greet<L: Layer>(ring: &mut BlockVec<L>) -> Result<(), Fault> {
    if ring.len() < 2 {
        return Err(Fault::Full);
    }
    put(ring, 0, b"hello")?;
    put(ring, 1, b"a message that is too long for 16 bytes")?;
    if !ring.reallocate(0, 100) {
        return Err(Fault::Full);
    }
    let first = ring.bytes(0)[0];
    prove!(first == b'h');
    Ok(())
}

// Puts messages into the buffers in turn, each longer than the one before.
fn pass<L: Layer>(ring: &mut BlockVec<L>) -> Result<(), Fault> {
    let text = [b'-'; 192];
    for turn in 0..TURNS {
        let index = turn % BUFFERS;
        if ring.len() <= index {
            return Err(Fault::Full);
        }
        put(ring, index, &text[..8 * turn])?;
    }
    Ok(())
}

// Sends the messages, gives all back, and tells what the heap says of itself then.
fn serve(alloc: Global) -> Result<String, Fault> {
    let layers = Layers::new(alloc, 64)?;
    let Ok(heap) = layers
        .region(2048, 16)
        .free_list(65, 128)
        .quantizer(Multiple::new(64))
        .stats()
        .heap()
    else {
        return Err(Fault::Refused);
    };
    let mut ring = BlockVec::new(alloc, heap);
    fill(&mut ring)?;
    greet(&mut ring)?;
    pass(&mut ring)?;
    ring.clear();
    Ok(ring.heap().report(alloc)?)
}

fn main(rt: HostRuntime) -> std::io::Result<()> {
    match serve(rt.alloc()) {
        Ok(report) => print!(rt; "{TURNS} messages through {BUFFERS} buffers\n{report}"),
        Err(fault) => println!(rt; "{fault}"),
    }
}
