//! Buffers for a device: each at a multiple of 256 bytes, filled through a slice, and made longer where it stands. Then the
//! same memory below a layer that the library's constructors know nothing of.
#![tactic(auto)]

ghost use Rattle.std.specs.Prelude.{◌≡◌};

use owned_heap::{Layer, Layers, NoMemory, OwnedHeap, Quota};
use std::alloc::Global;
use thiserror::Error;

#[derive(Drop, Debug, Error)]
enum Fault {
    #[error("out of memory")]
    NoMemory(#[from] NoMemory),
    #[error("a layer can't be opened")]
    Refused,
    #[error("the heap is full")]
    Full,
}

// Fills a buffer of 200 bytes for the device, then one that is 100 bytes longer, and tells how many bytes it takes up.
fn send<L: Layer>(heap: &mut OwnedHeap<L>, value: u8) -> Result<u64, Fault> {
    let mut buffer = heap.aligned_allocate(200, 256).ok_or(Fault::Full)?;
    prove!(buffer.place() % 256 == 0);
    heap.with_bytes_mut(&buffer, |bytes| bytes.fill(value));
    if !heap.expand(&mut buffer, 100) {
        return Err(Fault::Full);
    }
    let filled = heap.bytes(&buffer)[199];
    prove!(filled == value);
    let extent = heap.extent(&buffer);
    heap.deallocate(buffer);
    Ok(extent)
}

// Sends ten buffers, and tells what the heap says of itself then.
fn send_all(alloc: Global) -> Result<String, Fault> {
    let layers = Layers::new(alloc, 32)?;
    let Ok(mut heap) = layers.region(2048, 64).stats().heap() else {
        return Err(Fault::Refused);
    };
    for value in 0..10u8 {
        send(&mut heap, value)?;
    }
    Ok(heap.report(alloc)?)
}

// A part of a program that may have 1,000 bytes: whether its block is its own, and what its heap says of itself.
#[tactic(auto, unfolding(quota_rules::specs::QuotaRules::quota_rules, layer_rules::specs::Handing::handing_rules))]
fn limit(alloc: Global) -> Result<(Option<bool>, String), Fault> {
    let (ground, root) = Layers::new(alloc, 32)?.region(2048, 16).parts();
    let Ok(mut heap) = ground.under(Quota::new(1000, root)).heap() else {
        return Err(Fault::Refused);
    };
    let block = heap.allocate(900).ok_or(Fault::Full)?;
    if heap.allocate(101).is_some() {
        return Err(Fault::Full);
    }
    let owned = heap.owns(&block);
    Ok((owned, heap.report(alloc)?))
}

// What both told.
fn serve(alloc: Global) -> Result<(String, bool, String), Fault> {
    let sent = send_all(alloc)?;
    let (owned, limited) = limit(alloc)?;
    Ok((sent, owned == Some(true), limited))
}

fn main(rt: HostRuntime) -> std::io::Result<()> {
    match serve(rt.alloc()) {
        Ok((sent, owned, limited)) => print!(rt;
            "10 buffers sent\n{sent}its own: {owned}\n{limited}"
        ),
        Err(fault) => println!(rt; "{fault}"),
    }
}
