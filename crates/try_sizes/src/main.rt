//! Records by size classes: lengths are rounded to powers of two, and what is given back is used for the next of its class.
#![tactic(auto)]

ghost use Rattle.std.specs.Prelude.{◌≡◌};

use owned_heap::{Layer, Layers, NoMemory, OwnedHeap, PowerOfTwo};
use std::alloc::Global;
use thiserror::Error;

#[derive(Drop, Debug, Error)]
enum Fault {
    #[error("out of memory")]
    NoMemory(#[from] NoMemory),
    #[error("a layer can't be opened")]
    Refused,
    #[error("no room for a record")]
    Full,
}

// Three records of three classes; the middle one gives way to another of its class.
fn records<L: Layer>(heap: &mut OwnedHeap<L>) -> Result<u64, Fault> {
    let small = heap.allocate(5).ok_or(Fault::Full)?;
    heap.write(&small, b"point");
    let middle = heap.allocate(20).ok_or(Fault::Full)?;
    heap.write_at(&middle, 10, b"line");
    let large = heap.allocate(60).ok_or(Fault::Full)?;
    heap.set_byte(&large, 59, 9);
    heap.deallocate(middle);
    let other = heap.allocate(18).ok_or(Fault::Full)?;
    heap.set_byte(&other, 17, 5);
    let point = heap.bytes(&small)[4];
    prove!(point == b't');
    let end = heap.bytes(&large)[59];
    prove!(end == 9);
    let place = other.place();
    heap.deallocate(small);
    heap.deallocate(large);
    heap.deallocate(other);
    Ok(place)
}

// Six records at once: the first is as it was when all others are written.
fn six<L: Layer>(heap: &mut OwnedHeap<L>) -> Option<u8> {
    let first = heap.allocate(1)?;
    let second = heap.allocate(2)?;
    let third = heap.allocate(3)?;
    let fourth = heap.allocate(4)?;
    let fifth = heap.allocate(5)?;
    let sixth = heap.allocate(6)?;
    heap.set_byte(&first, 0, 1);
    heap.set_byte(&second, 0, 2);
    heap.set_byte(&third, 0, 3);
    heap.set_byte(&fourth, 0, 4);
    heap.set_byte(&fifth, 0, 5);
    heap.set_byte(&sixth, 0, 6);
    let kept = heap.bytes(&first)[0];
    prove!(kept == 1);
    heap.deallocate(first);
    heap.deallocate(second);
    heap.deallocate(third);
    heap.deallocate(fourth);
    heap.deallocate(fifth);
    heap.deallocate(sixth);
    Some(kept)
}

// Makes the records, and tells where the middle class was used again and what the heap says of itself then.
fn serve(alloc: Global) -> Result<(u64, String), Fault> {
    let layers = Layers::new(alloc, 64)?;
    let Ok(mut heap) = layers
        .region(2048, 16)
        .free_list(17, 32)
        .quantizer(PowerOfTwo)
        .heap()
    else {
        return Err(Fault::Refused);
    };
    six(&mut heap).ok_or(Fault::Full)?;
    let place = records(&mut heap)?;
    Ok((place, heap.report(alloc)?))
}

fn main(rt: HostRuntime) -> std::io::Result<()> {
    match serve(rt.alloc()) {
        Ok((place, report)) => print!(rt; "the middle class was used again at {place}\n{report}"),
        Err(fault) => println!(rt; "{fault}"),
    }
}
