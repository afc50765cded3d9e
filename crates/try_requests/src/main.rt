//! A request arena: each request makes many small objects, and all of them are given back at once when it is answered.
#![tactic(auto)]

ghost use Rattle.std.specs.Prelude.{◌≡◌};

use owned_heap::{Layer, Layers, NoMemory, OwnedHeap};
use std::alloc::Global;
use thiserror::Error;

#[derive(Drop, Debug, Error)]
enum Fault {
    #[error("out of memory")]
    NoMemory(#[from] NoMemory),
    #[error("a layer can't be opened")]
    Refused,
    #[error("the arena is full")]
    Full,
}

// Answers a request through objects of the arena: a head that is read back once the others are written.
fn answer<L: Layer>(arena: &mut OwnedHeap<L>, objects: u8) -> Result<u8, Fault> {
    for value in 0..objects {
        let object = arena.allocate(24).ok_or(Fault::Full)?;
        arena.set_byte(&object, 0, value);
    }
    let head = arena.allocate(8).ok_or(Fault::Full)?;
    arena.write(&head, b"status: ");
    let body = arena.allocate(2).ok_or(Fault::Full)?;
    arena.write(&body, b"ok");
    let first = arena.bytes(&head)[0];
    prove!(first == b's');
    let last = arena.bytes(&body)[1];
    prove!(last == b'k');
    arena.deallocate_all();
    Ok(last)
}

// Answers ten requests, and tells what the arena says of itself then.
fn serve(alloc: Global) -> Result<String, Fault> {
    let layers = Layers::new(alloc, 64)?;
    let Ok(mut arena) = layers.region(2048, 16).stats().heap() else {
        return Err(Fault::Refused);
    };
    for request in 0..10u8 {
        answer(&mut arena, 40 + request)?;
    }
    Ok(arena.report(alloc)?)
}

fn main(rt: HostRuntime) -> std::io::Result<()> {
    match serve(rt.alloc()) {
        Ok(report) => print!(rt; "10 requests answered\n{report}"),
        Err(fault) => println!(rt; "{fault}"),
    }
}
