//! Two heaps of one composition, whose first blocks stand at one place each in its own heap, and are two blocks all the same.
#![tactic(auto)]

ghost use Rattle.std.specs.Prelude.{◌≡◌};

use owned_heap::{Layers, NoMemory};
use std::alloc::Global;
use thiserror::Error;

#[derive(Drop, Debug, Error)]
enum Fault {
    #[error("out of memory")]
    NoMemory(#[from] NoMemory),
    #[error("a layer can't be opened")]
    Refused,
    #[error("a heap is full")]
    Full,
    #[error("the twins differ")]
    Differ,
}

// Writes the first block of each of two heaps, and answers where both stand.
fn serve(alloc: Global) -> Result<u64, Fault> {
    let Ok(mut left) = Layers::new(alloc, 16)?.region(512, 16).heap() else {
        return Err(Fault::Refused);
    };
    let Ok(mut right) = Layers::new(alloc, 16)?.region(512, 16).heap() else {
        return Err(Fault::Refused);
    };
    let mine = left.allocate(4).ok_or(Fault::Full)?;
    let yours = right.allocate(4).ok_or(Fault::Full)?;
    let place = mine.place();
    if place != yours.place() {
        return Err(Fault::Differ);
    }
    left.write(&mine, b"mine");
    right.write(&yours, b"your");
    let first = left.bytes(&mine)[0];
    prove!(first == b'm');
    left.deallocate(mine);
    right.deallocate(yours);
    Ok(place)
}

fn main(rt: HostRuntime) -> std::io::Result<()> {
    match serve(rt.alloc()) {
        Ok(place) => println!(rt; "both stand at {place}"),
        Err(fault) => println!(rt; "{fault}"),
    }
}
