//! Two heaps side by side, with a copy from a block of the one into a block of the other.
#![tactic(auto)]

ghost use Rattle.std.specs.Prelude.{◌≡◌};

use owned_heap::{Layer, Layers, NoMemory, OwnedHeap};
use std::alloc::Global;
use thiserror::Error;

#[derive(Drop, Debug, Error)]
enum Fault {
    #[error("out of memory")]
    NoMemory(#[from] NoMemory),
    #[error("a layer can't be opened")]
    Refused,
    #[error("a heap is full")]
    Full,
}

// Copies a text of the left heap to the right one, whatever their layers, and answers its last byte.
fn copy<K: Layer, L: Layer>(
    left: &mut OwnedHeap<K>,
    right: &mut OwnedHeap<L>,
) -> Result<u8, Fault> {
    let text = left.allocate(4).ok_or(Fault::Full)?;
    let there = right.allocate(4).ok_or(Fault::Full)?;
    let mark = right.allocate(1).ok_or(Fault::Full)?;
    left.write(&text, b"left");
    right.set_byte(&mark, 0, b'!');
    right.write(&there, left.bytes(&text));
    left.set_byte(&text, 3, b'?');
    let copied = right.bytes(&there)[3];
    prove!(copied == b't');
    let kept = right.bytes(&mark)[0];
    prove!(kept == b'!');
    left.deallocate(text);
    right.deallocate(there);
    right.deallocate(mark);
    Ok(copied)
}

// Copies between two heaps, and tells what each says of itself then.
fn serve(alloc: Global) -> Result<(String, String), Fault> {
    let layers = Layers::new(alloc, 32)?;
    let Ok(mut left) = layers.region(1024, 16).free_list(1, 64).quota(512).heap() else {
        return Err(Fault::Refused);
    };
    let layers = Layers::new(alloc, 32)?;
    let Ok(mut right) = layers.region(512, 8).affix(8, 8).heap() else {
        return Err(Fault::Refused);
    };
    copy(&mut left, &mut right)?;
    Ok((left.report(alloc)?, right.report(alloc)?))
}

fn main(rt: HostRuntime) -> std::io::Result<()> {
    match serve(rt.alloc()) {
        Ok((left, right)) => print!(rt; "copied\nleft\n{left}right\n{right}"),
        Err(fault) => println!(rt; "{fault}"),
    }
}
