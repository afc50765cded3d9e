//! A cache of bytes by number. Where it is full, the entry that was put in first goes.
#![tactic(auto)]

ghost use Rattle.std.specs.Prelude.{◌≡◌, ◌<◌, length, IfSome, IfOk};
ghost use Rattle.owned_heap.specs.Rows.{row_of};

use owned_heap::{BlockTable, Layer, Layers, NoMemory, PushError};
use std::alloc::Global;
use thiserror::Error;

#[derive(Drop, Debug, Error)]
enum Fault {
    #[error("out of memory")]
    NoMemory(#[from] NoMemory),
    #[error("a layer can't be opened")]
    Refused,
    #[error("too long for the cache")]
    TooLong,
}

// What stands beside the bytes of an entry.
#[derive(Clone, Copy)]
struct Entry {
    key: u64,
    turn: u64,
}

// Where the entry of a key is.
fn find<L: Layer>(cache: &BlockTable<L, Entry>, key: u64) -> Option<usize>
    ensures { IfSome result (λ index. index < length cache.now.values) }
{
    for (index, entry) in cache.values().iter().enumerate() {
        if entry.key == key {
            return Some(index);
        }
    }
    None
}

// Takes off the entry that was put in first, or answers `false` where there is none.
fn evict<L: Layer>(cache: &mut BlockTable<L, Entry>) -> bool {
    let mut oldest: Option<(usize, u64)> = None;
    for (index, entry) in cache.values().iter().enumerate() {
        match oldest {
            Some((_, turn)) if turn <= entry.turn => {}
            _ => oldest = Some((index, entry.turn)),
        }
    }
    match oldest {
        Some((index, _)) if index < cache.len() => {
            cache.swap_remove(index);
            true
        }
        _ => false,
    }
}

// Puts bytes in, and answers where they are. Others go until there is room.
fn insert<L: Layer>(
    cache: &mut BlockTable<L, Entry>,
    entry: Entry,
    bytes: &[u8],
) -> Result<usize, Fault>
    ensures inside { IfOk result (λ index. index < length cache.new.values) }
    ensures bytes { IfOk result (λ index. row_of cache.new.rows index ≡ bytes.now) }
{
    if let Some(index) = find(cache, entry.key) {
        cache.swap_remove(index);
    }
    for _ in 0..=cache.len() {
        match cache.push(bytes.len() as u64, entry) {
            Ok(index) => {
                cache.write(index, bytes);
                return Ok(index);
            }
            Err(PushError::NoRoom) => return Err(Fault::NoMemory(NoMemory)),
            Err(PushError::Refused) if evict(cache) => {}
            Err(PushError::Refused) => return Err(Fault::TooLong),
        }
    }
    Err(Fault::TooLong)
}

// The bytes of a key, or none where it isn't there any more.
fn look_up<L: Layer>(cache: &BlockTable<L, Entry>, key: u64) -> Option<&[u8]> {
    let index = find(cache, key)?;
    Some(cache.bytes(index))
}

const ENTRIES: u64 = 24;

// What is told of a cache.
#[derive(Drop)]
struct Told {
    kept: usize,
    has_first: bool,
    has_last: bool,
    report: String,
}

// Puts texts in, more than there is room for.
fn fill<L: Layer>(cache: &mut BlockTable<L, Entry>) -> Result<(), Fault> {
    for key in 0..ENTRIES {
        let at = insert(cache, Entry { key, turn: key }, b"a page of text")?;
        let first = cache.bytes(at)[0];
        prove!(first == b'a');
    }
    Ok(())
}

// Fills a cache, and tells which entries it kept and what its heap says of itself.
fn serve(alloc: Global) -> Result<Told, Fault> {
    let layers = Layers::new(alloc, 16)?;
    let Ok(heap) = layers.region(256, 16).free_list(1, 32).stats().heap() else {
        return Err(Fault::Refused);
    };
    let mut cache = BlockTable::new(alloc, heap);
    fill(&mut cache)?;
    Ok(Told {
        kept: cache.len(),
        has_first: look_up(&cache, 0).is_some(),
        has_last: look_up(&cache, ENTRIES - 1).is_some(),
        report: cache.heap().report(alloc)?,
    })
}

fn main(rt: HostRuntime) -> std::io::Result<()> {
    match serve(rt.alloc()) {
        Ok(told) => {
            let Told {
                kept,
                has_first,
                has_last,
                report,
            } = told;
            print!(rt;
                "{kept} of {ENTRIES} entries are there\nthe first {has_first}\nthe last {has_last}\n{report}"
            )
        }
        Err(fault) => println!(rt; "{fault}"),
    }
}
