// The bits of a bitmap in the Space: unit `i` is bit `i mod 64` of word `i div 64`, and a set bit says that it is taken.
ghost use Rattle.std.specs.Prelude.{◌≡◌, ◌+◌, ◌≤◌, true};
ghost use Rattle.space_core.specs.Runs.{first_run, free_count};
ghost use Rattle.layer_rules.specs.UnitRows.{longest_run};
ghost use Rattle.bitmapped_block.specs.UnitBits.{units_at, HasWords, AreWhole, IsNext, IsPutRow, IsClearedRow};

use crate::words::{lowest, with_bits};
use space_core::Space;

/// The bytes of a word, and its bits.
pub(crate) const WORD_SIZE: u64 = 8;

pub(crate) const WORD_BITS: u64 = 64;

/// Where the words of a bitmap stand, and how many units have a bit in them.
#[derive(Clone, Copy, Drop)]
pub(crate) struct BitRow {
    pub(crate) place: u64,
    pub(crate) count: u64,
}

/// How many units are free, and how many the longest run of them has.
#[derive(Clone, Copy, Drop)]
pub(crate) struct FreeUnits {
    pub(crate) count: u64,
    pub(crate) longest: u64,
}

/// The first unit from `from` up to `upto` that is taken, or free, as is asked; `upto` where there is none.
pub(crate) fn next(space: &Space, row: BitRow, from: u64, upto: u64, taken: bool) -> u64
    requires words { HasWords space.now row }
    requires order { from ≤ upto }
    requires within { upto ≤ row.count }
    ensures { IsNext taken (units_at space.now.bytes row) from upto result }
{
    let mut at = from;
    while at < upto {
        let word = space.word(row.place + WORD_SIZE * (at / WORD_BITS));
        let bit = lowest(word, at % WORD_BITS, taken);
        let first = at / WORD_BITS * WORD_BITS;
        if bit < WORD_BITS {
            return upto.min(first + bit);
        }
        at = first + WORD_BITS;
    }
    upto
}

/// The first of the least run of `n` free units.
pub(crate) fn least_run(space: &Space, row: BitRow, n: u64) -> Option<u64>
    requires words { HasWords space.now row }
    requires some { 1 ≤ n }
    ensures { result ≡ first_run (λ i. true) n 0 (units_at space.now.bytes row) }
{
    let mut at = next(space, row, 0, row.count, false);
    while n <= row.count - at {
        let end = next(space, row, at, at + n, true);
        if end == at + n {
            return Some(at);
        }
        at = next(space, row, end, row.count, false);
    }
    None
}

/// Makes `n` units from `first` on taken, or free, as is asked.
pub(crate) fn put(space: &mut Space, row: BitRow, first: u64, n: u64, taken: bool)
    requires whole { AreWhole space.old row }
    requires within { first + n ≤ row.count }
    ensures { IsPutRow taken row first n space.old space.new }
{
    let end = first + n;
    let mut at = first;
    while at < end {
        let place = row.place + WORD_SIZE * (at / WORD_BITS);
        let from = at % WORD_BITS;
        let upto = WORD_BITS.min(from + (end - at));
        let word = with_bits(space.word(place), from, upto, taken);
        space.set_word(place, word);
        at += upto - from;
    }
}

/// Makes all units free, whatever the words were.
pub(crate) fn clear(space: &mut Space, row: BitRow)
    requires { HasWords space.old row }
    ensures { IsClearedRow row space.old space.new }
{
    let words = (row.count + (WORD_BITS - 1)) / WORD_BITS;
    space.fill(row.place, WORD_SIZE * words, 0);
}

/// How many units are free.
pub(crate) fn free_units(space: &Space, row: BitRow) -> FreeUnits
    requires { HasWords space.now row }
    ensures count { result.count ≡ free_count (units_at space.now.bytes row) }
    ensures longest { result.longest ≡ longest_run 0 (units_at space.now.bytes row) }
{
    let mut free = FreeUnits {
        count: 0,
        longest: 0,
    };
    let mut at = 0;
    while at < row.count {
        let first = next(space, row, at, row.count, false);
        at = next(space, row, first, row.count, true);
        free = FreeUnits {
            count: free.count + (at - first),
            longest: free.longest.max(at - first),
        };
    }
    free
}
