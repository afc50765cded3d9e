// The units of a bitmap by their places.
ghost use Rattle.std.specs.Prelude.{◌≡◌, ◌&&◌, ◌+◌, ◌*◌, ◌≤◌, ◌^◌};
ghost use Rattle.size_round.specs.Sizes.{limit};
ghost use Rattle.layer_rules.specs.Blocks.{block, lies_in};
ghost use Rattle.layer_rules.specs.Offering.{is_served_size};
ghost use Rattle.layer_rules.specs.Units.{first_unit, unit_count};
ghost use Rattle.bitmap_rules.specs.BitmapRules.{bitmap_front, free_place};
ghost use Rattle.bitmapped_block.specs.UnitBits.{units_at, HasWords};
ghost use Rattle.bitmapped_block.specs.UnitPlaces.{AreUnits};

use crate::bits::{BitRow, WORD_BITS, WORD_SIZE, next};
use layer_core::Block;
use size_round::{LIMIT, up};
use space_core::Space;

/// Units of `size` bytes each, side by side from `base` on, and the row of their bits.
#[derive(Clone, Copy, Drop)]
pub(crate) struct Units {
    pub(crate) size: u64,
    pub(crate) base: u64,
    pub(crate) row: BitRow,
}

/// `count` units from number `first` on.
#[derive(Clone, Copy, Drop)]
pub(crate) struct Span {
    pub(crate) first: u64,
    pub(crate) count: u64,
}

/// The bytes in front of so many units, in which their bits stand.
pub(crate) fn front(count: u64) -> u64
    requires { count ≤ limit }
    ensures { result ≡ bitmap_front count }
{
    let words = (count + (WORD_BITS - 1)) / WORD_BITS;
    up(WORD_SIZE * words, 16)
}

/// Whether a block, which may be any, lies in the `len` bytes from `base` on, and has a length that is served.
pub(crate) fn is_inside(b: Block, base: u64, len: u64) -> bool
    ensures { result ≡ (is_served_size b.len && lies_in b (block base len)) }
{
    // Written so that no sum can be too large.
    b.len >= 1 && b.len <= LIMIT && base <= b.place && b.len <= len && b.place - base <= len - b.len
}

/// The units that a block touches.
pub(crate) fn touched(size: u64, base: u64, b: Block) -> Span
    requires some { 1 ≤ size }
    requires above { base ≤ b.place }
    requires fits { b.place + b.len + size ≤ 2 ^ 63 }
    ensures first { result.first ≡ first_unit size base b }
    ensures count { result.count ≡ unit_count size base b }
{
    let first = (b.place - base) / size;
    let end = (b.place + b.len - base + (size - 1)) / size;
    Span {
        first,
        count: end - first,
    }
}

/// The least multiple of `align` at which the units that `n` bytes touch are there and free.
pub(crate) fn least_place(space: &Space, units: Units, n: u64, align: u64) -> Option<u64>
    requires words { HasWords space.now units.row }
    requires units { AreUnits units }
    requires some { 1 ≤ n }
    requires most { n ≤ limit }
    requires align_some { 1 ≤ align }
    requires align_most { align ≤ 4096 }
    ensures { result ≡ free_place units.size n align units.base (units_at space.now.bytes units.row) }
{
    let end = units.base + units.size * units.row.count;
    let mut place = up(units.base, align);
    while place + n <= end {
        let span = touched(units.size, units.base, Block { place, len: n });
        let behind = span.first + span.count;
        let taken = next(space, units.row, span.first, behind, true);
        if taken == behind {
            return Some(place);
        }
        // No block that is free begins before the next free unit.
        let free = next(space, units.row, taken, units.row.count, false);
        place = up(units.base + units.size * free, align);
    }
    None
}
