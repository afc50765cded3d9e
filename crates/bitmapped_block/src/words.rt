// Bits of one word of 64, the lowest first.
ghost use Rattle.std.specs.Prelude.{◌<◌, ◌≤◌};
ghost use Rattle.bitmapped_block.specs.WordBits.{AreSet, IsLowest};

/// The number of the lowest bit, from number `from` on, that is `value`; 64 where there is none.
pub(crate) fn lowest(word: u64, from: u64, value: bool) -> u64
    requires { from < 64 }
    ensures { IsLowest value word from result }
{
    let sought = if value { word } else { !word };
    let skipped = (sought >> from).trailing_zeros();
    (from + u64::from(skipped)).min(64)
}

/// The word with the bits from number `from` up to `upto` made `value`.
pub(crate) fn with_bits(word: u64, from: u64, upto: u64, value: bool) -> u64
    requires some { from < upto }
    requires most { upto ≤ 64 }
    ensures { AreSet value from upto word result }
{
    let mask = (u64::MAX >> (64 - upto)) & (u64::MAX << from);
    if value { word | mask } else { word & !mask }
}
