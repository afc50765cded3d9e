//! The table of words: what is written behind each, what its numbers may be, and which alignment its blocks have.

ghost use Rattle.std.specs.Prelude.{◌≡◌, ◌<◌, ◌^◌, length};
ghost use Rattle.expr_reader.specs.Table.{profile_of, profile_data};
ghost use Rattle.expr_reader.specs.Table as table;

use crate::signature::{Entry, Signature};
use crate::token::{Choice, Name};

/// The bytes that each place of a `null` is a multiple of.
const NULL_ALIGNMENT: u64 = 65536;

/// What a number may be.
#[derive(Clone, Copy, Drop)]
pub enum Allowed {
    /// From the least to the greatest.
    Between { least: u64, most: u64 },
    /// A power of two, from 1 to the greatest.
    PowerOfTwo { most: u32 },
    /// A multiple of the step, from 0 to the greatest.
    MultipleOf { step: u64, most: u64 },
    /// At most the word's number with this index, from 0.
    AtMostNumber { index: usize },
}

/// The alignment of a word's blocks, in bytes. Where it is the word's own, the word needs as much below it.
#[derive(Clone, Copy, Drop)]
pub enum Alignment {
    /// That of what stands below, whatever it is.
    AsBelow,
    Fixed { bytes: u64 },
    /// The number with this index, from 0.
    OfNumber { index: usize },
    /// What so many bytes in front of each block leave of that of what stands below, by the number with this index, from 0.
    /// Where there are any, the word needs 8 below it.
    Behind { index: usize },
}

/// What the table says of a word.
#[derive(Clone, Copy, Drop)]
pub struct Profile {
    pub entry: Entry,
    /// What each of its numbers may be, in order.
    pub allowed: &'static [Allowed],
    pub alignment: Alignment,
}

fn missing() -> Profile
    ensures { profile_data result ≡ table.missing }
{
    Profile {
        entry: Entry::Missing,
        allowed: &[],
        alignment: Alignment::AsBelow,
    }
}

/// A word that stands alone, whose blocks begin at multiples of so many bytes.
fn alone(bytes: u64) -> Profile
    ensures { profile_data result ≡ table.alone bytes }
{
    Profile {
        entry: Entry::Alone,
        allowed: &[],
        alignment: Alignment::Fixed { bytes },
    }
}

/// Numbers, of which each may be so much, or a word in their place, and a layer.
fn over_one(choice: Option<Choice>, allowed: &'static [Allowed], alignment: Alignment) -> Profile
    requires { length allowed.now < 2 ^ 32 }
    ensures { profile_data result ≡ table.over_one choice allowed.now alignment }
{
    let signature = Signature {
        choice,
        numbers: allowed.len() as u32,
        layers: 0,
        pairs: false,
    };
    Profile {
        entry: Entry::Takes(signature),
        allowed,
        alignment,
    }
}

/// The table of words.
pub fn profile_of(name: Name) -> Profile
    ensures { profile_data result ≡ profile_of name }
{
    match name {
        Name::Null => alone(NULL_ALIGNMENT),
        Name::Mem => alone(space_core::CELL_SIZE),
        Name::Region => over_one(
            None,
            &[
                Allowed::Between {
                    least: 1,
                    most: 1 << 30,
                },
                Allowed::PowerOfTwo { most: 4096 },
            ],
            Alignment::OfNumber { index: 1 },
        ),
        Name::FreeList => over_one(
            None,
            &[
                Allowed::AtMostNumber { index: 1 },
                Allowed::Between {
                    least: 8,
                    most: 1 << 30,
                },
            ],
            Alignment::AsBelow,
        ),
        Name::Quantize => over_one(
            Some(Choice::Pow2),
            &[Allowed::Between {
                least: 1,
                most: 1 << 30,
            }],
            Alignment::AsBelow,
        ),
        Name::Stats => over_one(None, &[], Alignment::AsBelow),
        Name::Affix => over_one(
            None,
            &[
                Allowed::MultipleOf { step: 8, most: 256 },
                Allowed::MultipleOf { step: 8, most: 256 },
            ],
            Alignment::Behind { index: 0 },
        ),
        _ => missing(),
    }
}
