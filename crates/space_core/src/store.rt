//! The memory of a Space.
ghost use Rattle.std.specs.Prelude.{◌≡◌, ◌+◌, ◌≤◌, [], length, slice_range};
ghost use Rattle.std.specs.Borrow.{sem};
ghost use Rattle.space_core.specs.Held.{held_bytes, held_tags, LendsBytes};

use crate::table::CellTable;

/// Nothing before the Space is set up, and then 64 bytes for each cell and the table of cells.
#[derive(Drop)]
pub enum Store {
    /// `none` stands for its bytes where they are lent for writing.
    Closed { none: [u8; 0] },
    Open { bytes: Vec<u8>, table: CellTable },
}

impl Store {
    pub fn bytes(&self) -> &[u8]
        ensures { result.now ≡ held_bytes self.now }
    {
        match self {
            Store::Open { bytes, table: _ } => bytes.as_slice(),
            Store::Closed { none: _ } => &[],
        }
    }

    pub fn tags(&self) -> &[u32]
        ensures { result.now ≡ held_tags self.now }
    {
        match self {
            Store::Open { bytes: _, table } => table.tags(),
            Store::Closed { none: _ } => &[],
        }
    }

    /// The bytes from `from` on and before `to`, for writing.
    pub fn lend_mut(&mut self, from: usize, to: usize) -> &mut [u8]
        requires ordered { from ≤ to }
        requires within { to ≤ length (held_bytes self.old) }
        ensures* writes_back { sem 𝓛 (LendsBytes self.entry from result) }
        ensures value { result.now ≡ slice_range (held_bytes self.old) from to }
    {
        match self {
            Store::Open { bytes, table: _ } => bytes.slice_mut(from..to),
            Store::Closed { none } => {
                has_no_byte(none);
                none.as_mut_slice()
            }
        }
    }
}

/// An array of no bytes is empty, which a proof knows once it is read.
fn has_no_byte(none: &[u8; 0])
    ensures { none.now ≡ [] }
{
    let _none = *none;
}
