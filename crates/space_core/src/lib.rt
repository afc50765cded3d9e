//! The Space: raw bytes in cells of 64, a table with one tag a cell, and the leaves.
#![tactic(auto)]

mod leaf;
mod runs;
mod store;
mod table;
mod tree;
mod words;

ghost use Rattle.std.specs.Prelude.{◌≡◌, ◌+◌, ◌*◌, ◌≤◌, ◌<◌, ◌↔◌, true, false, length, slice_index, slice_range, slice_set, option_map, IsNone, IfNone, IfSome, OnSome, OnOk, OnErr};
ghost use Rattle.std.specs.Borrow.{Lends, Array, sem, u8 as byte};
ghost use Rattle.size_round.specs.Sizes.{limit};
ghost use Rattle.space_core.specs.Cells.{cell_size, taken_cells, is_aligned_cell, used_by, free_tag, tag_cells, least_cells, cells_granted, has_tag, cells_given, has_room_behind, cells_grown};
ghost use Rattle.space_core.specs.Memory.{IsMemory, most_cells, most_leaves, no_memory, fresh_memory};
ghost use Rattle.space_core.specs.Words.{word_at, put_word, filled, write_from, IsCopied};
ghost use Rattle.space_core.specs.Runs.{first_run};
ghost use Rattle.space_core.specs.contracts.Space.{the_row};

pub use leaf::Mem;
use std::alloc::{AllocError, Global};
use std::marker::Model;
use store::Store;
use table::CellTable;
use thiserror::Error;
pub use tree::{RunTree, Summary};

/// The bytes of a cell.
pub const CELL_SIZE: u64 = 64;

/// The greatest number of cells of a Space.
pub const MOST_CELLS: u32 = 262_144;

/// The greatest number of leaves that a Space makes.
pub const MOST_LEAVES: u32 = 4096;

/// The process has no memory left for a Space.
#[derive(Clone, Copy, Debug, PartialEq, Eq, Error)]
#[error("out of memory")]
pub struct NoMemory;

impl From<AllocError> for NoMemory {
    fn from(_error: AllocError) -> NoMemory {
        NoMemory
    }
}

/// Raw bytes in cells of 64 bytes, with one tag a cell, where 0 is free.
///
/// Places are offsets in bytes from the Space's begin, and cells are counted from 0.
#[derive(Drop)]
pub struct Space {
    store: Store,
    leaves: u32,
}

impl Model for Space {
    ghost use Rattle.space_core.specs.Memory.{Memory, IsMemory};
    ghost use Rattle.space_core.specs.Held.{held_memory};

    ghost Value = { Memory };

    ghost view = { λ a. held_memory a.store a.leaves };

    ghost invariant = { λ a. IsMemory (held_memory a.store a.leaves) };
}

impl Space {
    /// A Space without cells and leaves. It takes no memory.
    pub fn closed() -> Space
        ensures { result ≡ no_memory 0 }
    {
        Space {
            store: Store::Closed { none: [] },
            leaves: 0,
        }
    }

    /// Gives a closed Space so many cells, all free, with all bytes 0.
    ///
    /// # Errors
    /// `NoMemory` where the process has no memory for them. The Space is as it was then.
    pub fn set_up(&mut self, alloc: Global, cells: u32) -> Result<(), NoMemory>
        requires closed { length self.old.cells.tags ≡ 0 }
        requires some { 1 ≤ cells }
        requires most { cells ≤ most_cells }
        ensures ok { OnOk result (self.new ≡ fresh_memory cells self.old.leaves) }
        ensures err { OnErr result (self.new ≡ self.old) }
        ensures memory { IsMemory self.new }
    {
        let leaves = self.leaves;
        let bytes = vec![in alloc; 0u8; CELL_SIZE as usize * cells as usize]?;
        let table = CellTable::new(alloc, cells)?;
        *self = Space {
            store: Store::Open { bytes, table },
            leaves,
        };
        Ok(())
    }

    /// How many cells there are.
    pub fn cells(&self) -> u32
        ensures { result ≡ length self.now.cells.tags }
    {
        self.tags().len() as u32
    }

    /// How many leaves the Space has made.
    pub fn leaves(&self) -> u32
        ensures { result ≡ self.now.leaves }
    {
        self.leaves
    }

    /// The tag of a cell, or 0 where it is free.
    pub fn tag(&self, cell: u32) -> u32
        requires { cell < length self.now.cells.tags }
        ensures { result ≡ slice_index self.now.cells.tags cell }
    {
        self.tags()[cell as usize]
    }

    /// Which cells are free, as a tree of runs.
    pub fn runs(&self) -> &RunTree
        requires { 1 ≤ length self.now.cells.tags }
        ensures { result.now ≡ taken_cells self.now.cells }
    {
        match &self.store {
            Store::Open { bytes: _, table } => table.runs(),
            Store::Closed { none: _ } => unreachable!(),
        }
    }

    /// How many cells have the tag.
    pub fn used_by(&self, tag: u32) -> u32
        ensures { result ≡ used_by tag self.now.cells }
    {
        runs::count(self.tags(), tag) as u32
    }

    /// The byte at a place.
    pub fn byte(&self, place: u64) -> u8
        requires { place < length self.now.bytes }
        ensures { result ≡ slice_index self.now.bytes place }
    {
        self.bytes()[place as usize]
    }

    /// The word of eight bytes at a place, lowest byte first.
    pub fn word(&self, place: u64) -> u64
        requires { place + 8 ≤ length self.now.bytes }
        ensures { result ≡ word_at self.now.bytes place }
    {
        words::read_word(self.bytes(), place as usize)
    }

    /// Makes a closed leaf with a new tag, or `None` where the Space has made 4,096.
    pub fn new_leaf(&mut self) -> Option<Mem>
        ensures none { IsNone result ↔ (self.old.leaves ≡ most_leaves) }
        ensures kept { IfNone result (self.new ≡ self.old) }
        ensures leaf { IfSome result (λ leaf. leaf ≡ record { tag = self.old.leaves + 1; is_set = false }) }
        ensures after { OnSome result (self.new ≡ record self.old { leaves = self.old.leaves + 1 }) }
        ensures memory { IsMemory self.new }
    {
        if self.leaves == MOST_LEAVES {
            return None;
        }
        self.leaves += 1;
        Some(Mem::with_tag(self.leaves))
    }

    /// Writes the byte at a place.
    pub fn set_byte(&mut self, place: u64, value: u8)
        requires { place < length self.old.bytes }
        ensures after { self.new ≡ record self.old { bytes = slice_set self.old.bytes place value } }
        ensures memory { IsMemory self.new }
    {
        if let Store::Open { bytes, table: _ } = &mut self.store {
            bytes[place as usize] = value;
        }
    }

    /// Writes the word of eight bytes at a place, lowest byte first.
    pub fn set_word(&mut self, place: u64, value: u64)
        requires { place + 8 ≤ length self.old.bytes }
        ensures after { self.new ≡ record self.old { bytes = put_word self.old.bytes place value } }
        ensures memory { IsMemory self.new }
    {
        if let Store::Open { bytes, table: _ } = &mut self.store {
            words::write_word(bytes.as_mut_slice(), place as usize, value);
        }
    }

    /// Writes the value into the `n` bytes from a place on.
    pub fn fill(&mut self, place: u64, n: u64, value: u8)
        requires { place + n ≤ length self.old.bytes }
        ensures after { self.new ≡ record self.old { bytes = filled self.old.bytes place n value } }
        ensures memory { IsMemory self.new }
    {
        if let Store::Open { bytes, table: _ } = &mut self.store {
            runs::put_run(bytes.as_mut_slice(), place as usize, n as usize, value);
        }
    }

    /// Copies `n` bytes from one place to another, which may overlap.
    pub fn copy(&mut self, source: u64, target: u64, n: u64)
        requires source { source + n ≤ length self.old.bytes }
        requires target { target + n ≤ length self.old.bytes }
        ensures copied { IsCopied self.old.bytes self.new.bytes source target n }
        ensures after { self.new ≡ record self.old { bytes = self.new.bytes } }
        ensures memory { IsMemory self.new }
    {
        if let Store::Open { bytes, table: _ } = &mut self.store {
            let from = source as usize;
            bytes.copy_within(from..from + n as usize, target as usize);
        }
    }

    /// The `len` bytes from a place on.
    pub fn lend(&self, place: u64, len: u64) -> &[u8]
        requires { place + len ≤ length self.now.bytes }
        ensures { result.now ≡ slice_range self.now.bytes place (place + len) }
    {
        &self.bytes()[place as usize..(place + len) as usize]
    }

    /// The `len` bytes from a place on, for writing. What is written there is all that changes.
    pub fn lend_mut(&mut self, place: u64, len: u64) -> &mut [u8]
        requires { place + len ≤ length self.old.bytes }
        ensures* writes_back { sem 𝓛 (Lends the_row (Array byte 0) self.entry result (λ written. record self.old { bytes = write_from self.old.bytes place written })) }
        ensures value { result.now ≡ slice_range self.old.bytes place (place + len) }
    {
        self.store.lend_mut(place as usize, (place + len) as usize)
    }

    /// Tags the least run of free cells that has room for so many bytes, and gives the place of its first.
    ///
    /// The place is a multiple of `align`, or of 64 where that is more.
    /// `None` where there is no such run: nothing changes then.
    pub fn grant(&mut self, tag: u32, bytes: u64, align: u64) -> Option<u64>
        requires tag { 1 ≤ tag }
        requires some { 1 ≤ bytes }
        requires most { bytes ≤ limit }
        requires align { align ≤ 4096 }
        ensures place { result ≡ option_map (λ i. cell_size * i) (least_cells bytes align self.old.cells) }
        ensures after { self.new ≡ record self.old { cells = cells_granted tag bytes (least_cells bytes align self.old.cells) self.old.cells } }
        ensures within { IfSome result (λ place. place + bytes ≤ length self.old.bytes) }
        ensures memory { IsMemory self.new }
    {
        let cells = ((bytes + (CELL_SIZE - 1)) / CELL_SIZE) as usize;
        match self.find_run(cells, align as usize) {
            Some(first) => {
                self.put_tag(tag, first, cells);
                Some(CELL_SIZE * first as u64)
            }
            None => None,
        }
    }

    /// Tags the further cells that `more` bytes behind so many bytes touch, whose cells have the tag.
    ///
    /// `false` where these cells aren't there and free: nothing changes then.
    pub fn grow(&mut self, tag: u32, place: u64, bytes: u64, more: u64) -> bool
        requires tag { 1 ≤ tag }
        requires some { 1 ≤ bytes }
        requires most { bytes + more ≤ limit }
        requires has { has_tag tag place bytes self.old.cells ≡ true }
        ensures room { result ≡ has_room_behind place bytes more self.old.cells }
        ensures after { self.new ≡ record self.old { cells = cells_grown tag place bytes more self.old.cells } }
        ensures memory { IsMemory self.new }
    {
        // As in `give`, the cells are counted from the first one's begin.
        let inside = place % CELL_SIZE;
        let first = place / CELL_SIZE;
        let behind = (inside + bytes + (CELL_SIZE - 1)) / CELL_SIZE;
        let cells = (inside + bytes + more + (CELL_SIZE - 1)) / CELL_SIZE - behind;
        let from = (first + behind) as usize;
        if !runs::is_free(self.tags(), from, cells as usize) {
            return false;
        }
        self.put_tag(tag, from, cells as usize);
        true
    }

    /// Frees the cells that so many bytes from a place on touch, each of which has the tag.
    pub fn give(&mut self, tag: u32, place: u64, bytes: u64)
        requires some { 1 ≤ bytes }
        requires most { bytes ≤ limit }
        requires has { has_tag tag place bytes self.old.cells ≡ true }
        ensures after { self.new ≡ record self.old { cells = cells_given place bytes self.old.cells } }
        ensures memory { IsMemory self.new }
    {
        // The cells are counted from the first one's begin, so that no sum can be too large.
        let cells = (place % CELL_SIZE + bytes + (CELL_SIZE - 1)) / CELL_SIZE;
        self.put_tag(0, (place / CELL_SIZE) as usize, cells as usize);
    }

    /// Frees each cell that has the tag.
    pub fn give_all(&mut self, tag: u32)
        requires { 1 ≤ tag }
        ensures after { self.new ≡ record self.old { cells = free_tag tag self.old.cells } }
        ensures memory { IsMemory self.new }
    {
        if let Store::Open { bytes: _, table } = &mut self.store {
            table.free_tag(tag);
        }
    }

    fn bytes(&self) -> &[u8]
        ensures bytes { result.now ≡ self.now.bytes }
        ensures memory { IsMemory self.now }
    {
        self.store.bytes()
    }

    fn tags(&self) -> &[u32]
        ensures tags { result.now ≡ self.now.cells.tags }
        ensures memory { IsMemory self.now }
    {
        self.store.tags()
    }

    /// The least cell from which so many cells are free, and which begins at a multiple of `align` bytes, or of 64.
    fn find_run(&self, cells: usize, align: usize) -> Option<usize>
        requires some { 1 ≤ cells }
        requires align { align ≤ 4096 }
        ensures first { result ≡ first_run (λ i. is_aligned_cell align i) cells 0 (taken_cells self.now.cells) }
        ensures within { IfSome result (λ cell. cell + cells ≤ length self.now.cells.tags) }
        ensures memory { IsMemory self.now }
    {
        match &self.store {
            Store::Open { bytes: _, table } => table.find_run(cells, align),
            Store::Closed { none: _ } => None,
        }
    }

    /// Gives the tag to so many cells from the first on.
    fn put_tag(&mut self, tag: u32, first: usize, cells: usize)
        requires { first + cells ≤ length self.old.cells.tags }
        ensures after { self.new ≡ record self.old { cells = tag_cells tag first cells self.old.cells } }
        ensures memory { IsMemory self.new }
    {
        if let Store::Open { bytes: _, table } = &mut self.store {
            table.put_run(tag, first, cells);
        }
    }
}

#[cfg(test)]
mod tests {
    use super::*;
    use std::process::Abort;

    /// Asks for each row's tag, bytes and alignment, and wants the place at the row's end.
    fn grants(rt: &impl Abort, space: &mut Space, rows: &[(u32, u64, u64, Option<u64>)]) {
        for &(tag, bytes, align, want) in rows {
            assert!(rt; 1 <= tag && 1 <= bytes && bytes <= 1 << 40 && align <= 4096);
            assert_eq!(rt;
                space.grant(tag, bytes, align),
                want,
                "{bytes} bytes for {tag}"
            );
        }
    }

    fn gives_cell(rt: &impl Abort, space: &mut Space, cell: u32) {
        assert!(rt; cell < space.cells());
        let tag = space.tag(cell);
        space.give(tag, CELL_SIZE * u64::from(cell), CELL_SIZE);
        assert!(rt; cell < space.cells());
        assert_eq!(rt; space.tag(cell), 0);
        assert!(rt; space.runs().is_free(cell));
    }

    /// Asks for more bytes behind so many of a cell's own, and wants the answer.
    fn grows_cell(
        rt: &impl Abort,
        space: &mut Space,
        cell: u32,
        bytes: u64,
        more: u64,
        want: bool,
    ) {
        assert!(rt; cell < space.cells() && 1 <= bytes && bytes <= CELL_SIZE && more <= 4096);
        let tag = space.tag(cell);
        assert!(rt; 1 <= tag);
        let grown = space.grow(tag, CELL_SIZE * u64::from(cell), bytes, more);
        assert_eq!(rt; grown, want, "{more} more bytes at cell {cell}");
    }

    /// Writes into the bytes that the Space lends.
    fn writes_from(space: &mut Space, place: u64, written: &[u8])
        requires { place + length written.now ≤ length space.old.bytes }
        ensures { space.new ≡ record space.old { bytes = write_from space.old.bytes place written.now } }
    {
        let lent = space.lend_mut(place, written.len() as u64);
        lent.copy_from_slice(written);
    }

    fn writes_bytes(rt: &impl Abort, space: &mut Space)
        requires { IsMemory space.old }
    {
        assert!(rt; space.cells() == 12);
        space.set_word(8, 0x0102_0304_0506_0708);
        assert_eq!(rt; space.byte(8), 8);
        assert_eq!(rt; space.byte(15), 1);
        space.fill(10, 3, 0xff);
        assert_eq!(rt; space.word(8), 0x0102_03ff_ffff_0708);
        space.set_byte(15, 0);
        assert_eq!(rt; space.word(8), 0x0002_03ff_ffff_0708);
    }

    #[test]
    fn serves_the_least_run(rt: HostRuntime) -> Result<(), NoMemory> {
        let mut space = Space::closed();
        space.set_up(rt.alloc(), 12)?;
        writes_bytes(&rt, &mut space);
        grants(
            &rt,
            &mut space,
            &[
                (1, 100, 64, Some(0)),
                (2, 64, 256, Some(256)),
                (3, 128, 1, Some(128)),
                (1, 600, 64, None),
                (1, 448, 0, Some(320)),
                (4, 1, 64, None),
            ],
        );
        assert_eq!(rt; space.used_by(1), 9);
        assert_eq!(rt; space.used_by(2), 1);
        gives_cell(&rt, &mut space, 1);
        gives_cell(&rt, &mut space, 3);
        grants(
            &rt,
            &mut space,
            &[(5, 64, 128, None), (5, 64, 64, Some(64))],
        );
        space.give_all(1);
        grants(
            &rt,
            &mut space,
            &[(6, 65, 256, Some(512)), (6, 1 << 40, 64, None)],
        );
        Ok(())
    }

    #[test]
    fn copies_from_place_to_place(rt: HostRuntime) -> Result<(), NoMemory> {
        let rows = [
            (0, 2, 4, 0x0807_0403_0201_0201),
            (2, 0, 4, 0x0807_0605_0605_0403),
            (0, 4, 4, 0x0403_0201_0403_0201),
            (1, 5, 0, 0x0807_0605_0403_0201),
            (0, 0, 8, 0x0807_0605_0403_0201),
        ];
        for &(source, target, n, want) in &rows {
            assert!(rt; source <= 8 && target <= 8 && n <= 8);
            let mut space = Space::closed();
            space.set_up(rt.alloc(), 1)?;
            space.set_word(0, 0x0807_0605_0403_0201);
            space.copy(source, target, n);
            assert_eq!(rt; space.word(0), want, "{n} bytes at {source} to {target}");
        }
        Ok(())
    }

    #[test]
    fn lends_its_bytes(rt: HostRuntime) -> Result<(), NoMemory> {
        let mut space = Space::closed();
        writes_from(&mut space, 0, &[]);
        assert!(rt; space.lend(0, 0).is_empty());
        space.set_up(rt.alloc(), 1)?;
        writes_from(&mut space, 2, &[1, 2, 3]);
        writes_from(&mut space, 64, &[]);
        assert_eq!(rt; space.lend(1, 5), [0, 1, 2, 3, 0].as_slice());
        assert!(rt; space.lend(64, 0).is_empty());
        Ok(())
    }

    #[test]
    fn grows_into_free_cells(rt: HostRuntime) -> Result<(), NoMemory> {
        let mut space = Space::closed();
        space.set_up(rt.alloc(), 4)?;
        grants(
            &rt,
            &mut space,
            &[(1, 64, 64, Some(0)), (2, 64, 64, Some(64))],
        );
        // By cell, bytes of it, and more bytes: the answer, and the cells that the second tag then has.
        let rows = [
            (0, 64, 1, false, 1),
            (0, 10, 54, true, 1),
            (1, 64, 129, false, 1),
            (1, 64, 128, true, 3),
            (3, 64, 1, false, 3),
            (3, 64, 0, true, 3),
        ];
        for &(cell, bytes, more, want, used) in &rows {
            grows_cell(&rt, &mut space, cell, bytes, more, want);
            assert_eq!(rt; space.used_by(2), used);
        }
        assert_eq!(rt; space.used_by(1), 1);
        Ok(())
    }

    #[test]
    fn makes_leaves_of_their_own(rt: HostRuntime) {
        let mut space = Space::closed();
        for tag in 1..=MOST_LEAVES {
            let mut leaf = space.new_leaf().expect(&rt, "a leaf");
            assert_eq!(rt; leaf.tag(), tag);
            assert!(rt; !leaf.is_open());
            leaf.open();
            assert!(rt; leaf.is_open());
            leaf.close();
            assert!(rt; !leaf.is_open());
            assert_eq!(rt; space.leaves(), tag);
        }
        assert!(rt; space.new_leaf().is_none());
    }
}
