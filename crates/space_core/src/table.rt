//! The table of cells: one tag a cell, where 0 is free, and the tree by which free runs are found.
ghost use Rattle.std.specs.Prelude.{◌≡◌, ℕ, ◌+◌, ◌≤◌, ◌<◌, false, length, replicate, map, nat_eq, cond, IfOk, IfSome};
ghost use Rattle.space_core.specs.Cells.{taken_cells, is_aligned_cell};
ghost use Rattle.space_core.specs.Memory.{most_cells};
ghost use Rattle.space_core.specs.Runs.{first_run, put_run};

use crate::tree::RunTree;
use crate::{CELL_SIZE, NoMemory, runs};
use std::alloc::Global;
use std::marker::Model;

/// The tags of the cells, and beside them which cells are free, as a tree of runs.
#[derive(Drop)]
pub struct CellTable {
    tags: Vec<u32>,
    free: RunTree,
}

impl Model for CellTable {
    ghost use Rattle.std.specs.Prelude.{ℕ, List};
    ghost use Rattle.space_core.specs.Tables.{IsTable};

    ghost Value = { List ℕ };

    ghost view = { λ a. a.tags.items };

    ghost invariant = { λ a. IsTable a.tags.items a.free };
}

impl CellTable {
    /// So many cells, all free.
    ///
    /// # Errors
    /// `NoMemory` where the process has no memory for them.
    pub fn new(alloc: Global, cells: u32) -> Result<CellTable, NoMemory>
        requires some { 1 ≤ cells }
        requires most { cells ≤ most_cells }
        ensures { IfOk result (λ table. table ≡ replicate cells 0) }
    {
        let tags = vec![in alloc; 0u32; cells as usize]?;
        let free = RunTree::new(alloc, cells)?;
        Ok(CellTable { tags, free })
    }

    pub fn tags(&self) -> &[u32]
        ensures { result.now ≡ self.now }
    {
        self.tags.as_slice()
    }

    /// Which cells are free.
    pub fn runs(&self) -> &RunTree
        ensures { result.now ≡ taken_cells (record { tags = self.now }) }
    {
        &self.free
    }

    /// The least cell from which so many cells are free, and which begins at a multiple of `align` bytes, or of 64.
    pub fn find_run(&self, cells: usize, align: usize) -> Option<usize>
        requires some { 1 ≤ cells }
        requires align { align ≤ 4096 }
        ensures first { result ≡ first_run (λ i. is_aligned_cell align i) cells 0 (taken_cells (record { tags = self.now })) }
        ensures within { IfSome result (λ cell. cell + cells ≤ length self.now) }
    {
        if cells > self.tags.len() {
            return None;
        }
        let mut from = 0;
        while from < self.free.len() {
            let at = self.free.least_from(from, cells as u32)? as usize;
            if runs::is_aligned(at, align) {
                return Some(at);
            }
            // A run that begins between two multiples may hold the next one.
            from = next_aligned(at, align) as u32;
        }
        None
    }

    /// Gives the tag to so many cells from the first on.
    pub fn put_run(&mut self, tag: u32, first: usize, cells: usize)
        requires { first + cells ≤ length self.old }
        ensures { self.new ≡ put_run tag first cells self.old }
    {
        runs::put_run(self.tags.as_mut_slice(), first, cells, tag);
        self.free.set(first as u32, cells as u32, tag == 0);
    }

    /// Frees each cell that has the tag.
    pub fn free_tag(&mut self, tag: u32)
        ensures { self.new ≡ map (λ t. cond (nat_eq t tag) 0 t) self.old }
    {
        let mut from = 0;
        while from < self.tags().len() {
            let end = runs::tag_end(self.tags(), from, tag);
            self.put_run(0, from, end - from);
            // The cell at the end doesn't have the tag.
            from = end + 1;
        }
    }
}

/// The next cell behind one that may begin at a multiple of `align` bytes, or of 64 where that is more.
fn next_aligned(cell: usize, align: usize) -> usize
    requires cell { cell < most_cells }
    requires align { align ≤ 4096 }
    ensures behind { cell < result }
    ensures most { result ≤ cell + 64 }
    ensures none { (c : ℕ) → cell < c → c < result → is_aligned_cell align c ≡ false }
{
    let cell_size = CELL_SIZE as usize;
    let step = align.max(cell_size);
    let rest = cell_size * cell % step;
    if rest == 0 {
        return cell + 1;
    }
    cell + (step - rest + (cell_size - 1)) / cell_size
}
