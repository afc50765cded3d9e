//! Runs of cells in a table of tags, where 0 is free.
ghost use Rattle.std.specs.Prelude.{◌≡◌, ◌≢◌, ℕ, ◌+◌, ◌≤◌, ◌<◌, ◌^◌, true, length, slice_index, count_by, nat_eq, IfSome, IfNone};
ghost use Rattle.space_core.specs.Cells.{taken_cells, is_aligned_cell};
ghost use Rattle.space_core.specs.Memory.{most_cells};
ghost use Rattle.space_core.specs.Runs.{is_free_run, put_run};

use crate::CELL_SIZE;

/// Whether the cell begins at a multiple of `align` bytes, or of 64 where that is more.
pub fn is_aligned(cell: usize, align: usize) -> bool
    requires { cell ≤ most_cells }
    ensures { result ≡ is_aligned_cell align cell }
{
    let cell_size = CELL_SIZE as usize;
    cell_size * cell % align.max(cell_size) == 0
}

/// The first of the next `cells` cells that is taken, or that is past the table's end.
fn first_taken(tags: &[u32], from: usize, cells: usize) -> Option<usize>
    requires { from + cells < 2 ^ 63 }
    ensures none { IfNone result (is_free_run (taken_cells (record { tags = tags.now })) from cells ≡ true) }
    ensures within { IfSome result (λ cell. (from ≤ cell) × (cell < from + cells)) }
    ensures taken { IfSome result (λ cell. cell < length tags.now → slice_index tags.now cell ≢ 0) }
{
    for cell in from..from + cells {
        if cell >= tags.len() {
            return Some(cell);
        }
        if tags[cell] != 0 {
            return Some(cell);
        }
    }
    None
}

/// Whether so many cells from the first on are there and free.
pub fn is_free(tags: &[u32], from: usize, cells: usize) -> bool
    requires { from + cells < 2 ^ 63 }
    ensures { result ≡ is_free_run (taken_cells (record { tags = tags.now })) from cells }
{
    match first_taken(tags, from, cells) {
        Some(_taken) => false,
        None => true,
    }
}

/// Writes the value at `n` indices from `from` on.
pub fn put_run<T: Copy>(items: &mut [T], from: usize, n: usize, value: T)
    requires within { from + n ≤ length items.old }
    requires fits { from + n < 2 ^ 63 }
    ensures { items.new ≡ put_run value from n items.old }
{
    for index in from..from + n {
        items[index] = value;
    }
}

/// The first cell from `from` on that doesn't have the tag, or the table's end.
pub fn tag_end(tags: &[u32], from: usize, tag: u32) -> usize
    requires { from ≤ length tags.now }
    ensures from { from ≤ result }
    ensures within { result ≤ length tags.now }
    ensures has { (cell : ℕ) → from ≤ cell → cell < result → slice_index tags.now cell ≡ tag }
    ensures ends { result < length tags.now → slice_index tags.now result ≢ tag }
{
    for cell in from..tags.len() {
        if tags[cell] != tag {
            return cell;
        }
    }
    tags.len()
}

/// How many cells have the tag.
pub fn count(tags: &[u32], tag: u32) -> usize
    ensures { result ≡ count_by (λ t. nat_eq t tag) tags.now }
{
    tags.iter().filter(|t| **t == tag).count()
}
