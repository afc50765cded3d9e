// How each call changes the numbers. Sums stop at the greatest number, differences at 0.
ghost use Rattle.std.specs.Prelude.{◌≡◌};
ghost use Rattle.layer_rules.specs.Fields.{stats_numbers};
ghost use Rattle.layer_rules.specs.State.{zero_stats};
ghost use Rattle.stats_rules.specs.Counting.{count_allocate, count_expand, count_failed_reallocate, count_reallocate, count_deallocate, count_deallocate_all, count_owns, with_tide};

use layer_rules::Stats;

// The numbers of a layer that was opened just now.
pub(crate) fn no_counts() -> Stats
    ensures { result ≡ zero_stats }
{
    Stats {
        num_owns: 0,
        num_allocate: 0,
        num_allocate_ok: 0,
        num_expand: 0,
        num_expand_ok: 0,
        num_reallocate: 0,
        num_reallocate_ok: 0,
        num_reallocate_in_place: 0,
        num_deallocate: 0,
        num_deallocate_all: 0,
        bytes_used: 0,
        bytes_allocated: 0,
        bytes_moved: 0,
        bytes_slack: 0,
        bytes_high_tide: 0,
    }
}

/// The numbers in the order of their declaration.
pub fn in_order(counts: Stats) -> [u64; 15]
    ensures { result ≡ stats_numbers counts }
{
    [
        counts.num_owns,
        counts.num_allocate,
        counts.num_allocate_ok,
        counts.num_expand,
        counts.num_expand_ok,
        counts.num_reallocate,
        counts.num_reallocate_ok,
        counts.num_reallocate_in_place,
        counts.num_deallocate,
        counts.num_deallocate_all,
        counts.bytes_used,
        counts.bytes_allocated,
        counts.bytes_moved,
        counts.bytes_slack,
        counts.bytes_high_tide,
    ]
}

// With the most bytes that were in use.
fn with_high_tide(counts: Stats) -> Stats
    ensures { result ≡ with_tide counts }
{
    Stats {
        bytes_high_tide: counts.bytes_high_tide.max(counts.bytes_used),
        ..counts
    }
}

// After a request of `n` bytes, whose good size is longer by `slack`.
pub(crate) fn after_request(counts: Stats, served: bool, n: u64, slack: u64) -> Stats
    ensures { result ≡ count_allocate served n slack counts }
{
    let num_allocate = counts.num_allocate.saturating_add(1);
    if !served {
        return with_high_tide(Stats {
            num_allocate,
            ..counts
        });
    }
    with_high_tide(Stats {
        num_allocate,
        num_allocate_ok: counts.num_allocate_ok.saturating_add(1),
        bytes_used: counts.bytes_used.saturating_add(n),
        bytes_allocated: counts.bytes_allocated.saturating_add(n),
        bytes_slack: counts.bytes_slack.saturating_add(slack),
        ..counts
    })
}

// After a block was to grow by `delta` bytes; the slacks are those of its lengths before and then.
pub(crate) fn after_expansion(
    counts: Stats,
    grown: bool,
    delta: u64,
    old_slack: u64,
    new_slack: u64,
) -> Stats
    ensures { result ≡ count_expand grown delta old_slack new_slack counts }
{
    let num_expand = counts.num_expand.saturating_add(1);
    if !grown {
        return with_high_tide(Stats {
            num_expand,
            ..counts
        });
    }
    with_high_tide(Stats {
        num_expand,
        num_expand_ok: counts.num_expand_ok.saturating_add(1),
        bytes_used: counts.bytes_used.saturating_add(delta),
        bytes_allocated: counts.bytes_allocated.saturating_add(delta),
        bytes_slack: counts
            .bytes_slack
            .saturating_sub(old_slack)
            .saturating_add(new_slack),
        ..counts
    })
}

// After a block couldn't get another length.
pub(crate) fn after_failed_reallocation(counts: Stats) -> Stats
    ensures { result ≡ count_failed_reallocate counts }
{
    with_high_tide(Stats {
        num_reallocate: counts.num_reallocate.saturating_add(1),
        ..counts
    })
}

// After a block of `len` bytes got the length `n`; the slacks are those of the two lengths.
pub(crate) fn after_reallocation(
    counts: Stats,
    in_place: bool,
    len: u64,
    n: u64,
    old_slack: u64,
    new_slack: u64,
) -> Stats
    ensures { result ≡ count_reallocate in_place len n old_slack new_slack counts }
{
    let kept = u64::from(in_place);
    let moved = if in_place { 0 } else { len.min(n) };
    with_high_tide(Stats {
        num_reallocate: counts.num_reallocate.saturating_add(1),
        num_reallocate_ok: counts.num_reallocate_ok.saturating_add(1),
        num_reallocate_in_place: counts.num_reallocate_in_place.saturating_add(kept),
        bytes_moved: counts.bytes_moved.saturating_add(moved),
        bytes_used: counts.bytes_used.saturating_sub(len).saturating_add(n),
        bytes_allocated: counts.bytes_allocated.saturating_add(n.saturating_sub(len)),
        bytes_slack: counts
            .bytes_slack
            .saturating_sub(old_slack)
            .saturating_add(new_slack),
        ..counts
    })
}

// After a block of `len` bytes was given back, whether or not its bytes can be used again.
pub(crate) fn after_deallocation(counts: Stats, len: u64, slack: u64) -> Stats
    ensures { result ≡ count_deallocate len slack counts }
{
    with_high_tide(Stats {
        num_deallocate: counts.num_deallocate.saturating_add(1),
        bytes_used: counts.bytes_used.saturating_sub(len),
        bytes_slack: counts.bytes_slack.saturating_sub(slack),
        ..counts
    })
}

// After all blocks were taken back.
pub(crate) fn after_clearing(counts: Stats) -> Stats
    ensures { result ≡ count_deallocate_all counts }
{
    with_high_tide(Stats {
        num_deallocate_all: counts.num_deallocate_all.saturating_add(1),
        bytes_used: 0,
        bytes_slack: 0,
        ..counts
    })
}

// After a block was asked for.
pub(crate) fn after_owns(counts: Stats) -> Stats
    ensures { result ≡ count_owns counts }
{
    with_high_tide(Stats {
        num_owns: counts.num_owns.saturating_add(1),
        ..counts
    })
}
