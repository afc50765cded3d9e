//! Worked examples: what the rules answer to given calls, each proved by computation.

ghost use Rattle.shapes.specs.Examples.{RegionKeepsTheLast, RegionUntouched, RegionFull, RegionExpand, BitmapFirstFit, FreelistFront, FreelistGrowsPast, QuantizePowers, SegregateMoves, BucketsBySize, FallbackRoutes, AffixPlaces, KrHoles, ListOpensMembers, StatsOfAFailedMove, BitmapAligned, ListClosesWhatRefused, ListFreshRefuses, OpeningRefusedAtTheRoot, OpeningRefusedAtTheSecond, LargeNodes, LargeReplay, BitmapWord, BitmapBytes, BitmapImage, BitmapOwnBytes, BitmapOccupied, ChainBytes, ChainImage, KrHolePlaces, KrBytes, KrImage};

/// The rules give what each worked example says: the answers, the totals and the fact of each node.
pub fn worked_rows()
    ensures region_keeps_the_last { RegionKeepsTheLast }
    ensures region_untouched { RegionUntouched }
    ensures region_full { RegionFull }
    ensures region_expand { RegionExpand }
    ensures bitmap_first_fit { BitmapFirstFit }
    ensures freelist_front { FreelistFront }
    ensures freelist_grows_past { FreelistGrowsPast }
    ensures quantize_powers { QuantizePowers }
    ensures segregate_moves { SegregateMoves }
    ensures buckets_by_size { BucketsBySize }
    ensures fallback_routes { FallbackRoutes }
    ensures affix_places { AffixPlaces }
    ensures kr_holes { KrHoles }
    ensures list_opens_members { ListOpensMembers }
    ensures stats_of_a_failed_move { StatsOfAFailedMove }
    ensures bitmap_aligned { BitmapAligned }
    ensures list_closes_what_refused { ListClosesWhatRefused }
    ensures list_fresh_refuses { ListFreshRefuses }
    ensures opening_refused_at_the_root { OpeningRefusedAtTheRoot }
    ensures opening_refused_at_the_second { OpeningRefusedAtTheSecond }
{}

/// The same for a composition of 71 nodes over 262,144 cells: its answers and its totals.
pub fn large_example()
    ensures large_nodes { LargeNodes }
    ensures large_replay { LargeReplay }
{}

/// The words and bytes that layers keep in the Space, after worked calls.
pub fn bytes_in_the_space()
    ensures bitmap_word { BitmapWord }
    ensures bitmap_bytes { BitmapBytes }
    ensures bitmap_image { BitmapImage }
    ensures bitmap_own_bytes { BitmapOwnBytes }
    ensures bitmap_occupied { BitmapOccupied }
    ensures chain_bytes { ChainBytes }
    ensures chain_image { ChainImage }
    ensures kr_hole_places { KrHolePlaces }
    ensures kr_bytes { KrBytes }
    ensures kr_image { KrImage }
{}
