//! What the definitions that compute mean, in words.

ghost use Rattle.layer_laws.specs.UnitMeanings.{FreeRunsAreFree, TakenRunsAreTaken, FreeCellsAreUntagged, TaggedCellsHaveTheTag, FirstRunIsFirst, NoFirstRun, FirstPlaceIsFirst, NoFirstPlace, UnitsArePut, NumbersArePut, FreeCountCounts, LeastCellsAreLeast, NoCells, HasTagByBytes};
ghost use Rattle.layer_laws.specs.BlockMeanings.{LiesInByBytes, ApartByBytes};

/// Runs of units and of cells, element by element, and the first run that a search finds.
pub fn runs_of_units()
    ensures free { FreeRunsAreFree }
    ensures taken { TakenRunsAreTaken }
    ensures untagged { FreeCellsAreUntagged }
    ensures tagged { TaggedCellsHaveTheTag }
    ensures first { FirstRunIsFirst }
    ensures no_first { NoFirstRun }
    ensures units_put { UnitsArePut }
    ensures numbers_put { NumbersArePut }
    ensures free_count { FreeCountCounts }
{}

/// Two blocks, byte by byte.
pub fn blocks_by_bytes()
    ensures lies_in { LiesInByBytes }
    ensures apart { ApartByBytes }
{}

/// The cells that are looked for are the least with room at a multiple of the alignment, a power of two.
pub fn least_rooms()
    ensures found { LeastCellsAreLeast }
    ensures none { NoCells }
    ensures tag_by_bytes { HasTagByBytes }
{}

/// The first place that passes a test, among places one step apart, or none.
pub fn first_places()
    ensures found { FirstPlaceIsFirst }
    ensures none { NoFirstPlace }
{}
