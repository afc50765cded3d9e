//! What holds of what words and an input are told. Each function does nothing; its contract is the law.
ghost use Rattle.play_core.specs.Asked.{AllWordsAskOnce};
ghost use Rattle.play_core.specs.WholeRuns.{WholeRuns};
ghost use Rattle.play_core.specs.WorkedRows.{CellsAlone, CheckAlignment, CheckCells, CheckRegion, CheckTooLarge, EmptyTrace, ExpressionFault, FirstTrace, FullRegion, NoBytes, NoCells, OpeningOfTheInner, OpeningOfTheOuter, OpeningTooLong, RegionOverRegion};

use expr_builder::laws::accepted_are_compositions;
use expr_reader::each_text_is_read_once;
use heap_core::laws::calls_are_moves;
use heap_core::runs::{answers_are_exact, live_blocks_are_apart, runs_go_on};
use trace_text::read_is_sayable;

/// All words ask for one thing, and for no other: the usage, the fault of an expression, what stands in it, or a run
/// of a trace.
pub fn all_words_ask_once()
    ensures { AllWordsAskOnce }
{
    each_text_is_read_once();
}

/// In every run that words and an input are told, each answer is a step of the machine of blocks, a live block is owned,
/// along a path exactly where this begins its recorded route, null comes exactly where 0 bytes are asked or the root
/// refuses, a call that is refused changes nothing but statistics, and nothing else changes a name, a block, a byte or a
/// route. At every piece of the text the live blocks lie in the area, at multiples of the alignment, and share no byte,
/// and each is found on its route.
pub fn whole_runs()
    ensures { WholeRuns }
{
    accepted_are_compositions();
    calls_are_moves();
    runs_go_on();
    live_blocks_are_apart();
    answers_are_exact();
    read_is_sayable();
}

/// What some words and inputs are told, each row by computation.
pub fn worked_rows()
    ensures first_trace { FirstTrace }
    ensures empty_trace { EmptyTrace }
    ensures no_bytes { NoBytes }
    ensures full_region { FullRegion }
    ensures cells_alone { CellsAlone }
    ensures region_over_region { RegionOverRegion }
    ensures opening_too_long { OpeningTooLong }
    ensures opening_of_the_outer { OpeningOfTheOuter }
    ensures opening_of_the_inner { OpeningOfTheInner }
    ensures expression_fault { ExpressionFault }
    ensures no_cells { NoCells }
    ensures check_region { CheckRegion }
    ensures check_cells { CheckCells }
    ensures check_too_large { CheckTooLarge }
    ensures check_alignment { CheckAlignment }
{
    each_text_is_read_once();
}
