//! Laws of single calls, over any rules of which a family of laws holds.

ghost use Rattle.layer_laws.specs.RuleLaws.{OpenedTornDown, AskedTornDown, AskedAtTornDown, ClosedAgain, HoldsReadsNoBytes, RouteReadsNoBytes, RoutedReadsNoBytes, ExtentReadsNoBytes, AskedAlongReadsNoBytes, OwnsReadsNoBytes, OwnsChangesByNoBytes};

/// What is told of a block is read of the fields alone, and of no byte of the Space.
pub fn reads_no_bytes()
    ensures holds { HoldsReadsNoBytes }
    ensures route { RouteReadsNoBytes }
    ensures routed { RoutedReadsNoBytes }
    ensures extent { ExtentReadsNoBytes }
    ensures asked_along { AskedAlongReadsNoBytes }
    ensures owns { OwnsReadsNoBytes }
    ensures changes { OwnsChangesByNoBytes }
{}

/// What was set up is gone when it is torn down, also after a request was asked of it; and a state whose child is closed again is as before.
pub fn openings_are_undone()
    ensures opened { OpenedTornDown }
    ensures asked { AskedTornDown }
    ensures asked_at { AskedAtTornDown }
    ensures again { ClosedAgain }
{}
