//! What the definitions of sizes mean: each law is a clause of a function that does nothing.
ghost use Rattle.size_round.specs.SizeMeanings.{UpIsLeast, CeilDivIsLeast, PowersPass, RoundedIsLeastPower, PartIsGreatest, RoundedIsEnough, RoundedIsMonotone, RoundedIsBounded};

/// Rounding up gives the least multiple that is enough.
pub fn rounding_up_is_least()
    ensures up { UpIsLeast }
    ensures ceil_div { CeilDivIsLeast }
{}

/// Powers of two: the test, the least that is enough, and the greatest that divides.
pub fn powers_of_two()
    ensures test { PowersPass }
    ensures rounded { RoundedIsLeastPower }
    ensures part { PartIsGreatest }
{}

/// A proper rounding, of either kind, gives enough, keeps the order and stays within twice the limit.
pub fn proper_roundings()
    ensures enough { RoundedIsEnough }
    ensures monotone { RoundedIsMonotone }
    ensures bounded { RoundedIsBounded }
{}
