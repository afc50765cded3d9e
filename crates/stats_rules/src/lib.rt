//! The rules of statistics, a layer that counts the calls of its parent, and their laws.
#![tactic(auto)]

ghost use Rattle.stats_rules.specs.StatsMeanings.{StatsIsRegular, StatsIsLawful, OutOfStats};

/// It is regular, and lawful, over a parent that is.
pub fn stats_is_lawful()
    ensures regular { StatsIsRegular }
    ensures lawful { StatsIsLawful }
{}

/// A block is out of it exactly where it is out of the parent.
pub fn out_of_stats()
    ensures { OutOfStats }
{}
