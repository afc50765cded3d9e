//! The rules of a fallback, a primary and a second layer, and their laws.
#![tactic(auto)]

ghost use Rattle.fallback_rules.specs.FallbackMeanings.{OutOfFallback};
ghost use Rattle.fallback_rules.specs.FallbackMeanings.{FallbackIsRegular};
ghost use Rattle.fallback_rules.specs.FallbackMeanings.{FallbackIsLawful};

/// A fallback over two layers that are regular is so too, and it is lawful where both are, their leaves have tags of their own, and the
/// primary offers owns.
pub fn fallback_is_lawful()
    ensures regular { FallbackIsRegular }
    ensures lawful { FallbackIsLawful }
{}

/// A block is out exactly where it is out of the primary, where that holds it, and else of the second.
pub fn out_of_fallback()
    ensures { OutOfFallback }
{}
