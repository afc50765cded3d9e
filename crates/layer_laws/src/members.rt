//! What holds of several members together, by what holds of each; and of null, which stands where there is no member.

ghost use Rattle.layer_laws.specs.NullMeanings.{OutOfNull, NullIsRegular, NullIsLawful};
ghost use Rattle.layer_laws.specs.MemberMeanings.{MembersOfferWhatEachOffers, AlignmentIsLeast};

/// Members offer what each of them offers, and their alignment is the least of theirs.
pub fn members_one_by_one()
    ensures offers { MembersOfferWhatEachOffers }
    ensures alignment { AlignmentIsLeast }
{}

/// Null is regular and lawful, and no block is out of it.
pub fn null_is_lawful()
    ensures regular { NullIsRegular }
    ensures lawful { NullIsLawful }
    ensures out { OutOfNull }
{}
