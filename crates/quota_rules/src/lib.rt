//! The rules of a quota, a layer that has no more than so many bytes of its parent out, and its laws.
#![tactic(auto)]

ghost use Rattle.quota_rules.specs.QuotaMeanings.{QuotaIsRegular, QuotaIsLawful, OutOfQuota, QuotaCountsWithin};

/// It is regular, and lawful, over a parent that is, whatever its quota.
pub fn quota_is_lawful()
    ensures regular { QuotaIsRegular }
    ensures lawful { QuotaIsLawful }
{}

/// A block is out of it exactly where it is out of the parent, and it counts no more bytes than its quota.
pub fn out_of_quota()
    ensures out { OutOfQuota }
    ensures within { QuotaCountsWithin }
{}
