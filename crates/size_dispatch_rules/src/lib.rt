//! The rules of the groups that choose a member by length, segregate and buckets, and their laws.
#![tactic(auto)]

ghost use Rattle.size_dispatch_rules.specs.SegregateMeanings.{ThresholdsAreAscending, MemberForIsFirst, HasMemberFor, OutOfSegregate, SegregateIsRegular, SegregateIsLawful};
ghost use Rattle.size_dispatch_rules.specs.BucketsMeanings.{BucketHasItsLengths, HasBucketFor, BucketsHandAllDown, OutOfBuckets, BucketsAreRegular, BucketsAreLawful};

/// The member for a length is that of the first threshold that is not below it, or the last; and there is one.
pub fn member_for_is_first()
    ensures thresholds { ThresholdsAreAscending }
    ensures first { MemberForIsFirst }
    ensures there { HasMemberFor }
{}

/// Over regular members a segregator is regular, and over lawful ones with tags of their own it is lawful.
pub fn segregate_is_lawful()
    ensures regular { SegregateIsRegular }
    ensures lawful { SegregateIsLawful }
{}

/// A block is out of a segregator exactly where it is out of the member for its length.
pub fn out_of_segregate()
    ensures { OutOfSegregate }
{}

/// Each length in range has a bucket, whose size is enough and which takes the lengths of one step.
pub fn bucket_has_its_lengths()
    ensures lengths { BucketHasItsLengths }
    ensures there { HasBucketFor }
    ensures down { BucketsHandAllDown }
{}

/// Over regular members buckets are regular, and over lawful ones with tags of their own they are lawful.
pub fn buckets_are_lawful()
    ensures regular { BucketsAreRegular }
    ensures lawful { BucketsAreLawful }
{}

/// A block is out of buckets exactly where its length is in range and it is out of its bucket's member.
pub fn out_of_buckets()
    ensures { OutOfBuckets }
{}
