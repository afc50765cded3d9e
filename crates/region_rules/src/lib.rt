//! The rules of a region, and its laws.
#![tactic(auto)]

ghost use Rattle.region_rules.specs.RegionMeanings.{OutOfRegion, OpenRegionIsSound, RegionIsRegular, RegionIsLawful};

/// A block is out of a region exactly where it begins at a multiple of the alignment and doesn't pass the position.
pub fn out_of_region()
    ensures { OutOfRegion }
{}

/// An open region is sound exactly where its numbers are in order and its chunk is out of a sound parent.
pub fn open_region_is_sound()
    ensures { OpenRegionIsSound }
{}

/// Where its numbers are proper a region is regular over a parent that is, and lawful where this is lawful too.
pub fn region_is_lawful()
    ensures regular { RegionIsRegular }
    ensures lawful { RegionIsLawful }
{}
