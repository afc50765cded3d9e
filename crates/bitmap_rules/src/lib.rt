//! The rules of a bitmap, and their laws.
#![tactic(auto)]

ghost use Rattle.bitmap_rules.specs.BitmapMeanings.{BitmapIsLawful};
ghost use Rattle.bitmap_rules.specs.BitmapMeanings.{BitmapIsRegular, OpenBitmapIsSound, OpenBitmapHasImage, OutOfBitmap, UnitsFreeByBytes, FreePlaceIsLeast, NoFreePlace, BitmapPlaceIsLeast, NoBitmapPlace};

/// Where its numbers are proper, a bitmap is regular over a parent that is, and lawful over one that is lawful too.
pub fn bitmap_is_lawful()
    ensures regular { BitmapIsRegular }
    ensures lawful { BitmapIsLawful }
{}

/// An open bitmap is sound, and its words stand, exactly where these facts hold of it.
pub fn open_bitmap_is_sound()
    ensures sound { OpenBitmapIsSound }
    ensures image { OpenBitmapHasImage }
{}

/// A block is out of a bitmap exactly where these facts hold of it.
pub fn out_of_bitmap()
    ensures { OutOfBitmap }
{}

/// The place that is looked for among units is the least multiple of the alignment whose bytes lie in free units.
pub fn free_places()
    ensures bytes { UnitsFreeByBytes }
    ensures found { FreePlaceIsLeast }
    ensures none { NoFreePlace }
    ensures found_in_bitmap { BitmapPlaceIsLeast }
    ensures none_in_bitmap { NoBitmapPlace }
{}
