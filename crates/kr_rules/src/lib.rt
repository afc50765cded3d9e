//! The rules of a kr, and their laws.
#![tactic(auto)]

ghost use Rattle.kr_rules.specs.KrMeanings.{KrIsLawful};
ghost use Rattle.kr_rules.specs.KrMeanings.{KrIsRegular, KrTailFirst, OpenKrIsSound, OpenKrHasImage, OutOfKr};

/// A kr is regular over a parent that is, whatever its size; and where its size is proper it is lawful over one that is lawful too.
pub fn kr_is_lawful()
    ensures regular { KrIsRegular }
    ensures lawful { KrIsLawful }
{}

/// It serves from its tail as long as that has room.
pub fn kr_tail_first()
    ensures { KrTailFirst }
{}

/// An open kr is sound, and its holes stand, exactly where these facts hold of it.
pub fn open_kr_is_sound()
    ensures sound { OpenKrIsSound }
    ensures image { OpenKrHasImage }
{}

/// A block is out of a kr exactly where these facts hold of it.
pub fn out_of_kr()
    ensures { OutOfKr }
{}
