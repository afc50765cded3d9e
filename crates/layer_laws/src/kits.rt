//! The kits: what a form has that is made with one.

ghost use Rattle.layer_laws.specs.HandsDown.{HandingIsRegular, HandingIsLawful};
ghost use Rattle.layer_laws.specs.Chooses.{ChoosingIsRegular, ChoosingIsLawful};
ghost use Rattle.layer_laws.specs.HeldByMembers.{HeldByMembersIsLawful};
ghost use Rattle.layer_laws.specs.Carves.{CarvingIsRegular, CarvingIsLawful};

/// A form that hands each block down changed is regular over a regular parent, and lawful over one that is lawful too.
pub fn handing_is_lawful()
    ensures regular { HandingIsRegular }
    ensures lawful { HandingIsLawful }
{}

/// A form that chooses a member by length is regular over regular members, and lawful over members that are lawful too.
pub fn choosing_is_lawful()
    ensures regular { ChoosingIsRegular }
    ensures lawful { ChoosingIsLawful }
{}

/// A regular form each of whose blocks is one member's is lawful, over members that are regular and lawful, with tags of their own.
pub fn held_by_members_is_lawful()
    ensures { HeldByMembersIsLawful }
{}

/// A form that carves its blocks from one chunk of its parent is regular over a regular parent, and lawful over one that is lawful too.
pub fn carving_is_lawful()
    ensures regular { CarvingIsRegular }
    ensures lawful { CarvingIsLawful }
{}
