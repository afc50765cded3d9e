//! The rules of a list of members, each set up when it is first needed, and their laws.
#![tactic(auto)]

ghost use Rattle.list_rules.specs.ListMeanings.{ListIsLawful};
ghost use Rattle.list_rules.specs.ListMeanings.{NextMemberIsClosed};
ghost use Rattle.list_rules.specs.ListMeanings.{OutOfList};
ghost use Rattle.list_rules.specs.ListMeanings.{ListIsRegular};

/// A list of members that are regular is so too, and it is lawful where each is, their leaves have tags of their own, and each offers owns.
pub fn list_is_lawful()
    ensures regular { ListIsRegular }
    ensures lawful { ListIsLawful }
{}

/// A block is out exactly where it is out of the first open member, in the order of use, that holds it.
pub fn out_of_list()
    ensures { OutOfList }
{}

/// The member that a list sets up next is closed.
pub fn next_member_is_closed()
    ensures { NextMemberIsClosed }
{}
