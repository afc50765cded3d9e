//! The rules of an affix, a layer that keeps bytes of its own in front of each block and behind it, and its laws.
#![tactic(auto)]

ghost use Rattle.affix_rules.specs.AffixMeanings.{AffixIsRegular, AffixIsLawful, AffixHandsAllDown, OutOfAffix, LengthStandsBefore, AffixesByBytes};

/// It is regular, and lawful, over a parent that is, whatever the lengths of prefix and suffix.
pub fn affix_is_lawful()
    ensures regular { AffixIsRegular }
    ensures lawful { AffixIsLawful }
{}

/// A block is out of it exactly where the block with its affixes, which has all its bytes, is out of the parent.
pub fn out_of_affix()
    ensures out { OutOfAffix }
    ensures down { AffixHandsAllDown }
{}

/// What the tests of the bytes round a block say: its length in front, zeros behind that, and the suffix.
pub fn bytes_round_blocks()
    ensures length { LengthStandsBefore }
    ensures affixes { AffixesByBytes }
{}
