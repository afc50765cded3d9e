//! What holds of each affix, whatever its parent. Each law is a clause of a function that does nothing.

ghost use Rattle.affix_layer.specs.AffixWrites.{WrittenAffixesKeep, LentPrefixKeeps, LentSuffixKeeps};

/// What a caller writes round a block that is out, where he may, harms nothing: the layer stands with
/// the state that it had, the block keeps its bytes and may be given back, and other blocks keep theirs
/// with all that stands round them. So it is with what he writes into the bytes that are lent.
pub fn writes_round_blocks()
    ensures written { WrittenAffixesKeep }
    ensures prefix { LentPrefixKeeps }
    ensures suffix { LentSuffixKeeps }
{}
