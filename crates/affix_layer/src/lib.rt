//! The affix: a layer that keeps bytes of its own in front of each block and behind it.
#![tactic(auto, unfolding(affix_rules::specs::AffixRules::affix_rules, layer_rules::specs::Handing::handing_rules))]

mod affixing;
pub mod laws;

ghost use Rattle.std.specs.Prelude.{◌≡◌, ◌≤◌};
ghost use Rattle.size_round.specs.Sizes.{power_part};
ghost use Rattle.affix_rules.specs.AffixRules.{alignment_behind};

pub use affixing::Affix;

// The greatest power of two that divides the number.
fn power_part(n: u64) -> u64
    requires { 1 ≤ n }
    ensures { result ≡ power_part n n }
{
    1 << n.trailing_zeros()
}

/// What so many bytes in front of each block leave of the alignment of what stands below, both in bytes.
pub fn alignment_behind(prefix: u64, alignment: u64) -> u64
    ensures { result ≡ alignment_behind prefix alignment }
{
    if prefix == 0 {
        return alignment;
    }
    alignment.min(power_part(prefix))
}
