//! The quantizer: a layer that asks its parent for rounded lengths alone, so that a block can grow into what is left of its own.
#![tactic(auto, unfolding(quantize_rules::specs::QuantizeRules::quantize_rules, layer_rules::specs::Handing::handing_rules))]

mod quantizing;

ghost use Rattle.std.specs.Prelude.{◌≡◌, ◌≤◌};
ghost use Rattle.size_round.specs.Sizes.{limit};
ghost use Rattle.quantize_rules.specs.QuantizeRules.{quantize_down};

use layer_core::Block;
pub use quantizing::Quantizer;
use size_round::Rounding;

// The block as the parent sees it.
fn parent_block<R: Rounding>(rounding: &R, b: Block) -> Block
    requires some { 1 ≤ b.len }
    requires most { b.len ≤ limit }
    ensures { result ≡ quantize_down (R.kind rounding.now) b }
{
    Block {
        place: b.place,
        len: rounding.round(b.len),
    }
}
