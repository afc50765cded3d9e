//! The rules of quantize, a layer that asks its parent for lengths of some kind alone, and its laws.
#![tactic(auto)]

ghost use Rattle.quantize_rules.specs.QuantizeMeanings.{QuantizeIsRegular, QuantizeIsLawful, QuantizeHandsAllDown, OutOfQuantize};

/// With a proper rounding it is regular, and lawful, over a parent that is.
pub fn quantize_is_lawful()
    ensures regular { QuantizeIsRegular }
    ensures lawful { QuantizeIsLawful }
{}

/// A block is out of it exactly where the block with its rounded length, which has all its bytes, is out of the parent.
pub fn out_of_quantize()
    ensures out { OutOfQuantize }
    ensures down { QuantizeHandsAllDown }
{}
