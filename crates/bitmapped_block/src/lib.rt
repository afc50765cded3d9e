//! The bitmap: a layer that hands out units of its parent's chunk, which words in front of them mark as taken or free.
#![tactic(auto, unfolding(bitmap_rules::specs::BitmapRules::bitmap_rules))]

mod bitmapped;
mod bits;
mod places;
mod words;

ghost use Rattle.std.specs.Prelude.{◌≡◌};
ghost use Rattle.layer_rules.specs.Setting.{need_of};

pub use bitmapped::BitmappedBlock;

// What the parent is opened with: nothing where nothing is needed, and else the chunk's size.
fn parent_need(need: u64, size: u64) -> u64
    ensures { result ≡ need_of need size }
{
    if need == 0 { 0 } else { size }
}
