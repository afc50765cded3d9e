//! What each word takes between its parentheses, and how that goes on behind what has come.

ghost use Rattle.std.specs.Prelude.{◌≡◌, Some};
ghost use Rattle.expr_reader.specs.Signatures.{takes, left, same_choice, after_number, after_choice, after_layer, ends};

use crate::table::profile_of;
use crate::token::{Choice, Name};

/// What is still to come between the parentheses of a layer: so many numbers, or a word in their place, and then so many layers
/// before the last.
#[derive(Clone, Copy, Drop)]
pub struct Signature {
    /// The word that may stand in place of the numbers.
    pub choice: Option<Choice>,
    pub numbers: u32,
    /// How many layers come before the last.
    pub layers: u32,
    /// Whether a further number and layer may come before the last layer, again and again.
    pub pairs: bool,
}

/// What is written behind a name.
#[derive(Clone, Copy, Drop)]
pub enum Entry {
    /// The name is no word of the grammar yet.
    Missing,
    /// The word stands alone.
    Alone,
    /// The word takes this between its parentheses.
    Takes(Signature),
}

/// What is written behind a name, by the table of words.
pub fn takes(name: Name) -> Entry
    ensures { result ≡ takes name }
{
    profile_of(name).entry
}

/// What is to come, where no word may stand in place of the numbers any more.
fn left(numbers: u32, layers: u32, pairs: bool) -> Option<Signature>
    ensures { result ≡ left numbers layers pairs }
{
    Some(Signature {
        choice: None,
        numbers,
        layers,
        pairs,
    })
}

fn same_choice(a: Choice, b: Choice) -> bool
    ensures { result ≡ same_choice a b }
{
    match (a, b) {
        (Choice::Any, Choice::Any) => true,
        (Choice::Pow2, Choice::Pow2) => true,
        _ => false,
    }
}

/// What is to come behind a number.
#[tactic(auto, using(crate::proofs::Steps::steps))]
pub fn after_number(signature: Signature) -> Option<Signature>
    ensures { result ≡ after_number (Some signature) }
{
    if signature.numbers > 0 {
        left(signature.numbers - 1, signature.layers, signature.pairs)
    } else if signature.layers == 0 && signature.pairs {
        left(0, 1, true)
    } else {
        None
    }
}

/// What is to come behind a word in place of numbers.
pub fn after_choice(choice: Choice, signature: Signature) -> Option<Signature>
    ensures { result ≡ after_choice choice (Some signature) }
{
    match signature.choice {
        None => None,
        Some(other) => {
            if same_choice(other, choice) {
                left(0, signature.layers, signature.pairs)
            } else {
                None
            }
        }
    }
}

/// What is to come behind a layer that isn't the last.
#[tactic(auto, using(crate::proofs::Steps::steps))]
pub fn after_layer(signature: Signature) -> Option<Signature>
    ensures { result ≡ after_layer (Some signature) }
{
    if signature.numbers == 0 && signature.layers > 0 {
        left(0, signature.layers - 1, signature.pairs)
    } else {
        None
    }
}

/// Whether only the last layer is to come.
#[tactic(auto, using(crate::proofs::Steps::steps))]
pub fn ends(signature: Signature) -> bool
    ensures { result ≡ ends (Some signature) }
{
    signature.numbers == 0 && signature.layers == 0
}
