// The two roundings.
ghost use Rattle.std.specs.Prelude.{◌≡◌, ◌≤◌, ◌*◌, true};
ghost use Rattle.size_round.specs.Sizes.{limit, RoundingKind, power_of_two, multiple_of, rounded, is_proper_kind};

use crate::up;

/// A rounding of lengths, in bytes: never down, and never a greater length below a less one.
pub trait Rounding: Drop {
    /// Which rounding it is.
    ghost kind: { Self → RoundingKind };

    /// The length that stands for `n`, from 1 byte to the limit.
    fn round(&self, n: u64) -> u64
        requires some { 1 ≤ n }
        requires most { n ≤ limit }
        ensures rounded { result ≡ rounded (kind self.now) n }
        ensures enough { n ≤ result }
        ensures bounded { result ≤ 2 * limit };

    /// Its parameter is within its bounds. So it keeps the order of lengths, as each proper rounding does.
    ghost proper: { (r : Self) → is_proper_kind (kind r) ≡ true };
}

/// Rounds up to a multiple of the step.
#[derive(Clone, Copy, Drop)]
pub struct Multiple {
    /// From 1 to 2^30 bytes.
    pub step: u64,
    ghost proper: { is_proper_kind (multiple_of step) ≡ true },
}

/// Rounds up to a power of two.
#[derive(Clone, Copy, Drop)]
pub struct PowerOfTwo;

impl Multiple {
    /// The rounding up to multiples of this step, from 1 to 2^30 bytes.
    pub fn new(step: u64) -> Multiple
        requires { is_proper_kind (multiple_of step) ≡ true }
        ensures { result.step ≡ step }
    {
        Multiple { step }
    }
}

impl Rounding for Multiple {
    ghost kind = { λ r. multiple_of r.step };

    #[tactic(auto, unfolding(crate::specs::Sizes::rounded))]
    fn round(&self, n: u64) -> u64 {
        up(n, self.step)
    }

    ghost proper = { λ r. r.proper };
}

impl Rounding for PowerOfTwo {
    ghost use Rattle.std.specs.Prelude.{refl};

    ghost kind = { λ _. power_of_two };

    fn round(&self, n: u64) -> u64 {
        n.next_power_of_two()
    }

    ghost proper = { λ _. refl };
}
