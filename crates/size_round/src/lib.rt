//! Sizes: the limit of a request, rounding up, and the two roundings.
#![tactic(auto)]

pub mod laws;
mod rounding;

ghost use Rattle.std.specs.Prelude.{◌≡◌, ◌≤◌, ◌+◌, ◌^◌};
ghost use Rattle.size_round.specs.Sizes.{up};

pub use rounding::{Multiple, PowerOfTwo, Rounding};

/// The greatest length, in bytes, that a layer serves.
pub const LIMIT: u64 = 1 << 40;

/// The least multiple of `a` that is at least `n`.
pub fn up(n: u64, a: u64) -> u64
    requires some { 1 ≤ a }
    requires fits { n + a ≤ 2 ^ 63 }
    ensures { result ≡ up n a }
{
    (n + (a - 1)) / a * a
}

#[cfg(test)]
mod tests {
    use super::*;

    #[test]
    fn rounds_up(rt: HostRuntime) {
        for (n, step, multiple, power) in [
            (1, 64, 64, 1),
            (64, 64, 64, 64),
            (65, 64, 128, 128),
            (100, 48, 144, 128),
            (1 << 40, 1, 1 << 40, 1 << 40),
        ] {
            assert_eq!(rt; up(n, step), multiple, "up({n}, {step})");
            assert_eq!(rt; PowerOfTwo.round(n), power, "the power for {n}");
        }
        assert_eq!(rt; Multiple::new(48).round(100), 144);
    }
}
