//! Rounding to a grid.
ghost use Rattle.std.specs.Prelude.{◌≡◌, ◌+◌, ◌*◌, ◌^◌, ◌<◌, ◌≤◌};
ghost use Rattle.pdc_frame.specs.Nearest.{IsNearest, nearest_of};

/// The `TIME_BASE` of most PMUs, which count microseconds.
pub(crate) const MILLION: u32 = 1_000_000;

/// 2^50 by twice a million, rounded up.
const INVERSE: u64 = 562_949_954;

/// Which multiple of `step` is nearest to `x`, the upper of two equally near.
#[tactic(auto, unfolding(crate::specs::Nearest::nearest_of))]
pub(crate) fn nearest(x: u64, step: u64) -> u64
    requires step { 0 < step }
    requires small { 2 * x + 2 * step < 2 ^ 64 }
    ensures nearest { IsNearest x step result }
    ensures value { result ≡ nearest_of x step }
    ensures above { 2 * (result * step) ≤ 2 * x + step }
    ensures below { 2 * x < 2 * (result * step) + step }
{
    (2 * x + step) / (2 * step)
}

/// The same, of steps of a million, by a product, which takes less time than a division.
#[tactic(auto, unfolding(crate::specs::Nearest::nearest_of))]
pub(crate) fn nearest_million(x: u64) -> u64
    requires { x < 2 ^ 28 }
    ensures nearest { IsNearest x MILLION result }
    ensures value { result ≡ nearest_of x MILLION }
    ensures above { 2 * (result * MILLION) ≤ 2 * x + MILLION }
    ensures below { 2 * x < 2 * (result * MILLION) + MILLION }
{
    (2 * x + MILLION as u64) * INVERSE >> 50
}
