//! From tags to slots and instants.
ghost use Rattle.std.specs.Prelude.{◌≡◌, ℕ, ◌+◌, ◌*◌, ◌<◌, ◌≤◌, ◌↔◌, IfSome};
ghost use Rattle.pdc_frame.specs.Slot.{IsSlot, slot_of};
ghost use Rattle.pdc_frame.specs.Instant.{IsInstant, instant_of};

use crate::nearest::{MILLION, nearest, nearest_million};
use crate::tag_limits::{COUNT_LIMIT, MAX_RATE, SECONDS};

/// Which frame of its second the tag `frac`/`time_base` stands for, at `rate` frames a second, counted from 0.
///
/// The grid point k/rate nearest to the tag, the upper of two equally near, if the tag lies in its second and is less
/// than one count off; else `None`, also under `TIME_BASE` 0 (FRACSEC and `TIME_BASE` are of
/// C37.118.2-2011, 6.2).
#[tactic(auto, unfolding(crate::specs::Slot::slot_of))]
pub fn slot(frac: u32, time_base: u32, rate: u32) -> Option<u32>
    requires rate { 1 ≤ rate }
    requires max_rate { rate ≤ MAX_RATE }
    requires frac { frac < COUNT_LIMIT }
    requires time_base { time_base < COUNT_LIMIT }
    ensures slot { (k : ℕ) → (result ≡ Some k) ↔ IsSlot frac time_base rate k }
    ensures none { (result ≡ None) ↔ ((k : ℕ) → ¬ IsSlot frac time_base rate k) }
    ensures in_second { IfSome result (λ k. k < rate) }
    ensures value { result ≡ slot_of frac time_base rate }
{
    if frac >= time_base {
        return None;
    }
    let (tag, step) = (u64::from(frac) * u64::from(rate), u64::from(time_base));
    let k = if time_base == MILLION {
        nearest_million(tag)
    } else {
        nearest(tag, step)
    };
    if tag.abs_diff(k * step) < u64::from(rate) {
        Some(k as u32)
    } else {
        None
    }
}

/// The instant of the tag `soc`, `frac`/`time_base`: the number of its frame since SOC 0, at `rate` frames a second.
///
/// `soc` times `rate` and the tag's slot; `None` exactly where the tag has no slot.
#[tactic(auto, unfolding(crate::specs::Instant::instant_of))]
pub fn instant(soc: u32, frac: u32, time_base: u32, rate: u32) -> Option<u64>
    requires rate { 1 ≤ rate }
    requires max_rate { rate ≤ MAX_RATE }
    requires frac { frac < COUNT_LIMIT }
    requires time_base { time_base < COUNT_LIMIT }
    ensures instant { (i : ℕ) → (result ≡ Some i) ↔ IsInstant soc frac time_base rate i }
    ensures none { (result ≡ None) ↔ ((k : ℕ) → ¬ IsSlot frac time_base rate k) }
    ensures below { IfSome result (λ i. i < SECONDS * rate) }
    ensures value { result ≡ instant_of soc frac time_base rate }
{
    let k = slot(frac, time_base, rate)?;
    Some(u64::from(soc) * u64::from(rate) + u64::from(k))
}
