//! The laws of tags, each the contract of a function that does nothing.
ghost use Rattle.std.specs.Prelude.{◌≡◌, ℕ, ◌+◌, ◌*◌, ◌<◌, ◌≤◌, ◌↔◌};
ghost use Rattle.pdc_frame.specs.Slot.{IsSlot, slot_of};
ghost use Rattle.pdc_frame.specs.Instant.{IsInstant, instant_of};
ghost use Rattle.pdc_frame.specs.Tag.{IsTag, tag_of};

/// A tag has one slot at most, which lies in its second; `slot_of` computes it, and answers `None` where there is none.
pub fn slot_is_nearest()
    ensures computed { (frac time_base rate k : ℕ) →
        (slot_of frac time_base rate ≡ Some k) ↔ IsSlot frac time_base rate k }
    ensures none { (frac time_base rate : ℕ) →
        (slot_of frac time_base rate ≡ None) ↔ ((k : ℕ) → ¬ IsSlot frac time_base rate k) }
    ensures unique { (frac time_base rate k j : ℕ) → IsSlot frac time_base rate k →
        IsSlot frac time_base rate j → k ≡ j }
    ensures in_second { (frac time_base rate k : ℕ) → IsSlot frac time_base rate k → k < rate }
{}

/// A tag has one instant at most, and that has one second and slot; `instant_of` computes it.
pub fn instant_is_nearest()
    ensures computed { (soc frac time_base rate i : ℕ) →
        (instant_of soc frac time_base rate ≡ Some i) ↔ IsInstant soc frac time_base rate i }
    ensures none { (soc frac time_base rate : ℕ) →
        (instant_of soc frac time_base rate ≡ None) ↔ ((k : ℕ) → ¬ IsSlot frac time_base rate k) }
    ensures unique { (soc frac time_base rate i j : ℕ) → IsInstant soc frac time_base rate i →
        IsInstant soc frac time_base rate j → i ≡ j }
    ensures second { (soc frac time_base rate i : ℕ) → IsInstant soc frac time_base rate i →
        (soc * rate ≤ i) × (i < soc * rate + rate) }
{}

/// Each instant has exactly one tag, `tag_of` computes it, and its count lies below `TIME_BASE`.
pub fn tag_is_nearest()
    ensures computed { (i time_base rate soc frac : ℕ) → 1 ≤ rate →
        (tag_of i time_base rate ≡ (soc, frac)) ↔ IsTag i time_base rate soc frac }
    ensures exists { (i time_base rate : ℕ) → 1 ≤ rate →
        (soc : ℕ) × (frac : ℕ) × IsTag i time_base rate soc frac }
    ensures unique { (i time_base rate soc frac soc' frac' : ℕ) → IsTag i time_base rate soc frac →
        IsTag i time_base rate soc' frac' → (soc ≡ soc') × (frac ≡ frac') }
    ensures count { (i time_base rate soc frac : ℕ) → rate ≤ time_base →
        IsTag i time_base rate soc frac → frac < time_base }
{}

/// The instant of an instant's tag is the instant, at each `TIME_BASE` of at least the rate: by nearness alone, by
/// `instant_of` at whatever tag the instant has, and by both functions.
pub fn tag_comes_back()
    ensures by_nearness { (i time_base rate soc frac : ℕ) → rate ≤ time_base →
        IsTag i time_base rate soc frac → IsInstant soc frac time_base rate i }
    ensures of_any_tag { (i time_base rate soc frac : ℕ) → rate ≤ time_base →
        IsTag i time_base rate soc frac → instant_of soc frac time_base rate ≡ Some i }
    ensures of_tag_of { (i time_base rate : ℕ) → 1 ≤ rate → rate ≤ time_base →
        let tag = tag_of i time_base rate in instant_of tag.0 tag.1 time_base rate ≡ Some i }
{}
