//! What a mark may be raised to: the floor that an instant needs, and the greater of two counts.
ghost use Rattle.std.specs.Prelude.{◌≡◌, ◌+◌, ◌<◌, ◌≤◌, ℕ, slice_index, IfNone, IfSome};
ghost use Rattle.pdc_mark.specs.declared.layout.TheConstants.{COUNTS};
ghost use Rattle.pdc_mark.specs.Counts.{IsGreater, IsRaise, raised_to};

use crate::layout::COUNTS;

/// The floor that the instant needs, where it is above the stored one: the instant with so many behind it. It is what
/// [`Mark::reserve`](crate::Mark::reserve) may be given for a mark that stores this floor.
pub fn needed_floor(floor: u64, instant: u64, lead: u16) -> Option<u64>
    requires { instant + lead ≤ u64.MAX }
    ensures needed { IfSome result (λ needed. needed ≡ instant + lead) }
    ensures above { IfSome result (λ _. floor < instant) }
    ensures none { IfNone result (instant ≤ floor) }
{
    if instant <= floor {
        return None;
    }
    Some(instant + u64::from(lead))
}

/// The greater of each two counts, where that differs from `counts`: what [`Mark::raise`](crate::Mark::raise) may be
/// given for a mark that stores `counts`.
pub fn raised(counts: &[u16; COUNTS], others: &[u16; COUNTS]) -> Option<[u16; COUNTS]>
    ensures value { IfSome result (λ greater. greater ≡ raised_to counts.now others.now) }
    ensures raise { IfSome result (IsRaise counts.now) }
    ensures same { IfNone result (counts.now ≡ raised_to counts.now others.now) }
    ensures greater { IfSome result (IsGreater counts.now others.now) }
    ensures stays { IfNone result (IsGreater counts.now others.now counts.now) }
    ensures none { IfNone result ((i : ℕ) → slice_index others.now i ≤ slice_index counts.now i) }
{
    raised_each(counts, others)
}

/// The same, count by count.
fn raised_each(counts: &[u16; COUNTS], others: &[u16; COUNTS]) -> Option<[u16; COUNTS]>
    ensures greater { IfSome result (IsGreater counts.now others.now) }
    ensures raise { IfSome result (IsRaise counts.now) }
    ensures none { IfNone result ((i : ℕ) → slice_index others.now i ≤ slice_index counts.now i) }
{
    let mut raised = *counts;
    let mut differs = false;
    for i in 0..COUNTS {
        raised[i] = raised[i].max(others[i]);
        differs |= counts[i] < others[i];
    }
    if differs { Some(raised) } else { None }
}
