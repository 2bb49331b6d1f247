//! Look-ups, each in one bucket.
ghost use Rattle.std.specs.Prelude.{◌≡◌, ℕ, ◌+◌, ◌↔◌, List, Some, IsTrue, MatchOption, map};
ghost use Rattle.std.specs.Prelude.{option_map};
ghost use Rattle.std.specs.List.{Contains, slice_get};
ghost use Rattle.pdc_history.specs.Index.{IsIndexed, bucket_of};
ghost use Rattle.pdc_history.specs.Sent.{HasTold, HasToldNothing};
ghost use Rattle.pdc_history.specs.declared.buckets.TheConstants.{BUCKETS};

use crate::buckets::{bucket_of, bucket_under};
use crate::chains::Chains;
use crate::frames::Frames;
use crate::key::Key;
use crate::told::content_under;
use pdc_life::{Pmu, Settings};

/// Whether these bytes are among the frames, which are in the buckets of their check words.
pub(crate) fn has_frame(frames: &Frames, by_check: &Chains, bytes: &[u8]) -> bool
    requires keys { by_check.now.keys ≡ map bucket_of frames.now.frames }
    requires buckets { by_check.now.buckets ≡ BUCKETS }
    ensures { IsTrue result ↔ Contains frames.now.frames bytes.now }
{
    let bucket = bucket_of(bytes);
    let mut next = by_check.last(bucket);
    while let Some(number) = next {
        if frames.at(number) == bytes {
            return true;
        }
        next = by_check.before(number);
    }
    false
}

/// What a PMU told under this key, which is one thing.
pub(crate) fn content_told<'a>(
    settings: &Settings,
    pmu: &Pmu,
    frames: &'a Frames,
    by_key: &Chains,
    key: Key,
) -> Option<&'a [u8]>
    requires index { IsIndexed settings.now frames.now.frames by_key.now.keys }
    requires buckets { by_key.now.buckets ≡ BUCKETS + 1 }
    ensures { (p : ℕ) → slice_get settings.now.pmus.items p ≡ Some pmu.now →
        MatchOption result (HasToldNothing settings.now frames.now.frames pmu.now key)
        (λ content. HasTold settings.now frames.now.frames pmu.now key content.now) }
{
    let bucket = bucket_under(pmu.stream.value, key);
    let mut next = by_key.last(bucket);
    while let Some(number) = next {
        let content = content_under(settings, pmu, key, frames.at(number));
        if content.is_some() {
            return content;
        }
        next = by_key.before(number);
    }
    None
}
