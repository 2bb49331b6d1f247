//! Whether a PMU may send a frame, and in which bucket it is found then.
ghost use Rattle.std.specs.Prelude.{◌≡◌, ℕ, ◌+◌, ◌<◌, ◌≤◌, Some, length, IfErr, IfOk};
ghost use Rattle.std.specs.Prelude.{MatchOption, OnErr, OnOk, OnSome};
ghost use Rattle.std.specs.List.{slice_get};
ghost use Rattle.pdc_frame.specs.declared.limits.TheConstants.{MAX_SIZE};
ghost use Rattle.pdc_history.specs.Index.{Fits, IsIndexed, bucket_under};
ghost use Rattle.pdc_history.specs.Sent.{HasToldAtMost, HasToldOther, HaveNoStream, HaveStream};
ghost use Rattle.pdc_history.specs.Sent.{IsOfNone, IsOfSome, IsRefused, MaySendAfter, fault_of};
ghost use Rattle.pdc_history.specs.declared.buckets.TheConstants.{BUCKETS};

use crate::buckets::{BUCKETS, bucket_under};
use crate::chains::Chains;
use crate::frames::Frames;
use crate::key::Key;
use crate::looking_up::content_told;
use crate::send_fault::SendFault;
use crate::told::{Told, told_by};
use pdc_frame::{frames_are_read_in_one_way, frames_are_written_in_parts, read_frame};
use pdc_life::{Pmu, Settings};

/// The PMU of this stream.
fn pmu_of_stream(pmus: &[Pmu], id: u16) -> Option<&Pmu>
    ensures { MatchOption result (HaveNoStream pmus.now id) (λ pmu. HaveStream pmus.now id pmu.now) }
{
    for pmu in pmus {
        if pmu.stream.value == id {
            return Some(pmu);
        }
    }
    None
}

/// The PMU of the table whose frame this is.
pub(crate) fn pmu_of<'a>(settings: &'a Settings, bytes: &[u8]) -> Option<&'a Pmu>
    ensures pmu { MatchOption result (IsOfNone settings.now bytes.now)
        (λ pmu. IsOfSome settings.now bytes.now pmu.now) }
    ensures most { OnSome result (length bytes.now ≤ MAX_SIZE) }
{
    frames_are_written_in_parts();
    frames_are_read_in_one_way();
    let frame = read_frame(bytes).ok()?;
    pmu_of_stream(&settings.pmus, frame.id.value)
}

/// The fault of telling something else under this key.
fn fault_of(key: Key) -> SendFault
    ensures { result ≡ fault_of key }
{
    match key {
        Key::Instant(_) => SendFault::OtherBody,
        Key::Count(_) => SendFault::OtherSection,
    }
}

/// The bucket for what is told of a PMU, where it told nothing else under that key.
fn bucket_of_told(
    settings: &Settings,
    pmu: &Pmu,
    frames: &Frames,
    by_key: &Chains,
    told: Told<'_>,
) -> Result<usize, SendFault>
    requires index { IsIndexed settings.now frames.now.frames by_key.now.keys }
    requires buckets { by_key.now.buckets ≡ BUCKETS + 1 }
    ensures bucket { IfOk result (λ bucket. bucket ≡
        bucket_under pmu.now.stream.value told.entry.key) }
    ensures bound { IfOk result (λ bucket. bucket < BUCKETS) }
    ensures same { (p : ℕ) → slice_get settings.now.pmus.items p ≡ Some pmu.now →
        OnOk result (HasToldAtMost settings.now frames.now.frames pmu.now told.entry.key
        told.entry.content.now) }
    ensures fault { IfErr result (λ fault. fault ≡ fault_of told.entry.key) }
    ensures other { (p : ℕ) → slice_get settings.now.pmus.items p ≡ Some pmu.now →
        OnErr result (HasToldOther settings.now frames.now.frames pmu.now told.entry.key
        told.entry.content.now) }
{
    match content_told(settings, pmu, frames, by_key, told.key) {
        Some(content) if content != told.content => Err(fault_of(told.key)),
        _ => Ok(bucket_under(pmu.stream.value, told.key)),
    }
}

/// The bucket in which the frame is found by what it tells, where a PMU may send it.
pub(crate) fn bucket_for(
    settings: &Settings,
    frames: &Frames,
    by_key: &Chains,
    bytes: &[u8],
) -> Result<usize, SendFault>
    requires index { IsIndexed settings.now frames.now.frames by_key.now.keys }
    requires buckets { by_key.now.buckets ≡ BUCKETS + 1 }
    ensures bound { IfOk result (λ bucket. bucket < BUCKETS + 1) }
    ensures most { OnOk result (length bytes.now ≤ MAX_SIZE) }
    ensures may { OnOk result (MaySendAfter settings.now frames.now.frames bytes.now) }
    ensures fits { IfOk result (Fits settings.now frames.now.frames bytes.now) }
    ensures fault { IfErr result (IsRefused settings.now frames.now.frames bytes.now) }
{
    frames_are_read_in_one_way();
    let Some(pmu) = pmu_of(settings, bytes) else {
        return Err(SendFault::Foreign);
    };
    match told_by(settings, pmu, bytes) {
        Some(told) => bucket_of_told(settings, pmu, frames, by_key, told),
        None => Ok(BUCKETS),
    }
}
