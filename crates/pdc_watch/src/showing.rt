//! From what is known to what is shown.
ghost use Rattle.std.specs.Prelude.{◌≤◌};
ghost use Rattle.pdc_watch.specs.declared.cell.TheConstants.{MAX_RATE};

use crate::age::is_old;
use crate::heard::Heard;
use crate::now::Now;
use crate::origin::Origin;
use crate::phasors::{analogs_of, digitals_of, phasors_of};
use crate::pmu::Pmu;
use crate::presences::{CELLS, rows_of};
use crate::shown::{Shown, ShownAgreement, ShownPmu};
use crate::station::Station;
use crate::streams::stream_shown;
use crate::strip::POINTS;
use crate::watch::Watch;
use crate::who::Three;
use serde_json::Error;
use std::alloc::{AllocError, Global};

/// How far the matrix ends before the newest data, so that all streams have had time to bring it, in tenths of seconds.
const BEHIND_DATA: u64 = 3;

/// How far it ends before now at most.
const BEHIND_NOW: u64 = 10;

/// FREQ is in thousandths of a hertz, and DFREQ in hundredths of a hertz a second.
const MILLI: f64 = 1000.0;

const CENTI: f64 = 100.0;

/// The word as a signed number, if there is one.
fn signed_at(words: &[u16], place: usize) -> Option<i16> {
    words.get(place).map(|word| word.cast_signed())
}

/// A time that is 0 where there is none.
fn known(ms: u64) -> Option<u64> {
    if ms > 0 { Some(ms) } else { None }
}

/// How long ago that was, in ms.
fn age_of(came: Option<Now>, now: Now) -> Option<u64> {
    let came = came?;
    Some(now.steady_ms.saturating_sub(came.steady_ms))
}

/// Whether what came then is old now; what never came is not.
fn is_old_since(came: Option<Now>, now: Now, rate: u32) -> bool {
    match came {
        Some(came) => is_old(came.steady_ms, now.steady_ms, rate),
        None => false,
    }
}

/// The strips of a PMU that end with this fifth of a second: frequency and its change.
fn strips_of(
    alloc: Global,
    pmu: &Pmu,
    last: u64,
) -> Result<(Vec<Option<i16>>, Vec<Option<i16>>), AllocError> {
    let (mut freqs, mut dfreqs) = (Vec::new(alloc), Vec::new(alloc));
    for place in 1..=POINTS as u64 {
        let point = pmu
            .strip
            .at(last.saturating_add(place).saturating_sub(POINTS as u64));
        freqs.push(point.map(|point| point.freq))?;
        dfreqs.push(point.map(|point| point.dfreq))?;
    }
    Ok((freqs, dfreqs))
}

/// What is shown of a PMU now. Where nothing came of it, it has no values.
fn pmu_shown<'a>(
    alloc: Global,
    pmu: &Pmu,
    station: &'a Station,
    rate: u32,
    last: u64,
    now: Now,
) -> Result<ShownPmu<'a>, AllocError>
    requires { rate ≤ MAX_RATE }
{
    let words = pmu.words.as_slice();
    let freq = 1 + 2 * usize::from(station.shape.phasors);
    let values = words.get(freq + 2..).unwrap_or(&[]);
    let digitals = values
        .get(usize::from(station.shape.analogs)..)
        .unwrap_or(&[]);
    let nominal = if station.is_50 { 50u8 } else { 60 };
    let (deviation_mhz, rocof_chz_per_s) = strips_of(alloc, pmu, last / 2)?;
    Ok(ShownPmu {
        source: pmu.source,
        name: station.name.as_str(),
        nominal_hz: nominal,
        last_ms: known(pmu.ms),
        came_ms: pmu.came.map(|came| came.utc_ms),
        age_ms: age_of(pmu.came, now),
        old: is_old_since(pmu.came, now, rate),
        stat: words.first().copied(),
        frequency_hz: signed_at(words, freq).map(|deviation| f64::from(nominal)
            + f64::from(deviation) / MILLI),
        rocof_hz_per_s: signed_at(words, freq + 1).map(|change| f64::from(change) / CENTI),
        presence: rows_of(
            alloc,
            &pmu.presence,
            rate,
            last.saturating_add(1).saturating_sub(CELLS),
        )?,
        phasors: phasors_of(alloc, station, words)?,
        analogs: analogs_of(alloc, station, values)?,
        digitals: digitals_of(alloc, station.shape.digitals, digitals)?,
        deviation_mhz,
        rocof_chz_per_s,
    })
}

/// What a stream's configuration says of this source.
fn station_in(stations: &[Station], source: u16) -> Option<&Station> {
    stations.iter().find(|station| station.source == source)
}

/// What the first configuration of M, A and B that speaks of it says of this source.
fn station_of(heard: &Three<Heard>, source: u16) -> Option<&Station> {
    if let Some(station) = station_in(heard.m.stations.as_slice(), source) {
        return Some(station);
    }
    if let Some(station) = station_in(heard.a.stations.as_slice(), source) {
        return Some(station);
    }
    station_in(heard.b.stations.as_slice(), source)
}

/// The last tenth of a second of the matrix.
fn last_tenth(newest_ms: u64, now_ms: u64) -> u64 {
    (newest_ms / 100)
        .saturating_sub(BEHIND_DATA)
        .max((now_ms / 100).saturating_sub(BEHIND_NOW))
}

/// What is shown of all PMUs.
fn pmus_shown(
    alloc: Global,
    watch: &Watch,
    last: u64,
    now: Now,
) -> Result<Vec<ShownPmu<'_>>, AllocError> {
    let mut pmus = Vec::new(alloc);
    for pmu in watch.pmus.as_slice() {
        if let Some(station) = station_of(&watch.heard, pmu.source) {
            pmus.push(pmu_shown(alloc, pmu, station, watch.rate, last, now)?)?;
        }
    }
    Ok(pmus)
}

/// What is shown now of a pair whose streams come from there.
fn shown_of<'a>(
    alloc: Global,
    watch: &'a Watch,
    origins: &'a Three<Origin>,
    now: Now,
) -> Result<Shown<'a>, AllocError> {
    let rate = watch.rate;
    let last = last_tenth(watch.newest_ms, now.utc_ms);
    let heard = &watch.heard;
    let mut streams = Vec::new(alloc);
    streams.push(stream_shown(alloc, &heard.a, "A", &origins.a, rate, now)?)?;
    streams.push(stream_shown(alloc, &heard.b, "B", &origins.b, rate, now)?)?;
    streams.push(stream_shown(alloc, &heard.m, "M", &origins.m, rate, now)?)?;
    let agreement = watch.agreement;
    Ok(Shown {
        now_ms: now.utc_ms,
        begun_ms: watch.begun_ms,
        rate,
        until_ms: last.saturating_add(1).saturating_mul(100),
        streams,
        pmus: pmus_shown(alloc, watch, last, now)?,
        agreement: ShownAgreement {
            instants: agreement.equal.saturating_add(agreement.different),
            equal: agreement.equal,
            different: agreement.different,
        },
    })
}

/// What is shown now of a pair whose streams come from there, as `/data.json` says it.
///
/// # Errors
///
/// Where there is no memory for it.
pub fn json_of(
    alloc: Global,
    watch: &Watch,
    origins: &Three<Origin>,
    now: Now,
) -> Result<Vec<u8>, Error> {
    let shown = shown_of(alloc, watch, origins, now)?;
    serde_json::to_vec(alloc, &shown)
}
