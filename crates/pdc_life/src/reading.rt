//! What bytes say that arrived for a PMU.
ghost use Rattle.std.specs.Prelude.{◌≡◌, ℕ, IfErr, IfOk, List};
ghost use Rattle.pdc_row.specs.pdc_frame.Frame.{fields_of};
ghost use Rattle.pdc_row.specs.pdc_frame.declared.frame.Kind.TheVariants.{DataFrame, Cfg2};
ghost use Rattle.pdc_row.specs.pdc_cfg.Config.{config_fields_of};
ghost use Rattle.pdc_row.specs.pdc_cfg.Section.{fields_of_view};
ghost use Rattle.pdc_life.specs.NodeReading.{IsRefused, IsValid, Reads, stream_of};
ghost use Rattle.pdc_life.specs.Reading.{HasConfig, IsOfStream};
ghost use Rattle.pdc_life.specs.Views.{arrival_view};

use crate::given::Settings;
use crate::outcome::Refusal;
use crate::pmu::Pmu;
use pdc_row::{CfgFault, ConfigView, Frame, Kind, SectionView, instant, read_config, read_frame};

/// What bytes say that arrived for a stream, whatever came before. `C` is what is read of a configuration: its one section where a
/// PMU sent it, its frame where a node did.
#[derive(Clone, Copy, Debug)]
pub enum Reading<'a, C> {
    /// They are refused.
    BytesRefused(Refusal),
    /// A data frame of the stream.
    Data {
        /// The instant of its tag.
        instant: u64,
        /// Its time quality byte.
        quality: u8,
        /// What stands between FRACSEC and CHK.
        payload: &'a [u8],
    },
    /// A configuration of the stream.
    Configuration(C),
}

/// What bytes say that arrived for a PMU: of a valid configuration its one section. It takes no memory: the payload and the section
/// are lent from the bytes.
pub fn read_arrival<'a>(
    settings: &Settings,
    pmu: &Pmu,
    bytes: &'a [u8],
) -> Reading<'a, SectionView<'a>>
    // It is so for the PMU of any number: a configuration is of its column.
    ensures { (p : ℕ) → Reads settings.now p pmu.now bytes.now (arrival_view p result) }
{
    let frame = match read_frame(bytes) {
        Ok(frame) => frame,
        Err(fault) => return Reading::BytesRefused(Refusal::NoFrame(fault)),
    };
    if frame.id.value != pmu.stream.value {
        return Reading::BytesRefused(Refusal::WrongId);
    }
    match frame.kind {
        Kind::DataFrame => read_data(settings, pmu, &frame),
        Kind::Cfg2 => match read_configuration(settings, pmu, frame) {
            Ok(section) => Reading::Configuration(section),
            Err(refusal) => Reading::BytesRefused(refusal),
        },
        _ => Reading::BytesRefused(Refusal::NoConfiguration(CfgFault::WrongKind)),
    }
}

/// What a data frame of the PMU's stream says.
fn read_data<'a>(settings: &Settings, pmu: &Pmu, frame: &Frame<'a>) -> Reading<'a, SectionView<'a>>
    ensures { (p : ℕ) (bytes : List ℕ) →
        IsOfStream (stream_of settings.now pmu.now) bytes (fields_of frame.now) →
        frame.now.kind ≡ DataFrame
        → Reads settings.now p pmu.now bytes (arrival_view p result) }
{
    let rate = u32::from(settings.output.rate);
    match instant(frame.soc, frame.frac, pmu.time_base, rate) {
        Some(instant) => Reading::Data {
            instant,
            quality: frame.quality,
            payload: frame.payload,
        },
        None => Reading::BytesRefused(Refusal::BadTag),
    }
}

/// The section that a CFG-2 frame of the PMU's stream says. It is seldom, and so a call of its own, with a frame of its own: that of data stays in
/// registers, and so does what is read of it.
///
/// # Errors
///
/// Why the bytes are refused.
#[inline(never)]
fn read_configuration<'a>(
    settings: &Settings,
    pmu: &Pmu,
    frame: Frame<'a>,
) -> Result<SectionView<'a>, Refusal>
    ensures valid { (bytes : List ℕ) →
        IsOfStream (stream_of settings.now pmu.now) bytes (fields_of frame.entry) →
        frame.entry.kind ≡ Cfg2
        → IfOk result (λ section. IsValid settings.now pmu.now bytes (fields_of_view section)) }
    ensures refused { (bytes : List ℕ) →
        IsOfStream (stream_of settings.now pmu.now) bytes (fields_of frame.entry) →
        frame.entry.kind ≡ Cfg2
        → IfErr result (IsRefused settings.now pmu.now bytes) }
{
    match read_config(&frame) {
        Ok(config) => read_section(settings, pmu, &config),
        Err(fault) => Err(Refusal::NoConfiguration(fault)),
    }
}

/// The section that a configuration of the PMU's stream says.
///
/// # Errors
///
/// Why the bytes are refused.
fn read_section<'a>(
    settings: &Settings,
    pmu: &Pmu,
    config: &ConfigView<'a>,
) -> Result<SectionView<'a>, Refusal>
    ensures valid { (bytes : List ℕ) →
        HasConfig (stream_of settings.now pmu.now) bytes (config_fields_of config.now)
        → IfOk result (λ section. IsValid settings.now pmu.now bytes (fields_of_view section)) }
    ensures refused { (bytes : List ℕ) →
        HasConfig (stream_of settings.now pmu.now) bytes (config_fields_of config.now)
        → IfErr result (IsRefused settings.now pmu.now bytes) }
{
    if config.sections.len() != 1 {
        return Err(Refusal::NoConfiguration(CfgFault::TooMany));
    }
    if config.time_base != pmu.time_base {
        return Err(Refusal::WrongTimeBase);
    }
    if config.rate.cast_unsigned() != settings.output.rate {
        return Err(Refusal::WrongRate);
    }
    let section = config.sections[0];
    if section.source != pmu.source {
        return Err(Refusal::WrongSource);
    }
    Ok(section)
}
