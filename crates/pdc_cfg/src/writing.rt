//! A configuration, written as a frame CFG-1 or CFG-2.
ghost use Rattle.std.specs.Prelude.{◌≡◌, ◌+◌, ◌*◌, ◌^◌, ◌<◌, ◌≤◌, ◌++◌, length, FitsSigned, IsOk};
ghost use Rattle.std.specs.Prelude.{OnOk, OnErr};
ghost use Rattle.std.specs.List.{flat_map};
ghost use Rattle.std.specs.Int.{w16, w32, to_be_bytes, cast_unsigned};
ghost use Rattle.pdc_frame.specs.Frame.{spelling_of, IsFrame};
ghost use Rattle.pdc_frame.specs.declared.limits.TheConstants.{OVERHEAD};
ghost use Rattle.pdc_cfg.specs.Config.{IsConfigKind, IsConfig, config_fields_of, config_frame_of};
ghost use Rattle.pdc_cfg.specs.Config.{payload_of};

use crate::config::{ConfigView, MAX_SECTIONS};
use crate::limits::FIXED_LEN;
use crate::section::{MAX_SECTION_LEN, SectionView};
use pdc_frame::{
    Buffer, Frame, Kind, StreamId, begin_frame, end_frame, frames_are_written_in_parts,
    parts_keep_their_words, words_are_their_bytes,
};
use std::alloc::AllocError;

/// The bytes of the sections, one after the other.
fn sections_len(sections: &[SectionView]) -> usize
    requires { length sections.now ≤ MAX_SECTIONS }
    ensures value { result ≡ length (flat_map (λ s. s.bytes.now) sections.now) }
    ensures most { result ≤ MAX_SECTION_LEN * MAX_SECTIONS }
{
    let mut len = 0;
    for section in sections {
        len += section.bytes.len();
    }
    len
}

/// Appends TIME_BASE and NUM_PMU. It takes no memory.
#[inline(always)]
fn append_start<B: Buffer>(config: &ConfigView, out: &mut B)
    requires { length (B.content out.old) + 6 ≤ B.capacity out.old }
    ensures content { B.content out.new ≡ B.content out.old ++
        (to_be_bytes w32 (config.now.flags * 2 ^ 24 + config.now.time_base)
        ++ to_be_bytes w16 (length config.now.sections.items)) }
    ensures in_place { B.capacity out.new ≡ B.capacity out.old }
    ensures flags { config.now.flags < 2 ^ 8 }
{
    let base = (u32::from(config.flags) << 24) + config.time_base;
    out.append_few(&base.to_be_bytes());
    let count = config.sections.len() as u16;
    out.append_few(&count.to_be_bytes());
}

/// Appends the bytes of the sections, one after the other. It takes no memory.
#[inline(always)]
fn append_sections<B: Buffer>(sections: &[SectionView], out: &mut B)
    requires { length (B.content out.old) +
        length (flat_map (λ s. s.bytes.now) sections.now) ≤ B.capacity out.old }
    ensures content { B.content out.new ≡ B.content out.old ++
        flat_map (λ s. s.bytes.now) sections.now }
    ensures in_place { B.capacity out.new ≡ B.capacity out.old }
{
    for section in sections {
        out.append_bytes(section.bytes);
    }
}

/// Appends DATA_RATE. It takes no memory.
#[inline(always)]
fn append_rate<B: Buffer>(rate: i16, out: &mut B)
    requires { length (B.content out.old) + 2 ≤ B.capacity out.old }
    ensures content { B.content out.new ≡ B.content out.old ++
        to_be_bytes w16 (cast_unsigned w16 rate) }
    ensures in_place { B.capacity out.new ≡ B.capacity out.old }
{
    let word = rate.cast_unsigned();
    out.append_few(&word.to_be_bytes());
}

/// The bytes of the configuration.
fn payload_len(config: &ConfigView) -> usize
    ensures value { result ≡ length (payload_of (config_fields_of config.now)) }
    ensures most { result ≤ FIXED_LEN + MAX_SECTION_LEN * MAX_SECTIONS }
{
    FIXED_LEN + sections_len(config.sections.as_slice())
}

/// Appends the bytes of the configuration. It takes no memory.
#[inline(always)]
fn append_payload<B: Buffer>(config: &ConfigView, out: &mut B)
    requires { length (B.content out.old) +
        length (payload_of (config_fields_of config.now)) ≤ B.capacity out.old }
    ensures content { B.content out.new ≡ B.content out.old ++
        payload_of (config_fields_of config.now) }
    ensures in_place { B.capacity out.new ≡ B.capacity out.old }
    ensures config { IsConfig (payload_of (config_fields_of config.now))
        (config_fields_of config.now) }
{
    append_start(config, out);
    append_sections(config.sections.as_slice(), out);
    append_rate(config.rate, out);
}

/// Appends the frame that has this configuration: version 2, time quality 0 and count 0 in FRACSEC.
///
/// # Errors
///
/// [`AllocError`] where `out` has no room and gets none.
#[inline(always)]
pub fn write_config<B: Buffer>(
    config: &ConfigView,
    kind: Kind,
    id: StreamId,
    soc: u32,
    out: &mut B,
) -> Result<(), AllocError>
    requires kind { IsConfigKind kind }
    // What is appended is the frame with these fields,
    ensures ok { OnOk result (B.content out.new ≡ B.content out.old ++
        spelling_of (config_frame_of kind id.value soc (config_fields_of config.now))) }
    // which is read back, and its payload is this configuration.
    ensures frame { IsFrame (spelling_of (config_frame_of kind id.value soc
        (config_fields_of config.now))) (config_frame_of kind id.value soc
        (config_fields_of config.now)) }
    ensures config { OnOk result (IsConfig (payload_of (config_fields_of config.now))
        (config_fields_of config.now)) }
    // It fails only where there was no room, and then nothing is appended.
    ensures err { OnErr result ((B.content out.new ≡ B.content out.old)
        × (B.capacity out.new ≡ B.capacity out.old)) }
    ensures room { length (B.content out.old) +
        length (spelling_of (config_frame_of kind id.value soc (config_fields_of config.now))) ≤
        B.capacity out.old → IsOk result }
    // A request for the whole frame was refused.
    ensures refused { OnErr result (B.refused out.new
        (length (payload_of (config_fields_of config.now)) + OVERHEAD)) }
    // Where there was room, it takes no memory.
    ensures in_place { length (B.content out.old) +
        length (spelling_of (config_frame_of kind id.value soc (config_fields_of config.now))) ≤
        B.capacity out.old
        → B.capacity out.new ≡ B.capacity out.old }
    ensures capacity { B.capacity out.old ≤ B.capacity out.new }
{
    words_are_their_bytes();
    parts_keep_their_words();
    frames_are_written_in_parts();
    let head = Frame {
        kind,
        version: 2,
        id,
        soc,
        quality: 0,
        frac: 0,
        payload: &[],
    };
    let start = out.content().len();
    begin_frame(&head, payload_len(config), out)?;
    append_payload(config, out);
    end_frame(start, out);
    Ok(())
}
