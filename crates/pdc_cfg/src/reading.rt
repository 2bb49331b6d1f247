//! A configuration, read from a frame CFG-1 or CFG-2.
ghost use Rattle.std.specs.Prelude.{◌≡◌, ◌<◌, ◌≤◌, ◌↔◌, [], IfOk, IfErr, IsOkAnd, IsTrue, length};
ghost use Rattle.std.specs.Prelude.{map};
ghost use Rattle.arrayvec.specs.ArrayVec.{array_vec_len};
ghost use Rattle.pdc_cfg.specs.Section.{fields_of_view};
ghost use Rattle.pdc_cfg.specs.Config.{ConfigFields, config_fields_of, IsConfigKind, IsConfig};
ghost use Rattle.pdc_cfg.specs.Config.{IsPayloadFault, IsFirstFault, Begins, body_in};
ghost use Rattle.pdc_cfg.specs.Config.{section_count_in};

use crate::config::{ConfigView, MAX_SECTIONS};
use crate::fault::CfgFault;
use crate::limits::FIXED_LEN;
use crate::section::SectionView;
use crate::section_reading::{only, read_only_section, read_sections};
use arrayvec::ArrayVec;
use pdc_frame::{Frame, Kind, parts_keep_their_words, read_long, read_word, words_are_their_bytes};

/// Where the fields of a configuration stand (C37.118.2-2011, table 8).
const COUNT_PLACE: usize = 4;

const SECTIONS_PLACE: usize = 6;

/// Whether a frame of this kind has a configuration.
fn is_config_kind(kind: Kind) -> bool
    ensures { IsTrue result ↔ IsConfigKind kind }
{
    match kind {
        Kind::Cfg1 | Kind::Cfg2 => true,
        _ => false,
    }
}

/// Whether NUM_PMU is there, and is 1.
fn has_one_section(payload: &[u8]) -> bool
    ensures { IsTrue result ↔ ((FIXED_LEN ≤ length payload.now)
        × (section_count_in payload.now ≡ 1)) }
{
    payload.len() >= FIXED_LEN && read_word(payload, COUNT_PLACE) == 1
}

/// The configuration that a payload is, whose sections were read.
#[inline(always)]
fn config_of<'a>(
    payload: &[u8],
    sections: ArrayVec<SectionView<'a>, MAX_SECTIONS>,
) -> ConfigView<'a>
    requires long { FIXED_LEN ≤ length payload.now }
    requires some { 0 < array_vec_len sections }
    requires count { section_count_in payload.now ≡ array_vec_len sections }
    requires sections { Begins (body_in payload.now) (map fields_of_view sections.items) [] }
    ensures { IsConfig payload.now (config_fields_of result) }
{
    words_are_their_bytes();
    let base = read_long(payload, 0);
    ConfigView {
        flags: (base >> 24) as u8,
        time_base: base & 0x00FF_FFFF,
        sections,
        rate: read_word(payload, payload.len() - 2).cast_signed(),
    }
}

/// The configuration that a payload is.
#[inline(always)]
fn read_payload(payload: &[u8]) -> Result<ConfigView<'_>, CfgFault>
    ensures found { IfOk result (λ c. IsConfig payload.now (config_fields_of c)) }
    ensures only { (c : ConfigFields) → IsConfig payload.now c →
        IsOkAnd result (λ view. config_fields_of view ≡ c) }
    ensures fault { IfErr result (IsPayloadFault payload.now) }
{
    words_are_their_bytes();
    parts_keep_their_words();
    if payload.len() < FIXED_LEN {
        return Err(CfgFault::Cut);
    }
    let count = read_word(payload, COUNT_PLACE);
    if count == 0 || usize::from(count) > MAX_SECTIONS {
        return Err(CfgFault::TooMany);
    }
    let end = payload.len() - 2;
    let mut sections = ArrayVec::new();
    read_sections(count, &payload[SECTIONS_PLACE..end], &mut sections)?;
    Ok(config_of(payload, sections))
}

/// The configuration that a frame is. It takes no memory: the sections are lent from the frame.
///
/// It is a call of its own, which writes the configuration once, where the caller keeps it. Most have one section, of one PMU: that one is
/// read apart, without a list that is filled and then copied.
///
/// # Errors
///
/// The first fault in reading order.
#[inline(never)]
pub fn read_config<'a>(frame: &Frame<'a>) -> Result<ConfigView<'a>, CfgFault>
    // What is read is spelled so, in a frame of that kind.
    ensures kind { IfOk result (λ _. IsConfigKind frame.now.kind) }
    ensures found { IfOk result (λ c. IsConfig frame.now.payload.now (config_fields_of c)) }
    // What is spelled so is read, with these sections.
    ensures only { (c : ConfigFields) → IsConfigKind frame.now.kind →
        IsConfig frame.now.payload.now c
        → IsOkAnd result (λ view. config_fields_of view ≡ c) }
    // Which fault it is.
    ensures fault { IfErr result (IsFirstFault frame.now.kind frame.now.payload.now) }
{
    words_are_their_bytes();
    parts_keep_their_words();
    if !is_config_kind(frame.kind) {
        return Err(CfgFault::WrongKind);
    }
    let payload = frame.payload;
    if has_one_section(payload) {
        let section = read_only_section(&payload[SECTIONS_PLACE..payload.len() - 2])?;
        return Ok(config_of(payload, only(section)));
    }
    read_payload(payload)
}
