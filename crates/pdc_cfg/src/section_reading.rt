//! The sections of a configuration, read one after the other.
ghost use Rattle.std.specs.Prelude.{◌≡◌, ◌+◌, ◌-◌, ◌≤◌, IfOk, IfErr, OnOk, MatchOption, [], ◌∷◌};
ghost use Rattle.std.specs.Prelude.{map, length, take};
ghost use Rattle.arrayvec.specs.ArrayVec.{array_vec_len};
ghost use Rattle.pdc_cfg.specs.Section.{fields_of_view, IsSectionFault, AreMany, phasors_in};
ghost use Rattle.pdc_cfg.specs.Section.{analogs_in, digitals_in};
ghost use Rattle.pdc_cfg.specs.Config.{Begins, IsBodyFault};

use crate::config::MAX_SECTIONS;
use crate::fault::CfgFault;
use crate::limits::SECTION_FIXED_LEN;
use crate::section::SectionView;
use crate::shape::{MAX_ANALOGS, MAX_DIGITALS, MAX_PHASORS, Shape};
use arrayvec::ArrayVec;
use pdc_frame::{parts_keep_their_words, read_word};

/// Where the fields of a section stand from STN on (C37.118.2-2011, table 9).
const SOURCE_PLACE: usize = 16;

const FORMAT_PLACE: usize = 18;

const PHASORS_PLACE: usize = 20;

const ANALOGS_PLACE: usize = 22;

const DIGITALS_PLACE: usize = 24;

/// The numbers of channels, where they are within the limits.
fn read_shape(bytes: &[u8]) -> Option<Shape>
    requires { SECTION_FIXED_LEN ≤ length bytes.now }
    ensures { MatchOption result (AreMany bytes.now)
        (λ s. (phasors_in bytes.now ≡ s.phasors) × (analogs_in bytes.now ≡ s.analogs)
        × (digitals_in bytes.now ≡ s.digitals)) }
{
    let phasors = read_word(bytes, PHASORS_PLACE);
    let analogs = read_word(bytes, ANALOGS_PLACE);
    let digitals = read_word(bytes, DIGITALS_PLACE);
    if phasors > u16::from(MAX_PHASORS)
        || analogs > u16::from(MAX_ANALOGS)
        || digitals > u16::from(MAX_DIGITALS)
    {
        return None;
    }
    Some(Shape {
        phasors: phasors as u8,
        analogs: analogs as u8,
        digitals: digitals as u8,
    })
}

/// The section at the front of the bytes, which may go on behind it.
#[inline(always)]
fn read_section(bytes: &[u8]) -> Result<SectionView<'_>, CfgFault>
    ensures front { IfOk result (λ s. s.bytes.now ≡ take (length s.bytes.now) bytes.now) }
    ensures within { IfOk result (λ s. length s.bytes.now ≤ length bytes.now) }
    ensures fault { IfErr result (IsSectionFault bytes.now) }
{
    parts_keep_their_words();
    if bytes.len() < SECTION_FIXED_LEN {
        return Err(CfgFault::Cut);
    }
    let Some(shape) = read_shape(bytes) else {
        return Err(CfgFault::TooMany);
    };
    // Bit 0 is set where phasors are polar; bits 1, 2 and 3 where phasors, analog values, FREQ and DFREQ are floats.
    let format = read_word(bytes, FORMAT_PLACE);
    if (format >> 1) & 0b111 != 0 {
        return Err(CfgFault::FloatFormat);
    }
    let len = shape.section_len();
    if bytes.len() < len {
        return Err(CfgFault::Cut);
    }
    let section = &bytes[..len];
    Ok(SectionView {
        bytes: section,
        shape,
        source: read_word(section, SOURCE_PLACE),
        count: read_word(section, len - 2),
        polar: format & 1 == 1,
    })
}

/// The section that the bytes are, all of the bytes.
#[inline(always)]
pub(crate) fn read_only_section(body: &[u8]) -> Result<SectionView<'_>, CfgFault>
    ensures found { IfOk result (λ s. Begins body.now (fields_of_view s ∷ []) []) }
    ensures fault { IfErr result (IsBodyFault 1 body.now) }
{
    let section = read_section(body)?;
    if section.bytes.len() < body.len() {
        return Err(CfgFault::Cut);
    }
    Ok(section)
}

/// The list of this section alone. It is not pushed: so the compiler knows what each place holds, and the list is written once, where the
/// caller keeps it.
#[inline(always)]
pub(crate) fn only(section: SectionView<'_>) -> ArrayVec<SectionView<'_>, MAX_SECTIONS>
    ensures items { result.items ≡ section.entry ∷ [] }
    ensures len { array_vec_len result ≡ 1 }
{
    let mut sections = ArrayVec::from_array_in((), [section; MAX_SECTIONS]);
    sections.truncate(1);
    sections
}

/// Reads the sections that the bytes are, all of the bytes. They go where the caller holds them: a list of so many views
/// is not moved about.
#[inline(always)]
pub(crate) fn read_sections<'a>(
    count: u16,
    body: &'a [u8],
    sections: &mut ArrayVec<SectionView<'a>, MAX_SECTIONS>,
) -> Result<(), CfgFault>
    requires few { count ≤ MAX_SECTIONS }
    requires empty { sections.old.items ≡ [] }
    ensures found { OnOk result (Begins body.now (map fields_of_view sections.new.items) []) }
    ensures count { OnOk result (array_vec_len sections.new ≡ count) }
    ensures fault { IfErr result (IsBodyFault count body.now) }
{
    let mut place = 0;
    for _ in 0..count {
        let section = read_section(&body[place..])?;
        place += section.bytes.len();
        sections.push(section);
    }
    if place < body.len() {
        return Err(CfgFault::Cut);
    }
    Ok(())
}
