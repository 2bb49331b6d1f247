//! What a datagram says of its sender.
ghost use Rattle.std.specs.Prelude.{◌≡◌, ◌≤◌, ◌+◌, ◌++◌, IfSome, None, length, map};
ghost use Rattle.pdc_life.specs.pdc_cfg.Config.{config_fields_of};
ghost use Rattle.pdc_life.specs.pdc_cfg.Section.{fields_of_view};
ghost use Rattle.pdc_complaints.specs.Said.{IsSaid, IsSaidIn, id_in, section_said};

use arrayvec::ArrayVec;
use pdc_life::{ConfigView, Kind, MAX_PMUS, SectionView, read_config, read_frame, read_word};

/// Where IDCODE stands in a frame (C37.118.2-2011, table 2).
const IDCODE: usize = 4;

/// What a configuration says of one PMU, or of the concentrator that sends it.
#[derive(Clone, Copy, Debug, Default)]
pub struct SaidSection {
    /// IDCODE, the id of the data's source.
    pub source: u16,
    /// CFGCNT, the configuration count.
    pub count: u16,
}

/// What a configuration says of its sender.
#[derive(Drop)]
pub struct SaidConfiguration {
    /// The counts of FRACSEC in a second.
    pub time_base: u32,
    /// DATA_RATE: above zero frames per second, below zero seconds per frame.
    pub rate: i16,
    /// The first section: a PMU's only one, or a concentrator's own.
    pub first: SaidSection,
    /// The sections behind it, at most 16.
    pub others: ArrayVec<SaidSection, MAX_PMUS>,
}

/// What a datagram says of its sender.
#[derive(Drop)]
pub struct Said {
    /// IDCODE; none where the bytes end before it.
    pub id: Option<u16>,
    /// Its configuration, where it is a CFG-2 frame that is whole.
    pub configuration: Option<SaidConfiguration>,
}

/// The id of the stream that bytes say they are of.
fn id_in(bytes: &[u8]) -> Option<u16>
    ensures { result ≡ id_in bytes.now }
{
    if bytes.len() < IDCODE + 2 {
        return None;
    }
    Some(read_word(bytes, IDCODE))
}

/// What a section says.
fn section_said(section: &SectionView<'_>) -> SaidSection
    ensures { result ≡ section_said (fields_of_view section.now) }
{
    SaidSection {
        source: section.source,
        count: section.count,
    }
}

/// Appends what these sections say.
fn append_sections(sections: &[SectionView<'_>], others: &mut ArrayVec<SaidSection, MAX_PMUS>)
    requires room { length others.old.items + length sections.now ≤ MAX_PMUS }
    ensures { others.new.items ≡ others.old.items ++
        map section_said (map fields_of_view sections.now) }
{
    if let Some((section, later)) = sections.split_first() {
        others.push(section_said(section));
        append_sections(later, others);
    }
}

/// What a configuration says of its sender. Each has a section, so there is always something.
fn configuration_said(config: &ConfigView<'_>) -> Option<SaidConfiguration>
    ensures { IfSome result (λ said. IsSaid said (config_fields_of config.now)) }
{
    let (first, later) = config.sections.as_slice().split_first()?;
    let mut others = ArrayVec::new();
    append_sections(later, &mut others);
    Some(SaidConfiguration {
        time_base: config.time_base,
        rate: config.rate,
        first: section_said(first),
        others,
    })
}

/// The configuration that bytes say; none where they are no CFG-2 frame that is whole.
fn configuration_in(bytes: &[u8]) -> Option<SaidConfiguration>
    ensures { IfSome result (IsSaidIn bytes.now) }
{
    let Ok(frame) = read_frame(bytes) else {
        return None;
    };
    if frame.kind != Kind::Cfg2 {
        return None;
    }
    match read_config(&frame) {
        Ok(config) => configuration_said(&config),
        Err(_) => None,
    }
}

impl Said {
    /// Nothing was said yet.
    pub fn nothing() -> Said
        ensures id { result.id ≡ None }
        ensures configuration { result.configuration ≡ None }
    {
        Said {
            id: None,
            configuration: None,
        }
    }

    /// What these bytes say. They are read for a configuration only where it is asked for: data has none.
    pub fn in_bytes(bytes: &[u8], has_configuration: bool) -> Said
        ensures id { result.id ≡ id_in bytes.now }
        ensures configuration { IfSome result.configuration (IsSaidIn bytes.now) }
    {
        Said {
            id: id_in(bytes),
            configuration: if has_configuration {
                configuration_in(bytes)
            } else {
                None
            },
        }
    }
}
