//! A section under another source and count.
ghost use Rattle.std.specs.Prelude.{◌≡◌, ◌+◌, ◌≤◌, length};
ghost use Rattle.pdc_cfg.specs.Section.{fields_of_section, fields_of_view};
ghost use Rattle.pdc_simulation.specs.Renamed.{renamed, with_word};

use arrayvec::ArrayVec;
use pdc_cfg::{MAX_SECTION_LEN, Section, SectionView};

/// Where IDCODE stands in a section, behind STN.
const SOURCE_PLACE: usize = 16;

/// Writes a word at a place, high byte first.
fn write_word(bytes: &mut [u8], place: usize, word: u16)
    requires { place + 2 ≤ length bytes.old }
    ensures bytes { bytes.new ≡ with_word place word bytes.old }
    ensures len { length bytes.new ≡ length bytes.old }
{
    bytes[place] = (word >> 8) as u8;
    bytes[place + 1] = (word & 0xFF) as u8;
}

/// The bytes of the section with this source and this count.
fn renamed_bytes(section: &SectionView, source: u16, count: u16) -> ArrayVec<u8, MAX_SECTION_LEN>
    ensures { result.items ≡ (renamed source count (fields_of_view section.now)).bytes }
{
    let mut bytes = section.to_section().bytes;
    let count_place = bytes.len() - 2;
    write_word(&mut bytes, SOURCE_PLACE, source);
    write_word(&mut bytes, count_place, count);
    bytes
}

/// The section with this source and this count, and else as it was. It takes no memory.
pub(crate) fn renamed(section: &SectionView, source: u16, count: u16) -> Section
    ensures { fields_of_section result ≡ renamed source count (fields_of_view section.now) }
{
    Section {
        bytes: renamed_bytes(section, source, count),
        shape: section.shape,
        source,
        count,
        polar: section.polar,
    }
}
