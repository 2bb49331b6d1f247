//! What a configuration says of one PMU.
ghost use Rattle.std.specs.Prelude.{◌≡◌, ◌≤◌, length};
ghost use Rattle.pdc_cfg.specs.SectionBytes.{IsSection};

use crate::shape::Shape;
use arrayvec::ArrayVec;
use std::alloc::AllocError;

/// The most bytes of a section: one of the most channels.
pub const MAX_SECTION_LEN: usize = 3390;

/// The bytes of the section that has no channels, no name and only zeros.
const NO_CHANNELS: [u8; 30] = [0; 30];

/// A section, lent from the frame that has it: what a configuration says of one PMU (C37.118.2-2011, table 9).
#[derive(Clone, Copy, Debug)]
pub struct SectionView<'a> {
    /// From STN to CFGCNT.
    pub bytes: &'a [u8],
    /// IDCODE, the id of the data's source.
    pub source: u16,
    /// CFGCNT, the number of changes that the configuration has had.
    pub count: u16,
    /// How many phasors, analog values and digital words its data has.
    pub shape: Shape,
    /// Phasors are magnitude and angle, not real and imaginary part.
    pub polar: bool,
    // The bytes are a section that says this.
    pub ghost whole: { IsSection (record {
      bytes = bytes.now;
      shape = shape;
      source = source;
      count
          = count;
      polar = polar;
    }) },
}

/// A section that holds its bytes: what a configuration says of one PMU (C37.118.2-2011, table 9).
#[derive(Debug, Drop)]
pub struct Section {
    /// How many phasors, analog values and digital words its data has.
    pub shape: Shape,
    /// IDCODE, the id of the data's source.
    pub source: u16,
    /// CFGCNT, the number of changes that the configuration has had.
    pub count: u16,
    /// Phasors are magnitude and angle, not real and imaginary part.
    pub polar: bool,
    /// From STN to CFGCNT. They stand last, since most of what is asked of a section is in front.
    pub bytes: ArrayVec<u8, MAX_SECTION_LEN>,
    // The bytes are a section that says this.
    pub ghost whole: { IsSection (record {
      bytes = bytes.items;
      shape = shape;
      source = source;
      count = count;
      polar = polar;
    }) },
}

/// Makes these the bytes of a section. Where there were as many before, they are written over, and nothing is emptied first.
fn set_bytes(kept: &mut ArrayVec<u8, MAX_SECTION_LEN>, bytes: &[u8])
    requires { length bytes.now ≤ MAX_SECTION_LEN }
    ensures { kept.new.items ≡ bytes.now }
{
    if kept.len() == bytes.len() {
        kept.as_mut_slice().copy_from_slice(bytes);
        return;
    }
    kept.clear();
    kept.try_extend_from_slice(bytes).unwrap();
}

/// A section without channels, to fill places of a list with: 30 bytes of zeros.
impl Default for SectionView<'_> {
    fn default() -> Self {
        SectionView {
            bytes: &NO_CHANNELS,
            shape: Shape::default(),
            source: 0,
            count: 0,
            polar: false,
        }
    }
}

/// The copy takes no memory.
impl Clone for Section {
    ghost use Rattle.std.specs.Prelude.{◌≡◌};
    ghost use Rattle.pdc_cfg.specs.Section.{fields_of_section};

    ghost is_clone = { λ section copy. fields_of_section copy ≡ fields_of_section section };

    ghost is_infallible = { λ _. Unit {0} };

    fn clone(&self) -> Result<Section, AllocError> {
        Ok(self.view().to_section())
    }
}

impl SectionView<'_> {
    ghost use Rattle.std.specs.Prelude.{◌≡◌};
    ghost use Rattle.pdc_cfg.specs.Section.{fields_of_view, fields_of_section};

    /// The same section with its bytes copied. It takes no memory.
    pub fn to_section(&self) -> Section
        ensures { fields_of_section result ≡ fields_of_view self.now }
    {
        let mut bytes = ArrayVec::new();
        bytes.try_extend_from_slice(self.bytes).unwrap();
        Section {
            bytes,
            shape: self.shape,
            source: self.source,
            count: self.count,
            polar: self.polar,
        }
    }
}

impl Section {
    ghost use Rattle.std.specs.Prelude.{◌≡◌};
    ghost use Rattle.pdc_cfg.specs.Section.{fields_of_view, fields_of_section};

    /// Makes this a copy of the section, in place. It takes no memory.
    pub fn set(&mut self, section: &SectionView<'_>)
        ensures { fields_of_section self.new ≡ fields_of_view section.now }
    {
        self.shape = section.shape;
        self.source = section.source;
        self.count = section.count;
        self.polar = section.polar;
        set_bytes(&mut self.bytes, section.bytes);
    }

    /// The same section, lent.
    pub fn view(&self) -> SectionView<'_>
        ensures { fields_of_view result ≡ fields_of_section self.now }
    {
        SectionView {
            bytes: self.bytes.as_slice(),
            shape: self.shape,
            source: self.source,
            count: self.count,
            polar: self.polar,
        }
    }
}
