//! What arrives at a concentrator, as its bytes say it.
use arrayvec::ArrayVec;
use pdc_life::{MAX_PMUS, Refusal, SectionView};

/// The stamp of a layout: it tells the layouts of all lives of a concentrator apart.
#[derive(Clone, Copy, Debug, PartialEq, Eq)]
pub struct Stamp {
    /// The number of the start.
    pub start: u32,
    /// The number of the change in the life that the start began.
    pub change: u32,
}

impl Stamp {
    ghost use Rattle.std.specs.Prelude.{◌≡◌};
    ghost use Rattle.pdc_life.specs.pdc_row.Layout.{stamp_words};

    /// The start number and the change number, each as two words with the high one first, as own sections and own blocks carry
    /// them.
    pub fn words(self) -> [u16; 4]
        ensures { result ≡ stamp_words self.start self.change }
    {
        [
            (self.start >> 16) as u16,
            (self.start & 0xFFFF) as u16,
            (self.change >> 16) as u16,
            (self.change & 0xFFFF) as u16,
        ]
    }
}

/// A section of a layout, beside its column.
#[derive(Clone, Copy, Debug, Default)]
pub struct ColumnSection<'a> {
    /// The number of the column, from 0.
    pub column: usize,
    /// The section.
    pub section: SectionView<'a>,
}

/// What bytes say that arrived for a stream, whatever came before.
#[derive(Debug, Drop)]
pub enum Arrival<'a> {
    /// They are refused.
    BytesRefused(Refusal),
    /// A data frame of the stream.
    Data {
        /// The instant of its tag.
        instant: u64,
        /// Its time quality byte.
        quality: u8,
        /// What stands between FRACSEC and CHK.
        payload: &'a [u8],
    },
    /// A configuration of the stream.
    Layout {
        /// The stamp, where a node sent it; a PMU's configuration has none.
        stamp: Option<Stamp>,
        /// The sections of PMUs, each beside its column: one where a PMU sent it.
        sections: ArrayVec<ColumnSection<'a>, MAX_PMUS>,
    },
}
