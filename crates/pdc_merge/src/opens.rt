//! The lives of the merger, one after the other.
ghost use Rattle.std.specs.Prelude.{◌≡◌};
ghost use Rattle.pdc_life.specs.CoreKind.{given_of, OfMerger};

use crate::merger::Merger;
use arrayvec::ArrayVec;
use pdc_core::{Core, Opens};
use pdc_life::{MAX_PMUS, MergerSettings};
use pdc_row::Output;
use pdc_table::Table;
use std::alloc::{AllocError, Global};

/// A copy of the merger's settings.
pub fn copy_of_merger(settings: &MergerSettings) -> MergerSettings
    ensures { result ≡ settings.now }
{
    let mut sources = ArrayVec::new();
    sources
        .try_extend_from_slice(settings.sources.as_slice())
        .unwrap();
    MergerSettings {
        output: settings.output,
        timing: settings.timing,
        first: settings.first,
        second: settings.second,
        sources,
    }
}

impl<T: Table> Opens for Merger<T> {
    ghost given_with = { λ settings start floor counts. given_of (OfMerger settings) start floor
        counts 0 };

    ghost output_of = { λ settings. settings.output };

    fn output(&self) -> Output {
        self.settings().output
    }

    fn open_first(
        alloc: Global,
        settings: MergerSettings,
        start: u32,
        floor: u64,
        counts: &[u16; MAX_PMUS],
    ) -> Result<Merger<T>, AllocError> {
        Merger::open(alloc, settings, start, floor, counts, 0)
    }

    fn open_next(
        &self,
        alloc: Global,
        start: u32,
        floor: u64,
        counts: &[u16; MAX_PMUS],
    ) -> Result<Merger<T>, AllocError> {
        Merger::open(
            alloc,
            copy_of_merger(self.settings()),
            start,
            floor,
            counts,
            0,
        )
    }
}
