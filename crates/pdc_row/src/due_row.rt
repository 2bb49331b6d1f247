//! A closed row.
ghost use Rattle.std.specs.Prelude.{◌≡◌, ◌≤◌, [], length};
ghost use Rattle.pdc_row.specs.declared.limits.TheConstants.{MAX_PMUS};

use crate::row_blocks::RowBlocks;
use std::alloc::AllocError;

/// The row of an instant that is closed.
#[derive(Debug, Drop)]
pub struct DueRow {
    /// The instant.
    pub instant: u64,
    /// The start number of the layout that it closed under.
    pub start: u32,
    /// The change number of the layout that it closed under.
    pub change: u32,
    /// Time quality, 0 to 15, greater is worse: the worst of the frames whose blocks are present, 15 if none is.
    pub quality: u8,
    /// The block of each column that had a shape, in column order, at most 16.
    pub blocks: RowBlocks,
    pub ghost quality_fits: { quality ≤ 15 },
    pub ghost few: { length blocks ≤ MAX_PMUS },
}

impl DueRow {
    /// A row of instant 0 without blocks, of the worst time quality.
    pub fn blank() -> DueRow
        ensures instant { result.instant ≡ 0 }
        ensures blocks { result.blocks ≡ [] }
    {
        DueRow {
            instant: 0,
            start: 0,
            change: 0,
            quality: 15,
            blocks: RowBlocks::new(),
        }
    }
}

/// A copy takes no memory.
impl Clone for DueRow {
    ghost use Rattle.std.specs.Prelude.{◌≡◌};
    ghost use Rattle.pdc_row.specs.RowView.{row_view};

    ghost is_clone = { λ row copy. row_view copy ≡ row_view row };

    ghost is_infallible = { λ _. Unit {0} };

    fn clone(&self) -> Result<DueRow, AllocError> {
        Ok(DueRow {
            instant: self.instant,
            start: self.start,
            change: self.change,
            quality: self.quality,
            blocks: self.blocks.copy(),
        })
    }
}
