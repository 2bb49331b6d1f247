//! Laws of the frames that go out: each is the contract of a function that does nothing but call the laws that it stands on.
ghost use Rattle.pdc_row.specs.Laws.{LayoutsAreFrames, OwnSectionsTellStamps, RowsAreCut};
ghost use Rattle.pdc_row.specs.Laws.{RowsAreFrames};

use pdc_block::tag_is_nearest;

/// The wire of a row is a frame, and its payload is cut into the own words and the row's.
pub fn rows_are_frames()
    ensures frames { RowsAreFrames }
    ensures cut { RowsAreCut }
{
    tag_is_nearest();
}

/// The wire of a layout is a frame, and its payload is the layout.
pub fn layouts_are_frames()
    ensures { LayoutsAreFrames }
{}

/// Own sections tell their stamps.
pub fn own_sections_tell_stamps()
    ensures { OwnSectionsTellStamps }
{}
