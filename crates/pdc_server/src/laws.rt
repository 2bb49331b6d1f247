//! What a publisher sends is what is kept: the contract of a function that does nothing but call the laws that it stands on.
ghost use Rattle.pdc_server.specs.Fits.{DataFitsItsLayout, LayoutsAreToldFirst};
ghost use Rattle.pdc_server.specs.Laws.{RowsAreData};

use pdc_frame::tag_comes_back;
use pdc_row::rows_are_frames;

/// The frame of a row is a data frame of the row's instant.
pub fn rows_are_data()
    ensures { RowsAreData }
{
    rows_are_frames();
    tag_comes_back();
}

/// Of all that a new consumer is written, in however many turns, each data frame is of the layout of the last CFG-2 frame before it, where
/// there is one; and of that of the last frame before it, so that the CFG-2 frame of a new layout is written before the first data frame
/// under it.
pub fn data_fits_its_layout()
    ensures fits { DataFitsItsLayout }
    ensures first { LayoutsAreToldFirst }
{}
