//! What the frames of every life are.
ghost use Rattle.pdc_aligner.specs.Exact.{FramesAreExact, PoppedRise, RowsAreSent};

use pdc_life::{lives_are_runs, present_exactly_where_given, rows_rise};

/// Each frame of a life is the data frame of a row in which each block is present exactly where its data was taken in time, or the layout
/// that was in force then. The data frames are those of the popped rows, in order, whose instants strictly rise above the floor.
pub fn frames_are_exact()
    ensures exact { FramesAreExact }
    ensures rows { RowsAreSent }
    ensures rise { PoppedRise }
{
    lives_are_runs();
    present_exactly_where_given();
    rows_rise();
}
