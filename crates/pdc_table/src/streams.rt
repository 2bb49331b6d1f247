//! Streams and their lanes.
ghost use Rattle.std.specs.Prelude.{◌≡◌, ◌≤◌, ◌==◌, if◌then◌else◌};
ghost use Rattle.pdc_open_row.specs.Streams.{stream_count};

use crate::MAX_COLUMNS;

/// How many streams there are: with one lane one for each column, with two one for each lane.
pub fn stream_count(columns: usize, lanes: usize) -> usize
    requires { columns ≤ MAX_COLUMNS }
    ensures value { result ≡ stream_count columns lanes }
    ensures bound { result ≤ MAX_COLUMNS }
{
    if lanes == 1 { columns } else { 2 }
}

/// The lane that a stream writes.
pub fn lane_of(lanes: usize, stream: usize) -> usize
    ensures { result ≡ (if lanes == 1 then 0 else stream) }
{
    if lanes == 1 { 0 } else { stream }
}
