//! A law of alignments: the contract of a function that does nothing.
ghost use Rattle.pdc_align.specs.Align.{LeavesIt};
ghost use Rattle.pdc_align.specs.Calls.{ColumnsStand};

use crate::state_laws::others_leave_it;

/// An arrival that was neither taken nor a candidate leaves an alignment as it is.
pub fn others_are_left()
    ensures { LeavesIt }
{
    others_leave_it();
}

/// What an alignment keeps of a column is what the life says of it.
pub fn columns_stand()
    ensures { ColumnsStand }
{}
