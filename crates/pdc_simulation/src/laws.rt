//! Laws of all that a PMU sends.
ghost use Rattle.pdc_simulation.specs.PmuSent.{CountsRise, InstantsRise, OneFrameAnInstant};
ghost use Rattle.pdc_simulation.specs.PmuSent.{OneSectionACount};

use pdc_cfg::configurations_are_read_in_one_way;
use pdc_frame::{frames_are_read_in_one_way, tag_comes_back};

/// Over every list of frames that a PMU sent, the instants of its data frames rise strictly, and the counts of its configurations
/// are 1, 2 and so on.
pub fn what_is_sent_rises()
    ensures instants { InstantsRise }
    ensures counts { CountsRise }
{}

/// Whoever reads its frames finds at most one body for an instant, and one section for a count.
pub fn what_is_read_is_one()
    ensures instant { OneFrameAnInstant }
    ensures count { OneSectionACount }
{
    frames_are_read_in_one_way();
    configurations_are_read_in_one_way();
    tag_comes_back();
}
