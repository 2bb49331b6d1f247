//! What holds of every run.
ghost use Rattle.pdc_threads.specs.Headline.{RunsKeepHeadline};

use crate::outside::Outside;
use pdc_aligner::frames_are_exact;
use pdc_life::{blocks_are_genuine, lives_are_runs, present_exactly_where_given, taken_is_given};

/// In every run of a node, and of the merger, over every source, sink, mark and ticker: each block of each frame that the sink took is
/// absent, or what a source gave for that instant, and it is present exactly where that was taken in time. The instants of these frames
/// strictly rise, above the floor that was stored.
pub fn runs_keep_headline<W: Outside>()
    ensures { RunsKeepHeadline W.Source.told W.Ticker.gave W.Sink.took }
{
    lives_are_runs();
    present_exactly_where_given();
    blocks_are_genuine();
    taken_is_given();
    frames_are_exact();
}
