//! What is known of the frames that cores send.
ghost use Rattle.pdc_world.specs.Known.{FramesAreKnown};

use pdc_frame::frames_are_written_in_parts;
use pdc_history::{lives_are_lives, pmus_send_one, stamps_have_one_layout};
use pdc_life::{layouts_of_lives_are_frames, lives_are_runs};

/// The frames that cores send are no PMU's, and they are frames.
pub(crate) fn frames_are_known()
    ensures { FramesAreKnown }
{
    frames_are_written_in_parts();
    lives_are_lives();
    lives_are_runs();
    layouts_of_lives_are_frames();
    pmus_send_one();
    stamps_have_one_layout();
}
