//! The stream that bytes name.
ghost use Rattle.std.specs.Prelude.{◌<◌, IfNone, IfSome};
ghost use Rattle.pdc_history.specs.Asked.{IsNamed, IsUnnamed};
ghost use Rattle.pdc_history.specs.History.{stream_ids};

use crate::plays::Plays;
use pdc_frame::read_frame;

/// The stream of the core that the bytes name: they are a frame with its id.
pub(crate) fn named<C: Plays>(core: &C, bytes: &[u8]) -> Option<usize>
    ensures named { IfSome result (IsNamed (stream_ids (C.kind (C.settings_of core.now)))
        bytes.now) }
    ensures exists { IfSome result (λ s. s < C.Settings.streams (C.settings_of core.now)) }
    ensures none { IfNone result (IsUnnamed (stream_ids (C.kind (C.settings_of core.now)))
        bytes.now) }
{
    match read_frame(bytes) {
        Ok(frame) => core.stream_of(frame.id.value),
        Err(_) => None,
    }
}
