//! What is kept of a datagram.
ghost use Rattle.std.specs.Prelude.{◌≡◌};
ghost use Rattle.pdc_recording.specs.Kept.{is_kept_whole};

use pdc_record::{Outcome, Refusal};

/// How many bytes are kept of a datagram that is no frame.
pub const FRONT: usize = 64;

/// Whether a datagram of so many bytes is kept whole that was answered so: each is, but one that is no frame and is longer than 64 bytes.
pub fn is_kept_whole(outcome: Outcome, len: usize) -> bool
    ensures { result ≡ is_kept_whole outcome len }
{
    match outcome {
        Outcome::Refused(Refusal::NoFrame(_)) => len <= FRONT,
        _ => true,
    }
}
