//! How much of a record waits in memory.
ghost use Rattle.std.specs.Prelude.{◌≡◌};
ghost use Rattle.pdc_recording.specs.Room.{has_room};

/// How many bytes wait at most: 32 MiB in the queue, and as many behind a step that is not there yet.
pub const MOST_BYTES: usize = 33_554_432;

/// Whether an entry of so many bytes may wait beside those that wait already, which have so many.
pub fn has_room(waiting: usize, len: usize) -> bool
    ensures { result ≡ has_room waiting len }
{
    waiting <= MOST_BYTES && len <= MOST_BYTES - waiting
}
