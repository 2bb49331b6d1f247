//! In which bucket a frame is found.
ghost use Rattle.std.specs.Prelude.{◌≡◌, ◌<◌, ◌≤◌};
ghost use Rattle.pdc_history.specs.Index.{bucket_of, bucket_under, number_of};

use crate::key::Key;

/// How many buckets there are for what frames tell, and how many for check words.
pub(crate) const BUCKETS: usize = 65536;

/// How far the buckets of two streams lie apart that follow one another.
pub(crate) const SPREAD: usize = 4099;

/// The bucket of a frame by its bytes: its check word.
pub(crate) fn bucket_of(bytes: &[u8]) -> usize
    ensures bucket { result ≡ bucket_of bytes.now }
    ensures bound { result < BUCKETS }
{
    if bytes.len() < 2 {
        return 0;
    }
    let high = bytes[bytes.len() - 2];
    let low = bytes[bytes.len() - 1];
    usize::from(high) * 256 + usize::from(low)
}

/// What tells keys of one stream apart.
fn number_of(key: Key) -> usize
    ensures number { result ≡ number_of key }
    ensures bound { result < BUCKETS }
{
    match key {
        Key::Instant(instant) => (instant % BUCKETS as u64) as usize,
        Key::Count(count) => usize::from(count),
    }
}

/// The bucket of a frame of this stream by what it tells.
pub(crate) fn bucket_under(stream: u16, key: Key) -> usize
    ensures bucket { result ≡ bucket_under stream key }
    ensures bound { result < BUCKETS }
{
    (number_of(key) + usize::from(stream) * SPREAD) % BUCKETS
}
