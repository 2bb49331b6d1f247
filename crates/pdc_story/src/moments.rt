//! Instants and times, in UTC.
ghost use Rattle.std.specs.Prelude.{◌≡◌, ◌<◌, ◌≤◌, ◌*◌, ◌+◌, ◌/◌, ◌%◌};

use jiff::Timestamp;
use std::io;
use std::io::Write;

/// The nanoseconds of a second.
pub const NANOS: u64 = 1_000_000_000;

/// The nanoseconds of a millisecond.
pub const MILLI: u64 = 1_000_000;

/// The greatest rate, in frames a second.
pub const MAX_RATE: u64 = 240;

/// The time of an instant, in nanoseconds since 1970, rounded down; the greatest number where it has none of 64 bits.
pub fn time_of(instant: u64, rate: u64) -> u64
    requires low { 0 < rate }
    requires high { rate ≤ MAX_RATE }
{
    let part = instant % rate * NANOS / rate;
    (instant / rate).saturating_mul(NANOS).saturating_add(part)
}

/// The instant nearest to a time in nanoseconds since 1970, the upper of two equally near.
pub fn instant_near(time: u64, rate: u64) -> u64
    requires low { 0 < rate }
    requires high { rate ≤ MAX_RATE }
    ensures { result ≡ time / NANOS * rate + (time % NANOS * rate * 2 + NANOS) / (2 * NANOS) }
{
    time / NANOS * rate + (time % NANOS * rate * 2 + NANOS) / (2 * NANOS)
}

/// Writes a time in nanoseconds since 1970, as `2026-11-24T12:03:04.580Z`.
///
/// # Errors
///
/// What the writer answers.
pub fn print_time<W: Write>(writer: &mut W, time: u64) -> io::Result<()> {
    match i64::try_from(time / MILLI) {
        Ok(millis) => match Timestamp::from_millisecond(millis) {
            Ok(moment) => write!(writer, "{moment:.3}"),
            Err(_) => write!(writer, "{time} ns"),
        },
        Err(_) => write!(writer, "{time} ns"),
    }
}

/// Writes how long it was from one time to another: in whole milliseconds, below ten of them with a tenth, and from ten seconds on in seconds;
/// with a minus where the second time is the earlier one.
///
/// # Errors
///
/// What the writer answers.
pub fn print_span<W: Write>(writer: &mut W, from: u64, to: u64) -> io::Result<()> {
    if to < from {
        write!(writer, "-")?;
    }
    let span = to.saturating_sub(from).max(from.saturating_sub(to));
    if span < 10 * MILLI {
        let (whole, tenth) = (span / MILLI, span % MILLI / 100_000);
        if tenth == 0 {
            return write!(writer, "{whole} ms");
        }
        return write!(writer, "{whole}.{tenth} ms");
    }
    if span < 10 * NANOS {
        return write!(writer, "{} ms", span / MILLI);
    }
    write!(writer, "{} s", span / NANOS)
}
