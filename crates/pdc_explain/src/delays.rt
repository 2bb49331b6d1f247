//! How late the data of each stream comes, and what that adds.

use crate::last_to_come::{Heard, LastToCome};
use crate::spread::{NO_DELAY, Spread};
use pdc_align::Arrival;
use pdc_life::{MAX_WAIT, Outcome, Refusal};
use pdc_record::{Entry, What};
use pdc_story::{About, Unexplained, time_of};
use std::alloc::{AllocError, Global};
use std::io;
use std::io::Write;

/// How many instants are looked back upon.
const SPAN: u64 = 4096;

/// Nothing, in a column.
const NONE: &str = "      none";

/// An instant of which data came.
#[derive(Clone, Copy)]
struct Seen {
    instant: u64,
    /// How many ticks there were before its first data.
    ticks: u64,
    /// Of which streams data came, a bit each.
    streams: u64,
}

/// How late the data of each stream of a record comes: after its instant, counted as the wait of its row, and after that of all others.
#[derive(Drop)]
pub struct Delays {
    alloc: Global,
    about: Option<About>,
    /// The number of the first step of the file that is read, while the steps are read that it carries over.
    front: Option<u64>,
    spreads: Vec<Spread>,
    seen: Vec<Seen>,
    last_to_come: LastToCome,
    ticks: u64,
    /// The instant of the last tick's now.
    now: u64,
}

/// Whether data is of the stream's own instant, and says how late it came.
fn is_counted(outcome: Outcome) -> bool {
    match outcome {
        Outcome::Taken => true,
        Outcome::Refused(refusal) => { matches!(refusal, Refusal::Late | Refusal::OutOfWindow) }
        _ => false,
    }
}

impl Delays {
    /// Nothing came yet.
    ///
    /// # Errors
    ///
    /// [`AllocError`] where there is no memory.
    pub fn new(alloc: Global) -> Result<Delays, AllocError> {
        let mut seen = Vec::new(alloc);
        for _ in 0..SPAN {
            seen.push(Seen {
                instant: u64::MAX,
                ticks: 0,
                streams: 0,
            })?;
        }
        Ok(Delays {
            alloc,
            about: None,
            front: None,
            spreads: Vec::new(alloc),
            seen,
            last_to_come: LastToCome::new(alloc)?,
            ticks: 0,
            now: 0,
        })
    }

    /// How many ticks came since the first data of the instant; none where data of this stream came before, and more than any wait where it
    /// is too far back.
    fn ticks_since(&mut self, stream: usize, instant: u64) -> Option<u64> {
        let bit = 1_u64.checked_shl(u32::try_from(stream).ok()?)?;
        let seen = self.seen.as_mut_slice().get_mut((instant % SPAN) as usize)?;
        if seen.instant != instant {
            if seen.instant != u64::MAX && seen.instant > instant {
                return Some(MAX_WAIT);
            }
            *seen = Seen {
                instant,
                ticks: self.ticks,
                streams: 0,
            };
        }
        if seen.streams & bit != 0 {
            return None;
        }
        seen.streams |= bit;
        Some(self.ticks.saturating_sub(seen.ticks))
    }

    /// Data came, and was taken or not.
    fn hear(&mut self, heard: Heard, is_taken: bool, datagram: &[u8]) {
        let Some(about) = &self.about else {
            return;
        };
        let Some(Arrival::Data { instant, .. }) = about.read(heard.stream, datagram) else {
            return;
        };
        let (is_relative, start) = (about.is_relative(), time_of(instant, about.rate()));
        if is_taken {
            self.last_to_come.take(instant, heard);
        }
        let Some(ticks) = self.ticks_since(heard.stream, instant) else {
            return;
        };
        let past = if is_relative {
            ticks
        } else {
            self.now.saturating_sub(instant)
        };
        if let Some(spread) = self.spreads.as_mut_slice().get_mut(heard.stream) {
            spread.add(heard.time, start, past.saturating_add(1));
        }
    }

    /// A file begins, with this step.
    fn begin(&mut self, step: u64, about: About) -> Result<(), AllocError> {
        for _ in self.spreads.len()..about.streams() {
            self.spreads.push(Spread::new(self.alloc)?)?;
        }
        let goes_on = match &self.about {
            Some(before) => step > 0 && before.start == about.start,
            None => false,
        };
        if !goes_on {
            self.last_to_come.begin(about.streams())?;
        }
        self.about = Some(about);
        Ok(())
    }

    /// Whether an entry is a step that the file carries over; where one is not, they are over.
    fn is_at_front(&mut self, entry: &Entry<'_>) -> bool {
        let is_carried = match self.front {
            Some(first) => entry.is_carried(first),
            None => false,
        };
        if !is_carried {
            self.front = None;
        }
        is_carried
    }

    /// Takes an entry.
    ///
    /// # Errors
    ///
    /// The record does not begin as one does, or there is no memory.
    pub fn take(&mut self, entry: &Entry<'_>) -> Result<(), Unexplained> {
        if self.is_at_front(entry) {
            return Ok(());
        }
        match &entry.what {
            What::Begun(begun) => {
                let about = About::of(self.alloc, begun, entry.step)?;
                self.begin(entry.step, about)?;
                self.front = Some(entry.step);
            }
            What::Arrived {
                stream,
                outcome,
                datagram,
            } if is_counted(*outcome) => {
                let heard = Heard {
                    stream: usize::from(*stream),
                    step: entry.step,
                    time: entry.time,
                };
                self.hear(heard, *outcome == Outcome::Taken, datagram);
            }
            What::Ticked { now, .. } => {
                self.ticks = self.ticks.saturating_add(1);
                self.now = *now;
            }
            _ => {}
        }
        Ok(())
    }
}

/// Tenths, in a column.
fn print_tenths<W: Write>(writer: &mut W, tenths: u64) -> io::Result<()> {
    write!(writer, " {:>7}.{}", tenths / 10, tenths % 10)
}

/// A delay in tenths of a millisecond from [`NO_DELAY`] on, in a column.
fn print_delay<W: Write>(writer: &mut W, delay: u64) -> io::Result<()> {
    let late = delay.saturating_sub(NO_DELAY);
    let early = NO_DELAY.saturating_sub(delay);
    if early == 0 {
        print_tenths(writer, late)
    } else if early < 100 {
        write!(writer, "      -{}.{}", early / 10, early % 10)
    } else {
        let whole = i64::try_from(early / 10).unwrap_or(i64::MAX);
        write!(writer, " {:>7}.{}", 0_i64.saturating_sub(whole), early % 10)
    }
}

/// The letter of a node before its id.
fn node_prefix(stream: usize) -> &'static str {
    if stream == 0 { "A " } else { "B " }
}

/// Of how many in a hundred instants the stream's data came last, and what that added, in columns.
fn print_added<W: Write>(
    writer: &mut W,
    last_to_come: &LastToCome,
    stream: usize,
) -> io::Result<()> {
    let Some(additions) = last_to_come.of_stream(stream) else {
        return Ok(());
    };
    match last_to_come.share_of(additions) {
        Some(thousandths) => print_tenths(writer, thousandths)?,
        None => write!(writer, "{NONE}")?,
    }
    for thousandths in [500, 990] {
        if additions.count > 0 {
            print_tenths(writer, additions.tenths(thousandths))?;
        } else {
            write!(writer, "{NONE}")?;
        }
    }
    Ok(())
}

/// How the data of a stream is spread, in columns.
fn print_spread<W: Write>(writer: &mut W, spread: &Spread) -> io::Result<()> {
    for thousandths in [100, 500, 900, 990, 999] {
        print_delay(writer, spread.tenths(thousandths))?;
    }
    print_delay(writer, spread.greatest)?;
    match spread.wait() {
        Some(wait) => write!(writer, " {wait:>6}"),
        None => write!(writer, "   none"),
    }
}

/// The line of a stream.
fn tell_stream<W: Write>(
    writer: &mut W,
    name: &str,
    stream: usize,
    delays: &Delays,
    spread: &Spread,
) -> io::Result<()> {
    let id = match &delays.about {
        Some(about) => about.stream_id(stream),
        None => 0,
    };
    write!(writer, "{name}{id:<7} {:>10}", spread.count)?;
    if spread.count > 0 {
        print_spread(writer, spread)?;
        print_added(writer, &delays.last_to_come, stream)?;
    }
    writeln!(writer)
}

/// Tells the spread of delays of each stream: how many milliseconds after its instant 10, 50, 90, 99 and 99.9 of a hundred had come, and the
/// greatest, negative of clocks that run ahead; and the wait that would have kept all but one in a thousand. Then of how many in a hundred
/// instants its data came last of all, and how many milliseconds that added for 50 and 99 of a hundred of these.
///
/// # Errors
///
/// What the writer answers, or that no record was taken.
pub fn tell_delays<W: Write>(writer: &mut W, delays: &Delays) -> io::Result<()> {
    let Some(about) = &delays.about else {
        return Ok(());
    };
    let head = if about.is_merger() {
        "node     "
    } else {
        "PMU    "
    };
    writeln!(
        writer,
        "{head}       data      10 %      50 %      90 %      99 %    99.9 %  greatest   wait    last % adds 50 % adds 99 %"
    )?;
    let mut stream = 0;
    for spread in &delays.spreads {
        let name = if about.is_merger() {
            node_prefix(stream)
        } else {
            ""
        };
        tell_stream(writer, name, stream, delays, spread)?;
        stream = stream.saturating_add(1);
    }
    Ok(())
}
