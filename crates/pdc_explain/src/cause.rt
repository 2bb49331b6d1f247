//! What became of a stream's data for an instant, and why a block is absent.

use crate::texts::{print_at, print_gap, print_number, print_ordinal, print_wait};
use pdc_life::{Outcome, Refusal};
use pdc_story::{
    About, Arrived, Came, Cell, RefusedConfig, Story, print_span, print_time, time_of,
};
use std::io;
use std::io::Write;

/// What became of a stream's data for a column of an instant.
#[derive(Clone, Copy, Debug, PartialEq, Eq)]
pub enum Fate {
    /// It was taken, and is there.
    Present,
    /// It was taken, and has the words of an absent block.
    SentAbsent,
    /// It was taken, and dropped when the section of this count was adopted.
    Dropped(u16),
    /// It was taken, and has the block under this count, which was not in force.
    OtherCount(u16),
    /// It was taken, and has no block of the column.
    NoPlace,
    /// It was taken, and the record does not tell what was in force then.
    Taken,
    /// Nothing came.
    Nothing,
    /// It may be among steps that are not in the record.
    NotRecorded,
    /// It was not taken; what was refused may be among steps that are not in the record.
    NotTaken,
    /// It came when the row had closed.
    Late,
    /// It was of a section of this count that was taken, and not adopted yet; and at which tick after it that was.
    NotAdopted {
        /// The count.
        count: u16,
        /// The number of the tick after the data, from 1.
        tick: Option<u64>,
    },
    /// No configuration had come.
    NoConfiguration,
    /// Its configuration had been refused.
    ConfigRefused(RefusedConfig),
    /// It was not answered.
    Unanswered,
    /// It was refused for another cause.
    Refused(Refusal),
}

/// Whether the record does not tell whether it is there.
pub(crate) fn is_unknown(fate: Fate) -> bool {
    matches!(fate, Fate::Taken | Fate::NotRecorded)
}

/// Why data of an arrival that was not taken is not there.
fn fate_of_arrival(arrived: &Arrived) -> Fate {
    let Some(outcome) = arrived.outcome else {
        return Fate::Unanswered;
    };
    match outcome {
        Outcome::Refused(refusal) => fate_of_refused(arrived, refusal),
        _ => Fate::NoPlace,
    }
}

/// The number of the tick after the data that adopted its section, from 1.
fn tick_of(arrived: &Arrived) -> Option<u64> {
    match arrived.adopted {
        Some(ticks) => Some(ticks.saturating_sub(arrived.ticks)),
        None => None,
    }
}

/// Why data that was refused is not there: data of a section that is held and not in force yet, or of one that was refused, is refused for want
/// of one, for its length or for its stamp.
fn fate_of_refused(arrived: &Arrived, refusal: Refusal) -> Fate {
    let is_unfit = matches!(
        refusal,
        Refusal::NoConfig | Refusal::WrongLength | Refusal::OtherStamp
    );
    if is_unfit {
        if let Some(refused) = arrived.refused {
            return Fate::ConfigRefused(refused);
        }
        if let Some(count) = arrived.waiting {
            return Fate::NotAdopted {
                count,
                tick: tick_of(arrived),
            };
        }
    }
    match refusal {
        Refusal::NoConfig if arrived.is_whole => Fate::NoConfiguration,
        Refusal::Late => Fate::Late,
        refusal => Fate::Refused(refusal),
    }
}

/// What became of a stream's data for a column of the instant.
pub fn fate_of(story: &Story, stream: usize, column: usize) -> Fate {
    let Some(came) = story.of_stream(stream) else {
        return Fate::Nothing;
    };
    if came.taken.is_some() {
        return match came.cell(column, story.closed) {
            Cell::Missing => Fate::NoPlace,
            Cell::Unknown => Fate::Taken,
            Cell::OtherCount(count) => Fate::OtherCount(count),
            Cell::Absent => Fate::SentAbsent,
            Cell::Present { .. } => Fate::Present,
            Cell::Dropped(count) => Fate::Dropped(count),
        };
    }
    match came.arrivals.as_slice().first() {
        Some(arrived) if story.gap.is_none() || !is_again(arrived) => fate_of_arrival(arrived),
        None if story.gap.is_none() => Fate::Nothing,
        None if story.is_carried => Fate::NotTaken,
        _ => Fate::NotRecorded,
    }
}

/// Whether other data had been taken before.
fn is_again(arrived: &Arrived) -> bool {
    matches!(
        arrived.outcome,
        Some(Outcome::Refused(Refusal::Duplicate | Refusal::Conflict))
    )
}

/// That its instant was published or given up before the life began, or before the record does.
fn print_below_floor<W: Write>(writer: &mut W, about: &About) -> io::Result<()> {
    let (start, floor) = (about.start, about.floor);
    if about.first > 0 {
        write!(writer, ", at or below instant {floor} (")?;
        print_time(writer, time_of(floor, about.rate()))?;
        return write!(
            writer,
            "), up to which all was published or given up before the record begins: {}",
            Refusal::Late.text()
        );
    }
    write!(writer, ", at or below the floor {floor} (")?;
    print_time(writer, time_of(floor, about.rate()))?;
    write!(
        writer,
        ") with which start {start} began, up to which all was published or given up before: {}",
        Refusal::Late.text()
    )
}

/// That it came too late.
fn print_late<W: Write>(writer: &mut W, about: &About, story: &Story, time: u64) -> io::Result<()> {
    match (story.opened, story.closed, story.row_gap()) {
        (Some(opened), Some(closed), None) => {
            write!(writer, "its data came ")?;
            print_span(writer, opened.time, time)?;
            write!(writer, " after the first, ")?;
            print_span(writer, closed.time, time)?;
            write!(writer, " after the row had closed (")?;
            print_wait(writer, about)?;
            write!(writer, "): {}", Refusal::Late.text())
        }
        _ => {
            print_at(writer, "its data came at ", time)?;
            if story.instant <= about.floor {
                return print_below_floor(writer, about);
            }
            write!(
                writer,
                ", when this instant or a later one had closed: {}",
                Refusal::Late.text()
            )
        }
    }
}

/// That nothing came.
fn print_nothing<W: Write>(
    writer: &mut W,
    about: &About,
    story: &Story,
    came: Option<&Came>,
) -> io::Result<()> {
    write!(writer, "nothing came for this instant")?;
    let before = match came {
        Some(came) => came.before,
        None => None,
    };
    match before {
        Some((instant, time)) if instant.saturating_add(1) == story.instant => {
            print_at(writer, "; the instant before came at ", time)
        }
        Some((instant, time)) => {
            print_at(
                writer,
                "; the last before it, that of ",
                time_of(instant, about.rate()),
            )?;
            print_at(writer, ", came at ", time)
        }
        None => write!(writer, ", and none before it"),
    }
}

/// Among which steps it may be, or what was refused of it.
fn print_not_recorded<W: Write>(writer: &mut W, story: &Story) -> io::Result<()> {
    if story.is_carried {
        write!(
            writer,
            "no data of it was taken; what was refused may be among "
        )?;
    } else {
        write!(writer, "its data may be among ")?;
    }
    if let Some(gap) = &story.gap {
        print_gap(writer, gap)?;
    }
    write!(writer, ", which are not in the record")
}

/// When its configuration was adopted.
fn print_adopted<W: Write>(writer: &mut W, count: u16, tick: Option<u64>) -> io::Result<()> {
    write!(
        writer,
        "its configuration under count {count} was taken, and "
    )?;
    match tick {
        Some(number) if number < 2 => write!(writer, "adopted only at the next tick"),
        Some(number) => {
            write!(writer, "adopted only at the ")?;
            print_ordinal(writer, number)?;
            write!(writer, " tick after its data")
        }
        None => write!(writer, "not adopted as long as it is recorded"),
    }
}

/// For which cause its configuration was refused, when, and how often.
fn print_config_refused<W: Write>(writer: &mut W, refused: &RefusedConfig) -> io::Result<()> {
    write!(writer, ", and its configuration was refused ")?;
    if refused.count > 1 {
        print_number(writer, refused.count)?;
        print_at(writer, " times, from ", refused.first)?;
        print_at(writer, " up to ", refused.last)?;
    } else {
        print_at(writer, "at ", refused.last)?;
    }
    write!(writer, ": {}", refused.refusal.text())
}

/// When the data came that was taken, else the first; 0 where none came.
fn time_of_data(came: Option<&Came>) -> u64 {
    let Some(came) = came else {
        return 0;
    };
    match (came.taken, came.arrivals.as_slice().first()) {
        (Some(taken), _) => taken.time,
        (None, Some(first)) => first.time,
        (None, None) => 0,
    }
}

/// Writes what became of a stream's data, in words.
///
/// # Errors
///
/// What the writer answers.
pub fn print_fate<W: Write>(
    writer: &mut W,
    about: &About,
    story: &Story,
    stream: usize,
    fate: Fate,
) -> io::Result<()> {
    let came = story.of_stream(stream);
    let time = time_of_data(came);
    match fate {
        Fate::Nothing => return print_nothing(writer, about, story, came),
        Fate::NotRecorded | Fate::NotTaken => return print_not_recorded(writer, story),
        Fate::Late => return print_late(writer, about, story, time),
        Fate::NotAdopted { count, tick } => return print_adopted(writer, count, tick),
        _ => print_at(writer, "its data came at ", time)?,
    }
    match fate {
        Fate::SentAbsent => write!(writer, " with the words of an absent block"),
        Fate::Dropped(count) => write!(
            writer,
            ", and was dropped when its configuration under count {count} was adopted"
        ),
        Fate::OtherCount(count) => {
            write!(
                writer,
                ", with its block under count {count}, which was not in force"
            )
        }
        Fate::NoPlace => write!(writer, ", and has no block of it"),
        Fate::Taken => write!(
            writer,
            " and was taken, under a configuration that the record does not tell"
        ),
        Fate::NoConfiguration => {
            let text = Refusal::NoConfig.text();
            write!(writer, ", and no configuration of it had come: {text}")
        }
        Fate::ConfigRefused(refused) => print_config_refused(writer, &refused),
        Fate::Unanswered => write!(writer, ", and was not answered, for want of memory"),
        Fate::Refused(refusal) => write!(writer, ", and was refused: {}", refusal.text()),
        _ => Ok(()),
    }
}

/// Writes the kind of a cause, in few words, as it is counted.
///
/// # Errors
///
/// What the writer answers.
pub fn print_kind<W: Write>(writer: &mut W, fate: Fate) -> io::Result<()> {
    if let Fate::ConfigRefused(refused) = fate {
        let text = refused.refusal.text();
        return write!(writer, "its configuration refused: {text}");
    }
    let text = match fate {
        Fate::Present => "shown",
        Fate::SentAbsent => "sent absent",
        Fate::Dropped(_) => "dropped by a new configuration",
        Fate::OtherCount(_) => "under a count not in force",
        Fate::NoPlace => "no block of it",
        Fate::Taken => "taken",
        Fate::Nothing => "nothing came",
        Fate::NotRecorded => "not in the record",
        Fate::NotTaken => "none was taken",
        Fate::Late => Refusal::Late.text(),
        Fate::NotAdopted { .. } => "its configuration not adopted yet",
        Fate::NoConfiguration | Fate::ConfigRefused(_) => Refusal::NoConfig.text(),
        Fate::Unanswered => "not answered",
        Fate::Refused(refusal) => refusal.text(),
    };
    write!(writer, "{text}")
}
