//! A record is written, by a thread of its own.
ghost use Rattle.std.specs.Prelude.{◌≡◌, IfOk};
ghost use Rattle.pdc_record.specs.Entries.{spelling_of};
ghost use Rattle.pdc_record.specs.Told.{Missing};

use crate::carried::Carried;
use crate::lives::remove_over;
use crate::lost::{PAUSE as LOST_PAUSE, gap_between, is_tried};
use crate::ordering::{Ordering, Ready};
use crate::queue::Turn;
use crate::recording::Recording;
use crate::series::Series;
use crate::shelf::Shelf;
use crate::time::nanoseconds_now;
use pdc_journal::{Journal, Moment};
use pdc_record::{Entry, What, write_entry};
use std::alloc::{AllocError, Global};
use std::io::ErrorKind;
use std::rt::Clock;
use std::sync::Wait;
use std::time::Duration;
use std::{io, thread};

/// How long nobody looks for an entry after there was none, in milliseconds.
const PAUSE: u64 = 20;

/// After how many pauses a step that is not there yet is given up.
const PATIENCE: u32 = 100;

/// What is written, and whether it is.
#[derive(Drop)]
struct Pen<'a> {
    series: Series<'a>,
    /// What the next file is to carry over.
    carried: Carried,
    /// The first step that is not written, and when that or a new file failed last, where it is not written.
    lost: Option<(u64, Moment)>,
}

/// The line about a gap.
fn gap_text(alloc: Global, from: u64, until: u64) -> Result<String, AllocError> {
    let last = until.saturating_sub(1);
    format!(in alloc; "steps {from} to {last} are not in the record: its queue was full")
}

/// The line about a record that cannot be written.
fn lost_text(
    alloc: Global,
    path: Result<String, AllocError>,
    error: &io::Error,
) -> Result<String, AllocError> {
    let path = path?;
    format!(in alloc;
        "{path}: {error}: the record is no longer written; a new file is tried every {LOST_PAUSE} seconds"
    )
}

/// The line about a record that goes on, in which the steps from the first on up to the one before `until` are lacking, if there is one.
fn again_text(
    alloc: Global,
    path: Result<String, AllocError>,
    first: u64,
    until: Option<u64>,
) -> Result<String, AllocError> {
    let path = path?;
    match until {
        Some(until) => {
            let last = until.saturating_sub(1);
            format!(in alloc; "{path}: the record goes on; steps {first} to {last} are not in it")
        }
        None => format!(in alloc; "{path}: the record goes on, and lacks no step"),
    }
}

/// The bytes of the entry that steps are missing.
fn gap_bytes(alloc: Global, from: u64, until: u64, time: u64) -> io::Result<Vec<u8>>
    ensures { IfOk result (λ bytes. bytes.items ≡
        spelling_of (record { step = from; time = time; told = Missing until })) }
{
    let entry = Entry {
        step: from,
        time,
        what: What::Missing { until },
    };
    let mut bytes = Vec::new(alloc);
    match write_entry(&entry, &mut bytes) {
        Ok(()) => Ok(bytes),
        Err(_) => Err(io::Error::from(ErrorKind::OutOfMemory)),
    }
}

/// Counts what was written. Where that failed, the record is no longer written, which is told.
fn heed<R: Wait + Clock + Shelf>(
    rt: &R,
    alloc: Global,
    recording: &Recording,
    pen: &mut Pen<'_>,
    journal: &Journal,
    written: io::Result<u64>,
) {
    match written {
        Ok(bytes) => recording.written.add(bytes),
        Err(error) => {
            journal.tell(rt, lost_text(alloc, pen.series.path(), &error));
            recording.written.set_written(false);
            pen.lost = Some((pen.series.give_up(rt), Moment::now(rt)));
        }
    }
}

/// Appends the bytes of an entry behind all below the step with this number, where the record is written.
fn append<R: Wait + Clock + Shelf>(
    rt: &R,
    alloc: Global,
    recording: &Recording,
    pen: &mut Pen<'_>,
    journal: &Journal,
    bytes: &[u8],
    step: u64,
) {
    if pen.lost.is_none() {
        let now = nanoseconds_now(rt);
        let written = pen
            .series
            .append_in_order(rt, bytes, step, now, &pen.carried);
        heed(rt, alloc, recording, pen, journal, written);
    }
    pen.carried.note(bytes);
}

/// The same of an entry that came late, or is no step: it stands in the file that is written.
fn append_late<R: Wait + Clock + Shelf>(
    rt: &R,
    alloc: Global,
    recording: &Recording,
    pen: &mut Pen<'_>,
    journal: &Journal,
    bytes: &[u8],
    step: u64,
) {
    if pen.lost.is_none() {
        let written = pen.series.append(bytes, step);
        heed(rt, alloc, recording, pen, journal, written);
    }
    pen.carried.note(bytes);
}

/// Writes that steps are missing, and tells it, where the record is written.
fn append_gap<R: Wait + Clock + Shelf>(
    rt: &R,
    alloc: Global,
    recording: &Recording,
    pen: &mut Pen<'_>,
    journal: &Journal,
    from: u64,
    until: u64,
) {
    pen.carried.miss();
    if pen.lost.is_some() {
        return;
    }
    journal.tell(rt, gap_text(alloc, from, until));
    recording.written.count_gap();
    match gap_bytes(alloc, from, until, nanoseconds_now(rt)) {
        Ok(bytes) => append(rt, alloc, recording, pen, journal, bytes.as_slice(), from),
        Err(error) => heed(rt, alloc, recording, pen, journal, Err(error)),
    }
}

/// Writes what is ready.
fn append_ready<R: Wait + Clock + Shelf>(
    rt: &R,
    alloc: Global,
    recording: &Recording,
    pen: &mut Pen<'_>,
    ordering: &mut Ordering,
    gives_up: bool,
    journal: &Journal,
) {
    for _ in rt.forever() {
        let step = ordering.next();
        match ordering.ready(gives_up) {
            None => return,
            Some(Ready::Bytes(bytes)) => {
                append(rt, alloc, recording, pen, journal, bytes.as_slice(), step);
            }
            Some(Ready::Gap(from, until)) => {
                append_gap(rt, alloc, recording, pen, journal, from, until);
            }
        }
    }
    unreachable!()
}

/// Takes all that waits, and answers whether no more will come.
fn take_all<R: Wait + Clock + Shelf>(
    rt: &R,
    alloc: Global,
    recording: &Recording,
    pen: &mut Pen<'_>,
    ordering: &mut Ordering,
    journal: &Journal,
) -> bool {
    for _ in rt.forever() {
        match recording.turn(rt) {
            Turn::Entry(waiting) => {
                let step = ordering.next();
                if let Some(bytes) = ordering.take(waiting) {
                    append_late(rt, alloc, recording, pen, journal, bytes.as_slice(), step);
                }
            }
            Turn::Nothing => return false,
            Turn::End => return true,
        }
    }
    unreachable!()
}

/// Tries a new file, behind which the step with this number is the next. Where that fails, the record goes on to be lacking.
fn go_on<R: Wait + Clock + Shelf>(
    rt: &R,
    alloc: Global,
    recording: &Recording,
    pen: &mut Pen<'_>,
    journal: &Journal,
    first: u64,
    next: u64,
) {
    let until = gap_between(first, next);
    match pen
        .series
        .resume(rt, until, nanoseconds_now(rt), &pen.carried)
    {
        Ok(bytes) => {
            pen.lost = None;
            recording.written.add(bytes);
            recording.written.set_written(true);
            if until.is_some() {
                recording.written.count_gap();
            }
            journal.tell(rt, again_text(alloc, pen.series.path(), first, until));
        }
        Err(_) => pen.lost = Some((first, Moment::now(rt))),
    }
}

/// Whether a file that is tried may begin: where no row waits, or once that was waited for as long as for the try.
fn may_begin(carried: &Carried, last: Moment, now: Moment) -> bool {
    carried.is_quiet() || last.is_past(LOST_PAUSE.saturating_mul(2), now)
}

/// Writes what is gathered, or tries a new file where the record is not written and that is due. The step with this number is the next.
fn write_gathered<R: Wait + Clock + Shelf>(
    rt: &R,
    alloc: Global,
    recording: &Recording,
    pen: &mut Pen<'_>,
    journal: &Journal,
    next: u64,
) {
    match pen.lost {
        None => {
            let written = pen.series.flush(next);
            heed(rt, alloc, recording, pen, journal, written);
        }
        Some((first, last)) => {
            let now = Moment::now(rt);
            if is_tried(last, now) && may_begin(&pen.carried, last, now) {
                go_on(rt, alloc, recording, pen, journal, first, next);
            }
        }
    }
}

/// Writes the entries of a recording to its files, in the order of their numbers, as they come, until it is closed and all are written. Steps
/// that are not there after two seconds are a gap, which the journal tells. Where a file cannot be made or written, the journal tells it, and
/// a new one is tried every five seconds: what came meanwhile is a gap. Files of lives that are over and are not to stay are removed first.
pub fn write_record<R: Wait + Clock + Shelf>(
    rt: &R,
    alloc: Global,
    recording: &Recording,
    series: Series<'_>,
    journal: &Journal,
) {
    remove_over(rt, alloc, &series, journal);
    let carried = Carried::new(alloc, series.begun());
    let mut pen = Pen {
        series,
        carried,
        lost: None,
    };
    let mut ordering = Ordering::new(alloc);
    let mut pauses = 0u32;
    for _ in rt.forever() {
        let has_ended = take_all(rt, alloc, recording, &mut pen, &mut ordering, journal);
        if recording.lacks_lasting() {
            pen.carried.give_up();
        }
        let gives_up = has_ended || pauses >= PATIENCE;
        append_ready(
            rt,
            alloc,
            recording,
            &mut pen,
            &mut ordering,
            gives_up,
            journal,
        );
        write_gathered(rt, alloc, recording, &mut pen, journal, ordering.next());
        if has_ended {
            return;
        }
        pauses = if ordering.waits() {
            pauses.saturating_add(1)
        } else {
            0
        };
        thread::sleep(rt, Duration::from_millis(PAUSE));
    }
    unreachable!()
}
