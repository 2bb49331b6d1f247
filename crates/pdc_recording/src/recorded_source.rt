//! A source whose datagrams are recorded.
ghost use Rattle.std.specs.Prelude.{◌≡◌, ◌≤◌, ◌<◌, ℕ, length};

use crate::kept::{FRONT, is_kept_whole};
use crate::recording::Recording;
use crate::time::nanoseconds_now;
use pdc_ports::{Next, Numbered, Outcome, Source};
use pdc_record::{Entry, What};
use std::alloc::Global;
use std::rt::Clock;
use std::sync::Wait;

/// A stream that is recorded: what came last of it, until it is answered.
#[derive(Drop)]
struct Recorded<'a> {
    recording: &'a Recording,
    stream: u16,
    /// When the last datagram came.
    time: u64,
    /// Its bytes.
    datagram: Vec<u8>,
    /// Whether there was memory for them.
    is_kept: bool,
}

/// Gives what the inner source gives. Where the life is recorded, it notes each datagram with the time at which it came, once it is
/// answered. A datagram of which no copy could be kept, for want of memory, is not noted: its step is lacking in the record.
#[derive(Drop)]
pub struct RecordedSource<'a, S: Source + Drop, R: Wait + Clock> {
    rt: &'a R,
    inner: S,
    recorded: Option<Recorded<'a>>,
}

impl<'a, S: Source + Drop, R: Wait + Clock> RecordedSource<'a, S, R> {
    /// Records the stream with this number, counted from 0, where the life is recorded.
    pub fn new(
        rt: &'a R,
        alloc: Global,
        recording: Option<&'a Recording>,
        stream: u16,
        inner: S,
    ) -> RecordedSource<'a, S, R>
        ensures { result.inner ≡ inner }
    {
        let recorded = recording.map(|recording| Recorded {
            recording,
            stream,
            time: 0,
            datagram: Vec::new(alloc),
            is_kept: false,
        });
        RecordedSource {
            rt,
            inner,
            recorded,
        }
    }
}

/// Keeps a datagram that came, where there is memory for it.
fn keep<R: Clock>(rt: &R, recorded: &mut Recorded<'_>, bytes: &[u8]) {
    recorded.time = nanoseconds_now(rt);
    recorded.datagram.clear();
    recorded.is_kept = recorded.datagram.extend_from_slice(bytes).is_ok();
}

/// What the record says of a datagram that was answered so.
fn what_of(stream: u16, outcome: Outcome, datagram: &[u8]) -> What<'_> {
    if is_kept_whole(outcome, datagram.len()) {
        return What::Arrived {
            stream,
            outcome,
            datagram,
        };
    }
    What::NoFrame {
        stream,
        outcome,
        len: u32::try_from(datagram.len()).unwrap_or(u32::MAX),
        front: datagram.get(..FRONT).unwrap_or(datagram),
    }
}

/// Notes the datagram that was kept, with its answer; nothing where none was.
fn note<R: Wait>(rt: &R, recorded: &Recorded<'_>, answer: Option<Numbered<Outcome>>) {
    if !recorded.is_kept {
        return;
    }
    let datagram = recorded.datagram.as_slice();
    let stream = recorded.stream;
    let entry = match answer {
        Some(Numbered { step, answer }) => Entry {
            step,
            time: recorded.time,
            what: what_of(stream, answer, datagram),
        },
        None => Entry {
            step: 0,
            time: recorded.time,
            what: What::Unanswered { stream, datagram },
        },
    };
    recorded.recording.note(rt, &entry);
}

impl<'a, S: Source + Drop, R: Wait + Clock> Source for RecordedSource<'a, S, R> {
    ghost told = { λ s heard. S.told s.inner heard };

    ghost was_answered = { λ s answers. S.was_answered s.inner answers };

    ghost failures_of = { λ s. S.failures_of s.inner };

    ghost row_left = { λ s. S.row_left s.inner };

    fn next(&mut self, buffer: &mut [u8]) -> Next {
        let next = self.inner.next(buffer);
        if let (Next::Datagram(len), Some(recorded)) = (next, &mut self.recorded) {
            keep(self.rt, recorded, &buffer[..len]);
        }
        next
    }

    fn answered(&mut self, answer: Option<Numbered<Outcome>>) {
        self.inner.answered(answer);
        if let Some(recorded) = &self.recorded {
            note(self.rt, recorded, answer);
        }
    }

    fn failures(&self) -> u64 {
        self.inner.failures()
    }
}
