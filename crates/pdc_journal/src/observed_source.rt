//! A source that is watched.
ghost use Rattle.std.specs.Prelude.{◌≡◌, ◌≤◌, ◌<◌, ℕ, length};

use crate::hearing::Hearing;
use crate::journal::Journal;
use crate::moment::Moment;
use crate::spell::{LONG, Spell};
use crate::tally::Tally;
use crate::watchers::Watchers;
use pdc_complaints::{again_text, ended_text, silence_text, taken_text, unread_text};
use pdc_ports::{Next, Numbered, Outcome, Refusal, Source};
use std::alloc::Global;
use std::rt::Clock;
use std::sync::Wait;

/// Gives what the inner source gives. It counts the answers, and tells when nothing came for five seconds, and when something is taken again;
/// when data has come for five seconds and no configuration is in force, and when it is taken then; when its frames are refused for what they
/// say of their sender, each cause once a minute; and when the stream is read no more, and why.
#[derive(Drop)]
pub struct ObservedSource<'a, S: Source + Drop, R: Wait + Clock> {
    rt: &'a R,
    alloc: Global,
    journal: &'a Journal,
    tally: &'a Tally,
    inner: S,
    silence: Spell,
    /// Since when data was refused for want of a configuration.
    unread: Option<Spell>,
    hearing: Hearing,
    watchers: Watchers<'a>,
}

impl<'a, S: Source + Drop, R: Wait + Clock> ObservedSource<'a, S, R> {
    /// Watches a source, whose silence begins now, with what is heard of its sender and what looks at its datagrams.
    pub fn new(
        rt: &'a R,
        alloc: Global,
        journal: &'a Journal,
        tally: &'a Tally,
        hearing: Hearing,
        watchers: Watchers<'a>,
        inner: S,
    ) -> ObservedSource<'a, S, R>
        ensures { result.inner ≡ inner }
    {
        ObservedSource {
            rt,
            alloc,
            journal,
            tally,
            inner,
            silence: Spell::begun(Moment::now(rt)),
            unread: None,
            hearing,
            watchers,
        }
    }
}

/// It sends what is taken: its silence, which was told, is over.
fn hear<R: Wait + Clock>(
    rt: &R,
    alloc: Global,
    journal: &Journal,
    tally: &Tally,
    silence: &mut Spell,
) {
    journal.note(rt, again_text(alloc, tally.of));
    *silence = Spell::begun(Moment::now(rt));
}

/// Data was refused for want of a configuration.
fn miss<R: Wait + Clock>(
    rt: &R,
    alloc: Global,
    journal: &Journal,
    tally: &Tally,
    unread: &mut Option<Spell>,
) {
    match unread {
        Some(spell) => {
            if spell.is_due(Moment::now(rt)) {
                journal.tell(rt, unread_text(alloc, tally.of, LONG));
            }
        }
        None => *unread = Some(Spell::begun(Moment::now(rt))),
    }
}

/// Data was taken.
fn take<R: Wait + Clock>(
    rt: &R,
    alloc: Global,
    journal: &Journal,
    tally: &Tally,
    unread: &mut Option<Spell>,
) {
    if let Some(spell) = unread {
        if spell.is_told() {
            journal.note(rt, taken_text(alloc, tally.of));
        }
        *unread = None;
    }
}

impl<'a, S: Source + Drop, R: Wait + Clock> Source for ObservedSource<'a, S, R> {
    ghost told = { λ s heard. S.told s.inner heard };

    ghost was_answered = { λ s answers. S.was_answered s.inner answers };

    ghost failures_of = { λ s. S.failures_of s.inner };

    ghost row_left = { λ s. S.row_left s.inner };

    fn next(&mut self, buffer: &mut [u8]) -> Next {
        let next = self.inner.next(buffer);
        let (rt, alloc, journal, tally) = (self.rt, self.alloc, self.journal, self.tally);
        match next {
            Next::Datagram(len) => {
                if !self.silence.is_told() {
                    self.silence = Spell::begun(Moment::now(rt));
                }
                self.hearing.see(&buffer[..len]);
                self.watchers.see(&buffer[..len]);
            }
            Next::Idle => {
                if self.silence.is_due(Moment::now(rt)) {
                    journal.tell(rt, silence_text(alloc, tally.of, LONG));
                }
            }
            Next::Fault => journal.tell(rt, ended_text(alloc, tally.of, "its port failed")),
            Next::Stuck => journal.tell(rt, ended_text(alloc, tally.of, "it gave up")),
            Next::End => {}
        }
        next
    }

    fn answered(&mut self, answer: Option<Numbered<Outcome>>) {
        let (rt, alloc, journal, tally) = (self.rt, self.alloc, self.journal, self.tally);
        self.inner.answered(answer);
        let Some(
            Numbered {
                answer: outcome,
                ..
            },
        ) = answer
        else {
            journal.tell(
                rt,
                ended_text(
                    alloc,
                    tally.of,
                    "memory ran out, or a counter reached its greatest value",
                ),
            );
            return;
        };
        tally.count(rt, outcome);
        self.hearing.answered(rt, alloc, journal, tally.of, outcome);
        self.watchers.answered(rt, outcome);
        if self.silence.is_told() && !matches!(outcome, Outcome::Refused(_)) {
            hear(rt, alloc, journal, tally, &mut self.silence);
        }
        match outcome {
            Outcome::Refused(Refusal::NoConfig) => {
                miss(rt, alloc, journal, tally, &mut self.unread);
            }
            Outcome::Taken => take(rt, alloc, journal, tally, &mut self.unread),
            _ => {}
        }
    }

    fn failures(&self) -> u64 {
        self.inner.failures()
    }

    fn wants_whole(&self) -> bool {
        self.inner.wants_whole()
    }

    fn whole(&mut self) {
        self.inner.whole();
    }
}
