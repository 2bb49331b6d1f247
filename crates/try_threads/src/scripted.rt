//! Sources and a ticker that wait for what the core shows.
ghost use Rattle.std.specs.Prelude.{◌≡◌, ◌≤◌, ℕ, length};

use pdc_cfg::read_config;
use pdc_core::Core;
use pdc_frame::read_frame;
use pdc_threads::{Did, Hub, Naming, Next, Numbered, Outcome, Progress, Source, Ticker};
use std::sync::Wait;
use std::sync::atomic::{AtomicBool, AtomicU64, Ordering};
use std::thread;

/// How often a source or a ticker looks before it gives up.
const TURNS: u32 = 1_000_000_000;

/// What a source does at a call.
#[derive(Clone, Copy, Debug)]
pub enum Act<'a> {
    /// It gives this datagram, in hexadecimal.
    Give(&'a str),
    /// It raises its own flag, waits for the other source's, and gives this datagram, in hexadecimal.
    Meet(&'a str),
    /// It is idle until the layout that was put last has so many sections.
    AwaitLayout(usize),
    /// Its device fails.
    Fail,
}

/// What sources and ticker of a run show: the flag of each of two sources, whether the run failed to answer one, how many sections the layout
/// has that was put last, and what the ticker was told last.
#[derive(Drop)]
pub struct Shown {
    first: AtomicBool,
    second: AtomicBool,
    unanswered: AtomicBool,
    pub sections: AtomicU64,
    pub published: AtomicU64,
    pub last: AtomicU64,
}

impl Shown {
    /// No flag is raised, and nothing was told.
    pub fn new() -> Shown {
        Shown {
            first: AtomicBool::new(false),
            second: AtomicBool::new(false),
            unanswered: AtomicBool::new(false),
            sections: AtomicU64::new(0),
            published: AtomicU64::new(0),
            last: AtomicU64::new(0),
        }
    }

    /// Raises the caller's flag, and waits for the other's. Whether it was raised before too many turns.
    fn meet(&self, is_second: bool) -> bool {
        if is_second {
            return raise_and_wait(&self.second, &self.first);
        }
        raise_and_wait(&self.first, &self.second)
    }
}

/// A source that does one thing after the other, and then ends.
#[derive(Drop)]
pub struct Scripted<'r> {
    shown: &'r Shown,
    is_second: bool,
    acts: &'r [Act<'r>],
    done: usize,
    turns: u32,
    failures: u64,
}

/// How many sections the frame of a layout has; 0 where it is none.
fn section_count(bytes: &[u8]) -> usize {
    match read_frame(bytes) {
        Ok(frame) => match read_config(&frame) {
            Ok(config) => config.sections.len(),
            Err(_) => 0,
        },
        Err(_) => 0,
    }
}

impl<'r> Scripted<'r> {
    /// A source that has done none of these things yet, with what both show; it is the first source or the second one.
    pub fn new(shown: &'r Shown, is_second: bool, acts: &'r [Act<'r>]) -> Self {
        Scripted {
            shown,
            is_second,
            acts,
            done: 0,
            turns: 0,
            failures: 0,
        }
    }

    /// Idle, or stuck after too many turns.
    fn wait(&mut self) -> Next
        ensures same { self.new.failures ≡ self.old.failures }
        ensures datagram { (n : ℕ) → result ≡ Next.Datagram n → ⊥ }
        ensures fault { result ≡ Next.Fault → ⊥ }
    {
        if self.turns == TURNS {
            return Next::Stuck;
        }
        self.turns = self.turns.saturating_add(1);
        Next::Idle
    }
}

/// The bytes that the text says, at the front of the buffer.
fn give(text: &str, buffer: &mut [u8]) -> Next
    ensures kept { length buffer.new ≡ length buffer.old }
    ensures datagram { (n : ℕ) → result ≡ Next.Datagram n → n ≤ length buffer.new }
    ensures fault { result ≡ Next.Fault → ⊥ }
{
    let len = text.len() / 2;
    if len > buffer.len() || hex::decode_to_slice(text, &mut buffer[..len]).is_err() {
        return Next::End;
    }
    Next::Datagram(len)
}

/// Raises the one flag, and waits for the other. Whether it was raised before too many turns.
fn raise_and_wait(mine: &AtomicBool, theirs: &AtomicBool) -> bool {
    mine.store(true, Ordering::SeqCst);
    for _ in 0..TURNS {
        if theirs.load(Ordering::SeqCst) {
            return true;
        }
        thread::yield_now();
    }
    false
}

impl<'r> Source for Scripted<'r> {
    ghost use Rattle.std.specs.Prelude.{◌-◌, length};

    ghost failures_of = { λ s. s.failures };

    ghost row_left = { λ s. length s.acts.now - s.done };

    fn next(&mut self, buffer: &mut [u8]) -> Next {
        match self.acts.get(self.done).copied() {
            Some(Act::Give(text)) => {
                self.done = self.done.saturating_add(1);
                give(text, buffer)
            }
            Some(Act::Meet(text)) => {
                self.done = self.done.saturating_add(1);
                if !self.shown.meet(self.is_second) {
                    return Next::Stuck;
                }
                give(text, buffer)
            }
            Some(Act::AwaitLayout(sections)) => {
                if self.shown.sections.load(Ordering::SeqCst) == sections as u64 {
                    self.done = self.done.saturating_add(1);
                }
                self.wait()
            }
            Some(Act::Fail) => {
                self.failures = self.failures.saturating_add(1);
                Next::Fault
            }
            None => Next::End,
        }
    }

    fn answered(&mut self, answer: Option<Numbered<Outcome>>) {
        if answer.is_none() {
            self.shown.unanswered.store(true, Ordering::SeqCst);
        }
    }

    fn failures(&self) -> u64 {
        self.failures
    }
}

/// Gives the instant `first` once two configurations were held, the next one once so many data frames were taken, and then ends; before,
/// where the run failed to answer a source.
#[derive(Drop)]
pub struct Following<'h, 'r, C: Core + Drop, N: Naming<C::Settings>, R: Wait> {
    pub rt: &'r R,
    pub hub: &'h Hub<C, N>,
    pub first: u64,
    pub taken: u64,
    pub given: u64,
    pub shown: &'r Shown,
}

impl<'h, 'r, C: Core + Drop, N: Naming<C::Settings>, R: Wait> Ticker
    for Following<'h, 'r, C, N, R> {
    fn note(&mut self, _step: u64, did: &Did<'_>) {
        if let Did::Laid(frame) = did {
            self.shown
                .sections
                .store(section_count(frame) as u64, Ordering::SeqCst);
        }
    }

    fn next(&mut self) -> Option<u64> {
        let given = self.given;
        if given >= 2 {
            return None;
        }
        self.given = given + 1;
        for _ in 0..TURNS {
            let counts = self.hub.counts(self.rt);
            let is_reached = if given == 0 {
                counts.candidate >= 2
            } else {
                counts.taken >= self.taken
            };
            if is_reached {
                return self.first.checked_add(given);
            }
            if self.shown.unanswered.load(Ordering::SeqCst) {
                return None;
            }
        }
        None
    }

    fn wants_counts(&self) -> bool {
        true
    }

    fn tell(&mut self, told: &Progress) {
        self.shown.published.store(told.published, Ordering::SeqCst);
        self.shown.last.store(told.last, Ordering::SeqCst);
    }
}
