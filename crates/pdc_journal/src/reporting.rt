//! A ticker that tells counters.
ghost use Rattle.std.specs.Prelude.{◌≡◌};

use crate::counters::{
    counters_line, left_out_line, lost_line, missing_line, output_line, strangers_line, tally_line,
};
use crate::journal::Journal;
use crate::left_out::LeftOut;
use crate::moment::Moment;
use crate::output_tally::OutputTally;
use crate::tally::Tally;
use pdc_ports::{Progress, Ticker};
use std::alloc::Global;
use std::rt::Clock;
use std::sync::Wait;
use std::sync::atomic::{AtomicU64, Ordering};

/// Where a run counts, which is read each time that it is told.
#[derive(Clone, Copy)]
pub struct RunCounters<'a> {
    /// How each stream was answered.
    pub tallies: &'a [Tally],
    /// How many frames could not be sent or not be kept.
    pub unsent: &'a AtomicU64,
    /// What could not be sent to each further destination.
    pub outputs: &'a [OutputTally],
    /// What the merger leaves out; a node leaves nothing out.
    pub left_out: Option<&'a LeftOut>,
}

/// Ticks as another ticker does. Each time that so many seconds have gone by, if any are asked for, it tells a line of counters, and one
/// more for each stream of which anything was refused, to whose port strangers sent, or whose connections were lost, for each destination
/// that frames could not be sent to, and for each PMU that the merger has no data of, or left out blocks of. Where the clock cannot be read there is no
/// line.
#[derive(Drop)]
pub struct Reporting<'a, T: Ticker + Drop, R: Clock + Wait> {
    rt: &'a R,
    alloc: Global,
    journal: &'a Journal,
    counters: RunCounters<'a>,
    ticker: T,
    /// After how many seconds the counters are told, if they are.
    every: Option<u32>,
    /// When the last line was told, or else the ticker was made.
    since: Moment,
}

impl<'a, T: Ticker + Drop, R: Clock + Wait> Reporting<'a, T, R> {
    /// Ticks as this ticker, and tells the counters each time that so many seconds have gone by.
    pub fn new(
        rt: &'a R,
        alloc: Global,
        journal: &'a Journal,
        counters: RunCounters<'a>,
        ticker: T,
        every: Option<u32>,
    ) -> Reporting<'a, T, R>
        ensures { result.ticker ≡ ticker }
    {
        Reporting {
            rt,
            alloc,
            journal,
            counters,
            ticker,
            every,
            since: Moment::now(rt),
        }
    }
}

impl<'a, T: Ticker + Drop, R: Clock + Wait> Ticker for Reporting<'a, T, R> {
    ghost gave = { λ s nows. T.gave s.ticker nows };

    fn next(&mut self) -> Option<u64> {
        self.ticker.next()
    }

    fn wants_counts(&self) -> bool {
        match self.every {
            Some(every) => self.since.is_past(u64::from(every), Moment::now(self.rt)),
            None => false,
        }
    }

    fn tell(&mut self, told: &Progress) {
        self.since = Moment::now(self.rt);
        let unsent = self.counters.unsent.load(Ordering::Relaxed);
        self.journal
            .tell(self.rt, counters_line(self.alloc, told, unsent));
        for tally in self.counters.tallies {
            let counts = tally.counts(self.rt);
            if counts.refused > 0 {
                self.journal
                    .tell(self.rt, tally_line(self.alloc, tally.of, &counts));
            }
            if tally.strangers() > 0 {
                self.journal
                    .tell(self.rt, strangers_line(self.alloc, tally));
            }
            if tally.lost() > 0 {
                self.journal.tell(self.rt, lost_line(self.alloc, tally));
            }
        }
        for output in self.counters.outputs {
            if output.unsent() > 0 {
                self.journal.tell(self.rt, output_line(self.alloc, output));
            }
        }
        if let Some(left_out) = self.counters.left_out {
            for source in left_out.missing.pmus(self.rt) {
                self.journal.tell(self.rt, missing_line(self.alloc, source));
            }
            for merged in left_out.sources(self.rt) {
                if merged.left_out > 0 {
                    self.journal
                        .tell(self.rt, left_out_line(self.alloc, &merged));
                }
            }
        }
    }
}
