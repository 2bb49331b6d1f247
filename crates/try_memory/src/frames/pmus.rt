//! Simulated PMUs.
ghost use Rattle.std.specs.Prelude.{◌≡◌};

use crate::frames::answers::of_pmu;
use crate::trial::{NO_CALL, State, Trial, make, state_of};
use crate::vectors::{BEFORE, CONFIG_11, FIRST, SOC, STREAM, TEXT, WORDS};
use pdc_cfg::read_config;
use pdc_frame::{SECONDS, read_frame};
use pdc_simulation::Pmu;
use std::alloc::{AllocError, Global};
use std::io;

/// The frames in a second.
const RATE: u16 = 50;

/// What a PMU sends.
#[derive(Clone, Copy)]
enum Sent {
    Header,
    Config,
    Data,
    Later,
}

/// All of it.
const ALL: [Sent; 4] = [Sent::Header, Sent::Config, Sent::Data, Sent::Later];

/// A PMU, and what it appends its frames to.
#[derive(Drop)]
struct PmuTrial {
    sent: Sent,
    pmu: Pmu,
    rate: u16,
    out: Vec<u8>,
    ghost rate_kept: { pmu.rate ≡ rate },
}

impl PmuTrial {
    /// Sends the first section of a configuration.
    fn configure(&mut self) -> &'static str {
        let Ok(frame) = read_frame(&CONFIG_11) else {
            return NO_CALL;
        };
        let Ok(config) = read_config(&frame) else {
            return NO_CALL;
        };
        match config.sections.first() {
            Some(section) => of_pmu(self.pmu.set_configuration(SOC, section, &mut self.out)),
            None => NO_CALL,
        }
    }

    /// Sends this, on three bytes.
    fn play_one<R: Print>(&mut self, rt: &R, alloc: Global, sent: Sent) -> io::Result<()> {
        self.sent = sent;
        self.out = Vec::from_slice(alloc, &BEFORE)?;
        make(rt, self)
    }

    /// Sends data.
    fn send(&mut self, instant: u64) -> &'static str {
        match self.pmu.shape() {
            Some(shape) => {
                if shape.word_count() != WORDS.len() || instant >= SECONDS * u64::from(self.rate) {
                    return NO_CALL;
                }
                of_pmu(self.pmu.send(instant, &WORDS, &mut self.out))
            }
            None => NO_CALL,
        }
    }
}

impl Trial for PmuTrial {
    fn name(&self) -> &'static str {
        match self.sent {
            Sent::Header => "Pmu::set_header",
            Sent::Config => "Pmu::set_configuration",
            Sent::Data => "Pmu::send",
            Sent::Later => "Pmu::send of the next",
        }
    }

    fn state(&self) -> State {
        state_of(&self.out, u64::from(self.pmu.shape().is_some()))
    }

    fn call(&mut self) -> &'static str {
        match self.sent {
            Sent::Header => of_pmu(self.pmu.set_header(SOC, &TEXT, &mut self.out)),
            Sent::Config => self.configure(),
            Sent::Data => self.send(FIRST),
            Sent::Later => self.send(FIRST + 1),
        }
    }

    fn renew(&mut self) -> Result<(), AllocError> {
        Ok(())
    }
}

/// One PMU sends all of it, each frame on three bytes.
pub fn play<R: Print>(rt: &R, alloc: Global) -> io::Result<()> {
    let mut trial = PmuTrial {
        sent: Sent::Header,
        pmu: Pmu::new(STREAM, RATE, 1_000_000),
        rate: RATE,
        out: Vec::new(alloc),
    };
    for sent in ALL {
        trial.play_one(rt, alloc, sent)?;
    }
    Ok(())
}
