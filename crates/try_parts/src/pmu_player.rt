//! A simulated PMU.
//!
//! | Call | Answer |
//! |---|---|
//! | `new ID RATE TIME_BASE` | `ok`; the calls below go to this PMU |
//! | `set_id ID` | `ok`, or the fault |
//! | `shape` | its phasors, analog values and digital words, or `none` |
//! | `header SOC TEXT` | the frame, or the fault |
//! | `config SOC FRAME` | the frame with the first section of this configuration frame, or the fault |
//! | `configs TIMES FRAME` | how many of so many configurations it sent |
//! | `send INSTANT WORD..` | the frame, or the fault |
//!
//! Frames are in hexadecimal. What is none of these, or what the PMU cannot be asked, is answered `no such call`.
ghost use Rattle.std.specs.Prelude.{◌≡◌};

use crate::told::NO_CALL;
use crate::words::stream_id;
use arrayvec::ArrayVec;
use pdc_cfg::{Shape, read_config};
use pdc_frame::{COUNT_LIMIT, MAX_RATE, MAX_TEXT, SECONDS, StreamId, read_frame};
use pdc_simulation::{Pmu, PmuFault};
use std::alloc::{AllocError, Global};
use try_script::Player;

/// The most words of a block.
const MAX_WORDS: usize = 107;

/// A PMU that a script plays on.
#[derive(Drop)]
pub struct PmuPlayer {
    pmu: Pmu,
    rate: u16,
    ghost rate_kept: { pmu.rate ≡ rate },
}

impl PmuPlayer {
    /// With PMU 1 of one frame a second.
    pub fn new() -> PmuPlayer {
        PmuPlayer {
            pmu: Pmu::new(StreamId { value: 1 }, 1, 1),
            rate: 1,
        }
    }

    /// Begins another PMU.
    fn begin(&mut self, id: &str, rate: &str, time_base: &str) -> Option<Result<(), PmuFault>> {
        let (Some(id), Ok(rate)) = (stream_id(id), rate.parse::<u16>()) else {
            return None;
        };
        let Ok(time_base) = time_base.parse::<u32>() else {
            return None;
        };
        if rate == 0 || u32::from(rate) > MAX_RATE {
            return None;
        }
        if time_base < u32::from(rate) || time_base >= COUNT_LIMIT {
            return None;
        }
        *self = PmuPlayer {
            pmu: Pmu::new(id, rate, time_base),
            rate,
        };
        Some(Ok(()))
    }

    /// Gives the PMU another id.
    fn set_id(&mut self, id: &str) -> Option<Result<(), PmuFault>> {
        Some(self.pmu.set_id(stream_id(id)?))
    }

    /// Sends data, where the words fit the shape.
    fn send(
        &mut self,
        instant: &str,
        words: &ArrayVec<u16, MAX_WORDS>,
        out: &mut Vec<u8>,
    ) -> Option<Result<(), PmuFault>> {
        let instant: u64 = instant.parse().ok()?;
        let shape = self.pmu.shape()?;
        if instant >= SECONDS * u64::from(self.rate) || words.len() != shape.word_count() {
            return None;
        }
        Some(self.pmu.send(instant, words, out))
    }

    /// Sends the configuration of the first section of a frame.
    fn configure(
        &mut self,
        soc: u32,
        frame: &[u8],
        out: &mut Vec<u8>,
    ) -> Option<Result<(), PmuFault>> {
        let Ok(frame) = read_frame(frame) else {
            return None;
        };
        let Ok(config) = read_config(&frame) else {
            return None;
        };
        let section = config.sections.first()?;
        Some(self.pmu.set_configuration(soc, section, out))
    }

    /// What the header with this text is answered.
    fn header_text(&mut self, alloc: Global, soc: &str, text: &str) -> Result<String, AllocError> {
        let (Ok(soc), true) = (soc.parse::<u32>(), text.len() <= MAX_TEXT) else {
            return NO_CALL.to_string(alloc);
        };
        let mut out = Vec::new(alloc);
        let answer = self.pmu.set_header(soc, text.as_bytes(), &mut out);
        told(alloc, Some(answer), &out)
    }

    /// What the configuration of this frame is answered.
    fn config_text(
        &mut self,
        alloc: Global,
        soc: &str,
        digits: &str,
    ) -> Result<String, AllocError> {
        let (Ok(soc), Ok(frame)) = (soc.parse::<u32>(), hex::decode(alloc, digits)) else {
            return NO_CALL.to_string(alloc);
        };
        let mut out = Vec::new(alloc);
        let answer = self.configure(soc, &frame, &mut out);
        told(alloc, answer, &out)
    }

    /// How many of so many configurations of this frame are sent.
    fn configs_text(
        &mut self,
        alloc: Global,
        times: &str,
        digits: &str,
    ) -> Result<String, AllocError> {
        let (Ok(times), Ok(frame)) = (times.parse::<u32>(), hex::decode(alloc, digits)) else {
            return NO_CALL.to_string(alloc);
        };
        configs(alloc, self, times, &frame)
    }

    /// What data with these words is answered.
    fn send_text(
        &mut self,
        alloc: Global,
        instant: &str,
        words: &str,
    ) -> Result<String, AllocError> {
        let Some(words) = words_of(words) else {
            return NO_CALL.to_string(alloc);
        };
        let mut out = Vec::new(alloc);
        let answer = self.send(instant, &words, &mut out);
        told(alloc, answer, &out)
    }
}

/// The words of a call.
fn words_of(text: &str) -> Option<ArrayVec<u16, MAX_WORDS>> {
    let mut words = ArrayVec::new();
    for word in text.split(' ') {
        words.try_push(word.parse().ok()?).ok()?;
    }
    Some(words)
}

/// The frame, or why there is none.
fn told(
    alloc: Global,
    answer: Option<Result<(), PmuFault>>,
    frame: &[u8],
) -> Result<String, AllocError> {
    match answer {
        Some(Ok(())) if frame.is_empty() => "ok".to_string(alloc),
        Some(Ok(())) => hex::encode_upper(alloc, frame),
        Some(Err(fault)) => format!(in alloc; "{fault}"),
        None => NO_CALL.to_string(alloc),
    }
}

/// How many of so many configurations are sent.
fn configs(
    alloc: Global,
    player: &mut PmuPlayer,
    times: u32,
    frame: &[u8],
) -> Result<String, AllocError> {
    let mut sent: u32 = 0;
    let mut out = Vec::new(alloc);
    for _ in 0..times {
        out.clear();
        if let Some(Ok(())) = player.configure(0, frame, &mut out) {
            sent = sent.saturating_add(1);
        }
    }
    sent.to_string(alloc)
}

/// The shape of the last configuration.
fn shape_text(alloc: Global, shape: Option<Shape>) -> Result<String, AllocError> {
    match shape {
        Some(shape) => format!(in alloc; "{} {} {}", shape.phasors, shape.analogs, shape.digitals),
        None => "none".to_string(alloc),
    }
}

impl Player for PmuPlayer {
    fn play(&mut self, alloc: Global, call: &str) -> Result<String, AllocError> {
        let (word, rest) = call.split_once(' ').unwrap_or((call, ""));
        let (first, second) = rest.split_once(' ').unwrap_or((rest, ""));
        match word {
            "new" => {
                let (rate, time_base) = second.split_once(' ').unwrap_or((second, ""));
                told(alloc, self.begin(first, rate, time_base), &[])
            }
            "set_id" => told(alloc, self.set_id(first), &[]),
            "shape" => shape_text(alloc, self.pmu.shape()),
            "header" => self.header_text(alloc, first, second),
            "config" => self.config_text(alloc, first, second),
            "configs" => self.configs_text(alloc, first, second),
            "send" => self.send_text(alloc, first, second),
            _ => NO_CALL.to_string(alloc),
        }
    }
}
