//! From bytes to values.
ghost use Rattle.std.specs.Prelude.{◌≤◌, ◌<◌};
ghost use Rattle.pdc_frame.specs.declared.tag_limits.TheConstants.{COUNT_LIMIT, MAX_RATE};

use pdc_block::Body;
use pdc_cfg::{ConfigView, MAX_ANALOGS, MAX_DIGITALS, MAX_PHASORS, Shape, read_config};
use pdc_frame::{COUNT_LIMIT, MAX_RATE, check_word, instant, read_frame};

/// The shape of these numbers, where they are within the limits.
pub(crate) fn shape_of(phasors: u8, analogs: u8, digitals: u8) -> Option<Shape> {
    if phasors > MAX_PHASORS || analogs > MAX_ANALOGS || digitals > MAX_DIGITALS {
        return None;
    }
    Some(Shape {
        phasors,
        analogs,
        digitals,
    })
}

/// The check word of the bytes.
#[unsafe(no_mangle)]
pub extern "C" fn dagluwis_check_word(bytes: &[u8]) -> u16 {
    check_word(bytes)
}

/// A number that depends on the configuration.
fn mix(config: &ConfigView<'_>) -> u64 {
    let mut mixed = u64::from(config.time_base);
    for section in config.sections.as_slice() {
        mixed ^= u64::from(section.source) << 32
            ^ u64::from(section.count)
            ^ section.bytes.len() as u64;
    }
    mixed
}

/// What a configuration frame says; 0 where it is refused.
#[inline]
fn said_by_config(bytes: &[u8]) -> u64 {
    let Ok(frame) = read_frame(bytes) else {
        return 0;
    };
    // It is read where it was made, and not moved.
    match &read_config(&frame) {
        Ok(config) => mix(config),
        Err(_) => 0,
    }
}

/// Reads the configuration frames of this length that lie one behind the other, from the first to the last, so many times, and mixes what
/// they say; 0 where there is no length.
#[unsafe(no_mangle)]
pub extern "C" fn dagluwis_read_configs(frames: &[u8], len: usize, rounds: u32) -> u64 {
    if len == 0 {
        return 0;
    }
    let mut mixed = 0u64;
    for _ in 0..rounds {
        for bytes in frames.chunks(len) {
            mixed = mixed.rotate_left(1) ^ said_by_config(bytes);
        }
    }
    mixed
}

/// What is known of the PMU whose data is read.
#[derive(Clone, Copy)]
struct Sender {
    shape: Shape,
    time_base: u32,
    rate: u32,
    ghost rate_low: { 1 ≤ rate },
    ghost rate_high: { rate ≤ MAX_RATE },
    ghost time_base_fits: { time_base < COUNT_LIMIT },
}

/// The instant of a data frame of this PMU, mixed with its words; 0 where it is refused.
#[inline]
fn said_by_data(sender: Sender, bytes: &[u8]) -> u64 {
    let Sender {
        shape,
        time_base,
        rate,
    } = sender;
    let Ok(frame) = read_frame(bytes) else {
        return 0;
    };
    let Ok(body) = Body::new(shape, frame.payload) else {
        return 0;
    };
    let Some(instant) = instant(frame.soc, frame.frac, time_base, rate) else {
        return 0;
    };
    let mut mixed = instant;
    for place in 0..shape.word_count() {
        mixed ^= u64::from(body.word(place));
    }
    mixed
}

/// Reads the data frames of this length, of one PMU, that lie one behind the other, from the first to the last, so many times, and mixes
/// what they say; 0 where there is no length, or the PMU is none.
#[unsafe(no_mangle)]
pub extern "C" fn dagluwis_read_data(
    frames: &[u8],
    len: usize,
    phasors: u8,
    analogs: u8,
    digitals: u8,
    time_base: u32,
    rate: u32,
    rounds: u32,
) -> u64 {
    let Some(shape) = shape_of(phasors, analogs, digitals) else {
        return 0;
    };
    if len == 0 || rate == 0 || rate > MAX_RATE || time_base >= COUNT_LIMIT {
        return 0;
    }
    let sender = Sender {
        shape,
        time_base,
        rate,
    };
    let mut mixed = 0u64;
    for _ in 0..rounds {
        for bytes in frames.chunks(len) {
            mixed = mixed.rotate_left(1) ^ said_by_data(sender, bytes);
        }
    }
    mixed
}
