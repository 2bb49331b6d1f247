//! A bus of a simulated grid: what its PMU says of it at each instant.
//!
//! All buses are of one grid, so that the PMUs of all ids fit together. Its frequency is nominal but for
//!
//! - a load that is switched on as each even minute begins, and off as each odd one does: frequency falls by 80 mHz within 1.5 s, is back
//!   at -30 mHz after 10 s and nominal after 40 s, or rises by the same;
//! - a swing of 0.3 Hz between two areas, the buses with odd and those with even ids: up to 20 mHz, in one area up and in the other down.
//!
//! The angles are those that this frequency makes, and differ from bus to bus. All is counted in whole numbers: frequency in µHz, time in
//! ms, and angles in what a µHz turns in a ms, 1 000 000 000 of which are a turn.
ghost use Rattle.std.specs.Prelude.{◌≡◌, ◌∷◌, ℕ, List, length};
ghost use Rattle.pdc_simulation.specs.declared.grid.TheConstants.{WORDS};

use std::alloc::{AllocError, Global};

/// The words of a block: STAT, six phasors, FREQ, DFREQ and a digital word.
pub const WORDS: usize = 16;

/// The milliseconds of a minute.
const MINUTE: u32 = 60_000;

/// A turn, and a third of it: how far the phases lie apart.
const TURN: i64 = 1_000_000_000;

const THIRD: i64 = 333_333_333;

/// How far the angle of a bus lies behind that of the bus before it.
const APART: i64 = 15_000_000;

/// How far the currents lie behind the voltages.
const BEHIND: i64 = 60_000_000;

/// A turn in the unit of an angle in a frame, ten-thousandths of a radian.
const TURN_IN_FRAME: i64 = 62_832;

/// The swing at a bus that takes part in it whole: its frequency in µHz, its change in µHz a ms, and its angle.
const SWING: i64 = 20_000;

const SWING_CHANGE: i64 = 38;

const SWING_ANGLE: i64 = 10_610_330;

/// The sine, in thousandths, at each 24th of a turn.
const SINE: [i16; 25] = [
    0, 259, 500, 707, 866, 966, 1000, 966, 866, 707, 500, 259, 0, -259, -500, -707, -866, -966,
    -1000, -966, -866, -707, -500, -259, 0,
];

/// The sine of so many ten-thousandths of a turn, in thousandths.
fn sine(phase: u32) -> i64 {
    let place = phase % 10_000 * 24;
    let (before, rest) = ((place / 10_000) as usize, i64::from(place % 10_000));
    let (from, to) = (i64::from(SINE[before]), i64::from(SINE[before + 1]));
    from + (to - from).saturating_mul(rest) / 10_000
}

/// Frequency in µHz, its change in µHz a ms, and the angle that it has made.
#[derive(Clone, Copy)]
struct Course {
    frequency: i64,
    change: i64,
    angle: i64,
}

/// A straight part of a course: what it begins with, and by how many µHz its frequency changes in its whole length, in ms.
#[derive(Clone, Copy)]
struct Part {
    frequency: i64,
    angle: i64,
    change: i64,
    length: i64,
}

/// The course so many milliseconds after a part of it began.
fn along(part: Part, passed: i64) -> Course {
    let moved = part.change.saturating_mul(passed).checked_div(part.length);
    let frequency = part.frequency.saturating_add(moved.unwrap_or(0));
    let turned = part
        .frequency
        .saturating_add(frequency)
        .saturating_mul(passed)
        / 2;
    Course {
        frequency,
        change: part.change.checked_div(part.length).unwrap_or(0),
        angle: part.angle.saturating_add(turned),
    }
}

/// The parts of the course behind a load that is switched on: frequency falls, is regulated at once, and slowly.
const FALL: Part = Part {
    frequency: 0,
    angle: 0,
    change: -80_000,
    length: 1_500,
};

const FIRST_RISE: Part = Part {
    frequency: -80_000,
    angle: -60_000_000,
    change: 50_000,
    length: 8_500,
};

const LAST_RISE: Part = Part {
    frequency: -30_000,
    angle: -527_500_000,
    change: 30_000,
    length: 30_000,
};

/// What the angle has turned by when frequency is nominal again.
const TURNED: i64 = -977_500_000;

/// What a load makes that is switched on, so many milliseconds after.
fn after_load(ms: u32) -> Course {
    let at = i64::from(ms);
    if ms < 1_500 {
        along(FALL, at)
    } else if ms < 10_000 {
        along(FIRST_RISE, at - 1_500)
    } else if ms < 40_000 {
        along(LAST_RISE, at - 10_000)
    } else {
        Course {
            frequency: 0,
            change: 0,
            angle: TURNED,
        }
    }
}

/// What the load makes at so many milliseconds of two minutes: it is on in the first, and what it turned the angle back by is made up for
/// in the second.
fn load_at(ms: u32) -> Course {
    if ms < MINUTE {
        return after_load(ms);
    }
    let on = after_load(ms % MINUTE);
    Course {
        frequency: on.frequency.saturating_neg(),
        change: on.change.saturating_neg(),
        angle: TURNED.saturating_sub(on.angle),
    }
}

/// How much of the swing a bus has, in quarters: below zero in the other area.
fn share_of(id: u16) -> i64 {
    let size = i64::from(id / 2 % 4) + 1;
    if id % 2 == 1 { size } else { -size }
}

/// The course of a bus.
fn course_of(id: u16, ms: u32) -> Course {
    let load = load_at(ms);
    let phase = ms % MINUTE * 3;
    let share = share_of(id);
    let part = |whole: i64, thousandths: i64| {
        whole.saturating_mul(thousandths).saturating_mul(share) / 4_000
    };
    let cosine = sine(phase + 2_500);
    Course {
        frequency: load.frequency.saturating_add(part(SWING, sine(phase))),
        change: load.change.saturating_add(part(SWING_CHANGE, cosine)),
        angle: load
            .angle
            .saturating_add(part(SWING_ANGLE, 1_000_i64.saturating_sub(cosine))),
    }
}

/// An angle as the word of a frame: in ten-thousandths of a radian, from -31416 on.
fn angle_word(angle: i64) -> u16 {
    let turned = angle.saturating_add(TURN / 2).rem_euclid(TURN) - TURN / 2;
    word_of(turned.saturating_mul(TURN_IN_FRAME) / TURN)
}

/// A number as a word with a sign.
fn word_of(number: i64) -> u16 {
    i16::try_from(number).unwrap_or(0).cast_unsigned()
}

/// A number as a word without a sign.
fn size_word(number: i64) -> u16 {
    u16::try_from(number).unwrap_or(0)
}

/// The words of the bus's block at so many milliseconds since 1970: STAT 0; voltages and currents of three phases, each as magnitude and
/// angle; FREQ and DFREQ; and the breaker of the load, which is closed while the load is on.
pub fn grid_words(id: u16, since: u64) -> [u16; WORDS]
    ensures stat { (values : List ℕ) × (result ≡ 0 ∷ values) }
    ensures len { length result ≡ WORDS }
{
    let ms = (since % 120_000) as u32;
    let course = course_of(id, ms);
    let is_on = ms < MINUTE;
    let bus = i64::from(id % 8);
    let angle = course.angle.saturating_sub(i64::from(id % 16) * APART);
    let voltage = size_word(course.frequency / 200 + 46_188 - bus * 60);
    let current = size_word(24_000 + bus * 500 + if is_on { 2_000 } else { 0 });
    let behind = angle.saturating_sub(BEHIND);
    [
        0,
        voltage,
        angle_word(angle),
        voltage,
        angle_word(angle.saturating_sub(THIRD)),
        voltage,
        angle_word(angle.saturating_add(THIRD)),
        current,
        angle_word(behind),
        current,
        angle_word(behind.saturating_sub(THIRD)),
        current,
        angle_word(behind.saturating_add(THIRD)),
        word_of(course.frequency / 1_000),
        word_of(course.change / 10),
        u16::from(is_on),
    ]
}

/// TIME_BASE 1000000, and one PMU.
const HEAD: [u8; 6] = *b"\x00\x0F\x42\x40\x00\x01";

/// IDCODE, which is set when it is sent; FORMAT 1, words of 16 bits and polar phasors; six phasors, no analog values, one digital word.
const SHAPE: [u8; 10] = *b"\x00\x01\x00\x01\x00\x06\x00\x00\x00\x01";

/// The names of the phasors.
const NAMES: [&str; 6] = ["VA", "VB", "VC", "IA", "IB", "IC"];

/// PHUNIT of a voltage, 5 V a count, and of a current, 0.02 A a count.
const VOLTAGE_UNIT: [u8; 4] = *b"\x00\x07\xA1\x20";

const CURRENT_UNIT: [u8; 4] = *b"\x01\x00\x07\xD0";

/// DIGUNIT: bit 0 is valid, and normally 0; FNOM, 50 Hz; CFGCNT; and DATA_RATE.
const TAIL: [u8; 10] = *b"\x00\x00\x00\x01\x00\x01\x00\x01\x00\x32";

/// The payload of the configuration of the bus's PMU.
///
/// # Errors
///
/// [`AllocError`] where there is no memory for it.
pub fn grid_payload(alloc: Global, id: u16) -> Result<Vec<u8>, AllocError> {
    let mut payload = Vec::new(alloc);
    payload.extend_from_slice(&HEAD)?;
    payload.extend_from_slice(format!(in alloc; "BUS {id:05}       ")?.as_bytes())?;
    payload.extend_from_slice(&SHAPE)?;
    for name in NAMES.iter() {
        payload.extend_from_slice(format!(in alloc; "{name:<16}")?.as_bytes())?;
    }
    payload.extend_from_slice(b"BREAKER         ")?;
    for _ in 0..15 {
        payload.extend_from_slice(b"                ")?;
    }
    for _ in 0..3 {
        payload.extend_from_slice(&VOLTAGE_UNIT)?;
    }
    for _ in 0..3 {
        payload.extend_from_slice(&CURRENT_UNIT)?;
    }
    payload.extend_from_slice(&TAIL)?;
    Ok(payload)
}
