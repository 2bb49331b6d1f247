//! STAT in words.

use pdc_block::{ErrorClass, Stat};
use std::alloc::AllocError;

/// What stands between two of the words: no comma, so that CSV needs no quotes.
const SEPARATOR: &[u8; 2] = b"; ";

/// Bits 15 and 14.
fn class_words(class: ErrorClass) -> &'static str {
    match class {
        ErrorClass::Good => "good",
        ErrorClass::PmuError => "PMU error without information",
        ErrorClass::TestOrAbsent => "test mode or absent data",
        ErrorClass::ErrorNoUse => "PMU error and not to be used",
    }
}

/// Bits 13 to 9, one by one.
fn flag_words(bit: u8) -> &'static str {
    match bit {
        13 => "not in sync with UTC",
        12 => "sorted by arrival",
        11 => "trigger",
        10 => "configuration change",
        _ => "data modified",
    }
}

/// Bits 8 to 6, the time error of the PMU; 0 says nothing of it.
fn quality_words(quality: u16) -> &'static str {
    match quality {
        1 => "time error below 100 ns",
        2 => "time error below 1 us",
        3 => "time error below 10 us",
        4 => "time error below 100 us",
        5 => "time error below 1 ms",
        6 => "time error below 10 ms",
        _ => "time error over 10 ms or unknown",
    }
}

/// Bits 5 and 4, for how long the clock has not been locked; 0 is less than 10 seconds.
fn unlocked_words(unlocked: u16) -> &'static str {
    match unlocked {
        1 => "unlocked for 10 s",
        2 => "unlocked for 100 s",
        _ => "unlocked for 1000 s",
    }
}

/// Bits 3 to 0, what pulled the trigger.
fn trigger_words(reason: u16) -> &'static str {
    match reason {
        0 => "manual",
        1 => "magnitude low",
        2 => "magnitude high",
        3 => "phase angle difference",
        4 => "frequency high or low",
        5 => "rate of change of frequency high",
        6 => "trigger reason 6",
        7 => "digital",
        _ => "trigger of the user's",
    }
}

/// Appends some words behind others.
fn append_words(words: &str, out: &mut Vec<u8>) -> Result<(), AllocError> {
    out.extend_from_slice(SEPARATOR)?;
    out.extend_from_slice(words.as_bytes())
}

/// Appends STAT in words (C37.118.2-2011, table 7): the error class, then each flag that is set, the time error and the unlocked time where they
/// are not 0, and what pulled the trigger.
///
/// # Errors
///
/// [`AllocError`] where there is no room and none is got.
pub fn append_stat_words(stat: u16, out: &mut Vec<u8>) -> Result<(), AllocError> {
    out.extend_from_slice(class_words(Stat(stat).error_class()).as_bytes())?;
    if stat & 0x3FFF == 0 {
        return Ok(());
    }
    for bit in [13, 12, 11, 10, 9u8] {
        if (stat >> bit) & 1 == 1 {
            append_words(flag_words(bit), out)?;
        }
    }
    let (quality, unlocked) = ((stat >> 6) & 0b111, (stat >> 4) & 0b11);
    if quality > 0 {
        append_words(quality_words(quality), out)?;
    }
    if unlocked > 0 {
        append_words(unlocked_words(unlocked), out)?;
    }
    if (stat >> 11) & 1 == 1 {
        append_words(trigger_words(stat & 0b1111), out)?;
    }
    Ok(())
}
