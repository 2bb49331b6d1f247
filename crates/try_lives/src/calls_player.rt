//! Single calls on tags and blocks.
//!
//! | Call | Answer |
//! |---|---|
//! | `slot FRAC TIME_BASE RATE` | the slot, or `none` |
//! | `instant SOC FRAC TIME_BASE RATE` | the instant, or `none` |
//! | `tag INSTANT TIME_BASE RATE` | SOC and FRAC |
//! | `stat WORD` | the error class, and `in sync` or `out of sync` |
//! | `absent PHASORS ANALOGS DIGITALS` | the words of the absent block of this shape |
//! | `is_absent WORD..` | whether the block of one phasor with these words is absent |
//!
//! What is none of these, or what cannot be asked, is answered `no such call`.
ghost use Rattle.std.specs.Prelude.{◌≤◌};

use arrayvec::ArrayVec;
use pdc_block::{Block, Stat, absent, is_absent};
use pdc_cfg::{MAX_ANALOGS, MAX_DIGITALS, MAX_PHASORS, Shape};
use pdc_frame::{COUNT_LIMIT, MAX_RATE, SECONDS, instant, slot, tag_of};
use std::alloc::{AllocError, Global};
use try_script::{Player, numbers};

/// The shape of one phasor.
const ONE_PHASOR: Shape = Shape {
    phasors: 1,
    analogs: 0,
    digitals: 0,
};

/// Who makes single calls.
#[derive(Clone, Copy)]
pub struct CallsPlayer;

/// The number, or `none`; no answer where the call cannot be asked.
fn found(alloc: Global, answer: Option<Option<u64>>) -> Result<Option<String>, AllocError> {
    match answer {
        None => Ok(None),
        Some(None) => Ok(Some("none".to_string(alloc)?)),
        Some(Some(number)) => Ok(Some(number.to_string(alloc)?)),
    }
}

/// The slot, where it can be asked.
fn slot_of(words: &[&str]) -> Option<Option<u64>> {
    let [frac, time_base, rate] = numbers::<3>(words)?;
    let limit = u64::from(COUNT_LIMIT);
    if frac >= limit || time_base >= limit || rate < 1 || rate > u64::from(MAX_RATE) {
        return None;
    }
    Some(slot(frac as u32, time_base as u32, rate as u32).map(u64::from))
}

/// The instant, where it can be asked.
fn instant_of(words: &[&str]) -> Option<Option<u64>> {
    let [soc, frac, time_base, rate] = numbers::<4>(words)?;
    let soc = u32::try_from(soc).ok()?;
    let limit = u64::from(COUNT_LIMIT);
    if frac >= limit || time_base >= limit || rate < 1 || rate > u64::from(MAX_RATE) {
        return None;
    }
    Some(instant(soc, frac as u32, time_base as u32, rate as u32))
}

/// The tag, where it can be asked.
fn tag(words: &[&str]) -> Option<(u32, u32)> {
    let [at, time_base, rate] = numbers::<3>(words)?;
    if rate < 1 || rate > u64::from(MAX_RATE) || at >= SECONDS * rate {
        return None;
    }
    if time_base < rate || time_base >= u64::from(COUNT_LIMIT) {
        return None;
    }
    Some(tag_of(at, time_base as u32, rate as u32))
}

/// The tag's text, where it can be asked.
fn tag_text(alloc: Global, words: &[&str]) -> Result<Option<String>, AllocError> {
    match tag(words) {
        Some((soc, frac)) => Ok(Some(format!(in alloc; "{soc} {frac}")?)),
        None => Ok(None),
    }
}

/// What STAT says.
fn stat_text(alloc: Global, word: &str) -> Result<Option<String>, AllocError> {
    let Ok(word) = u16::from_str_radix(word, 16) else {
        return Ok(None);
    };
    let stat = Stat(word);
    let sync = if stat.in_sync() {
        "in sync"
    } else {
        "out of sync"
    };
    Ok(Some(format!(in alloc; "{:?} {sync}", stat.error_class())?))
}

/// The shape, where it is within the limits.
fn shape_of(words: &[&str]) -> Option<Shape> {
    let [phasors, analogs, digitals] = numbers::<3>(words)?;
    if phasors > u64::from(MAX_PHASORS)
        || analogs > u64::from(MAX_ANALOGS)
        || digitals > u64::from(MAX_DIGITALS)
    {
        return None;
    }
    Some(Shape {
        phasors: phasors as u8,
        analogs: analogs as u8,
        digitals: digitals as u8,
    })
}

/// The words in hexadecimal, with a space between them.
fn words_text(alloc: Global, words: &[u16]) -> Result<String, AllocError> {
    let mut texts = Vec::new(alloc);
    for word in words {
        texts.push(format!(in alloc; "{word:04X}")?)?;
    }
    texts.as_slice().join(alloc, " ")
}

/// The words of the absent block of the shape.
fn absent_text(alloc: Global, words: &[&str]) -> Result<Option<String>, AllocError> {
    match shape_of(words) {
        Some(shape) => Ok(Some(words_text(alloc, absent(shape).words())?)),
        None => Ok(None),
    }
}

/// The five words in hexadecimal.
fn five_words(words: &[&str]) -> Option<[u16; 5]> {
    if words.len() != 5 {
        return None;
    }
    let mut numbers = [0; 5];
    for (place, word) in words.iter().enumerate() {
        *numbers.get_mut(place)? = u16::from_str_radix(word, 16).ok()?;
    }
    Some(numbers)
}

/// Whether the block of one phasor with these words is absent.
fn is_absent_text(alloc: Global, words: &[&str]) -> Result<Option<String>, AllocError> {
    match five_words(words) {
        Some(words) => {
            let block = Block::from_words(ONE_PHASOR, &words);
            Ok(Some(is_absent(&block).to_string(alloc)?))
        }
        None => Ok(None),
    }
}

/// The answer, where the call can be asked.
fn answer(alloc: Global, name: &str, words: &[&str]) -> Result<Option<String>, AllocError> {
    match name {
        "slot" => found(alloc, slot_of(words)),
        "instant" => found(alloc, instant_of(words)),
        "tag" => tag_text(alloc, words),
        "stat" => stat_text(alloc, words.first().unwrap_or(&"")),
        "absent" => absent_text(alloc, words),
        "is_absent" => is_absent_text(alloc, words),
        _ => Ok(None),
    }
}

/// The answer to the call of these words.
fn told(alloc: Global, words: &[&str]) -> Result<String, AllocError> {
    let (name, words) = words.split_first().unwrap_or((&"", &[]));
    match answer(alloc, name, words)? {
        Some(text) => Ok(text),
        None => "no such call".to_string(alloc),
    }
}

impl Player for CallsPlayer {
    fn play(&mut self, alloc: Global, call: &str) -> Result<String, AllocError> {
        let words: Vec<&str> = call.split_whitespace().collect(alloc)?;
        told(alloc, &words)
    }
}
