//! A line of a script.
ghost use Rattle.std.specs.Prelude.{◌≡◌, IfOk, IsErrOf, None, OnErr, Some, option_map};
ghost use Rattle.pdc_history.specs.pdc_memory.Asking.{SomeWasRefused};
ghost use Rattle.pdc_history.specs.Handed.{act_of, asked_of, store_of, who_of};
ghost use Rattle.pdc_history.specs.Event.{StopDuring};
ghost use Rattle.pdc_play.specs.Line.{act_of_core, asked_behind, asked_of_core, asked_of_line};
ghost use Rattle.pdc_play.specs.Line.{asked_of_three, asked_of_two, core_of, landing_of};
ghost use Rattle.pdc_play.specs.Word.{cut};
ghost use Rattle.pdc_play.specs.Written.{asked_in};
ghost use Rattle.pdc_play.specs.declared.line.NotRead.{NotRead};

use crate::hexadecimal::bytes;
use crate::number::number;
use crate::word::cut_word;
use crate::written::Written;
use pdc_history::{Act, Event, StopAt, Storing, Who};
use std::alloc::{AllocError, Global};
use thiserror::Error;

/// Why a line is not read as an event.
#[derive(Clone, Copy, Debug, PartialEq, Eq, Error)]
pub enum NotRead {
    /// It has another form than each event's.
    #[error("not an event")]
    NotAnEvent,
    /// A request for memory for its bytes was refused.
    #[error("Z1 NoMemory")]
    NoMemory,
}

impl From<AllocError> for NotRead {
    ghost from_gives = { λ _ fault. fault ≡ NotRead.NoMemory };

    fn from(_error: AllocError) -> NotRead {
        NotRead::NoMemory
    }
}

/// The core that the word names.
fn core(word: &[u8]) -> Option<Who>
    ensures { option_map who_of result ≡ core_of word.now }
{
    if word == b"A".as_slice() {
        Some(Who::A)
    } else if word == b"B".as_slice() {
        Some(Who::B)
    } else if word == b"M".as_slice() {
        Some(Who::M)
    } else {
        None
    }
}

/// Whether a store is done in which a core stops, as the word says.
fn landing(word: &[u8]) -> Option<bool>
    ensures { result ≡ landing_of word.now }
{
    if word == b"landed".as_slice() {
        Some(true)
    } else if word == b"lost".as_slice() {
        Some(false)
    } else {
        None
    }
}

/// The event of a line of two words.
fn read_two(alloc: Global, verb: &[u8], word: &[u8]) -> Result<Option<Written>, AllocError>
    ensures event { IfOk result (λ found. option_map asked_in found ≡
        asked_of_two verb.now word.now) }
    ensures refused { OnErr result SomeWasRefused }
{
    if verb == b"send".as_slice() {
        return Ok(bytes(alloc, word)?.map(|bytes| Written::Send { bytes }));
    }
    let event = if verb == b"publish".as_slice() {
        core(word).map(|who| Event::Do {
            who,
            act: Act::Publish,
        })
    } else if verb == b"stop".as_slice() {
        core(word).map(|who| Event::Do {
            who,
            act: Act::Stop(StopAt::Between),
        })
    } else {
        None
    };
    Ok(event.map(Written::Other))
}

/// The stop in a store, which landed or not as the word says.
fn stop_in(storing: Storing, word: &[u8]) -> Option<Act>
    ensures { option_map act_of result ≡
        option_map (StopDuring (store_of storing)) (landing_of word.now) }
{
    landing(word).map(|landed| Act::Stop(StopAt::In { storing, landed }))
}

/// What a core does by a line of three words.
fn act(verb: &[u8], word: &[u8]) -> Option<Act>
    ensures { option_map act_of result ≡ act_of_core verb.now word.now }
{
    if verb == b"tick".as_slice() {
        number(word).map(|now| Act::Tick { now })
    } else if verb == b"stopin".as_slice() {
        stop_in(Storing::Publish, word)
    } else if verb == b"stoptick".as_slice() {
        stop_in(Storing::Tick, word)
    } else if verb == b"stopstart".as_slice() {
        stop_in(Storing::Start, word)
    } else {
        None
    }
}

/// The event that a core is asked by a line of three words, where it brings no bytes.
fn core_event(verb: &[u8], who: Who, word: &[u8]) -> Option<Event<'static>>
    ensures { option_map asked_of result ≡ asked_of_core verb.now (who_of who) word.now }
{
    if verb == b"to".as_slice() {
        number(word).map(|number| Event::To {
            who,
            number: number as usize,
        })
    } else {
        act(verb, word).map(|act| Event::Do { who, act })
    }
}

/// The event of a line of three words, of which the second names this core.
fn read_three(
    alloc: Global,
    verb: &[u8],
    who: Who,
    word: &[u8],
) -> Result<Option<Written>, AllocError>
    ensures event { IfOk result (λ found. option_map asked_in found ≡
        asked_of_three verb.now (who_of who) word.now) }
    ensures refused { OnErr result SomeWasRefused }
{
    if verb == b"junk".as_slice() {
        return Ok(bytes(alloc, word)?.map(|bytes| Written::Junk { who, bytes }));
    }
    Ok(core_event(verb, who, word).map(Written::Other))
}

/// The event of a line that has more words than one.
fn read_words(alloc: Global, verb: &[u8], rest: &[u8]) -> Result<Option<Written>, AllocError>
    ensures event { IfOk result (λ found. option_map asked_in found ≡
        asked_behind verb.now (cut rest.now).word (cut rest.now).rest) }
    ensures refused { OnErr result SomeWasRefused }
{
    let words = cut_word(rest);
    match words.rest {
        None => read_two(alloc, verb, words.word),
        Some(last) => match core(words.word) {
            Some(who) => read_three(alloc, verb, who, last),
            None => Ok(None),
        },
    }
}

/// The event that the line is.
///
/// # Errors
///
/// `NotAnEvent` where it is none: it has another form than each event's. `NoMemory` where a request for its bytes was refused.
pub fn read_event(alloc: Global, line: &[u8]) -> Result<Written, NotRead>
    ensures event { IfOk result (λ written. asked_of_line line.now ≡ Some (asked_in written)) }
    ensures not { IsErrOf result NotRead.NotAnEvent → asked_of_line line.now ≡ None }
    ensures refused { IsErrOf result NotRead.NoMemory → SomeWasRefused }
{
    let words = cut_word(line);
    let Some(rest) = words.rest else {
        return Err(NotRead::NotAnEvent);
    };
    match read_words(alloc, words.word, rest)? {
        Some(written) => Ok(written),
        None => Err(NotRead::NotAnEvent),
    }
}
