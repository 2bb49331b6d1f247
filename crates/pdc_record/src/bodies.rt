//! What stands between TIME and CHK, by the kind of an entry.
ghost use Rattle.std.specs.Prelude.{◌≡◌, ℕ, ◌≤◌, Option, Bool, List, length, MatchOption};
ghost use Rattle.pdc_record.specs.Told.{Told, told_of};
ghost use Rattle.pdc_record.specs.Bodies.{IsTold, change_number, flags_of, kind_number, rest_of};

use crate::answer::answer_of;
use crate::entry::What;
use crate::limits::{
    ARRIVED_LEN, MAX_REST, MISSING_LEN, NO_FRAME_LEN, POPPED_LEN, TICKED_LEN, UNANSWERED_LEN,
};
use crate::starts::read_begun;
use crate::words::{split_byte, split_counts, split_long, split_wide, split_word};

/// The number of the kind.
pub(crate) fn kind_number(what: &What<'_>) -> u8
    ensures { result ≡ kind_number (told_of what.now) }
{
    match what {
        What::Begun(_) => 0,
        What::Arrived { .. } => 1,
        What::Unanswered { .. } => 2,
        What::Ticked { .. } => 3,
        What::FoundNone => 4,
        What::Popped { frame: None, .. } | What::Popped { frame: Some(_), .. } => 5,
        What::Laid { .. } => 6,
        What::Missing { .. } => 7,
        What::NoFrame { .. } => 8,
    }
}

/// The datagram, the frame or the settings text behind the fixed part; nothing where there is none.
pub(crate) fn rest_of<'a>(what: &What<'a>) -> &'a [u8]
    ensures { result.now ≡ rest_of (told_of what.now) }
{
    match what {
        What::Begun(begun) => begun.settings,
        What::Arrived { datagram, .. } => datagram,
        What::Unanswered { datagram, .. } => datagram,
        What::Ticked { .. } => &[],
        What::FoundNone => &[],
        What::Popped { frame: None, .. } => &[],
        What::Popped {
            frame: Some(frame),
            ..
        } => frame,
        What::Laid { frame } => frame,
        What::Missing { .. } => &[],
        What::NoFrame { front, .. } => front,
    }
}

fn read_arrived(body: &[u8]) -> Option<What<'_>>
    ensures { MatchOption result ((told : Told) → IsTold 1 body.now told →
        ⊥) (λ what. IsTold 1 body.now (told_of what)) }
{
    if body.len() < ARRIVED_LEN {
        return None;
    }
    let (stream, body) = split_word(body);
    let (answer, datagram) = split_byte(body);
    let outcome = answer_of(answer)?;
    Some(What::Arrived {
        stream,
        outcome,
        datagram,
    })
}

fn read_unanswered(body: &[u8]) -> Option<What<'_>>
    ensures { MatchOption result ((told : Told) → IsTold 2 body.now told →
        ⊥) (λ what. IsTold 2 body.now (told_of what)) }
{
    if body.len() < UNANSWERED_LEN {
        return None;
    }
    let (stream, datagram) = split_word(body);
    Some(What::Unanswered { stream, datagram })
}

/// The change number and whether none was left, by FLAGS and CHANGE.
fn change_of(flags: u8, change: u32) -> Option<(Option<u32>, bool)>
    ensures { MatchOption result ((number : Option ℕ) (used_up : Bool) →
        flags ≡ flags_of number used_up → change ≡ change_number number → ⊥)
        (λ x. (flags ≡ flags_of x.0 x.1) × (change ≡ change_number x.0)) }
{
    match flags {
        0 if change == 0 => Some((None, false)),
        1 => Some((Some(change), false)),
        2 if change == 0 => Some((None, true)),
        3 => Some((Some(change), true)),
        _ => None,
    }
}

fn read_ticked(body: &[u8]) -> Option<What<'_>>
    ensures { MatchOption result ((told : Told) → IsTold 3 body.now told →
        ⊥) (λ what. IsTold 3 body.now (told_of what)) }
{
    if body.len() != TICKED_LEN {
        return None;
    }
    let (now, body) = split_wide(body);
    let (counts, body) = split_counts(body);
    let (closed, body) = split_long(body);
    let (flags, body) = split_byte(body);
    let (change, _) = split_long(body);
    match change_of(flags, change) {
        Some((change, used_up)) => Some(What::Ticked {
            now,
            counts,
            closed,
            change,
            used_up,
        }),
        None => None,
    }
}

fn read_found_none(body: &[u8]) -> Option<What<'_>>
    ensures { MatchOption result ((told : Told) → IsTold 4 body.now told →
        ⊥) (λ what. IsTold 4 body.now (told_of what)) }
{
    if !body.is_empty() {
        return None;
    }
    Some(What::FoundNone)
}

fn read_popped(body: &[u8]) -> Option<What<'_>>
    ensures { MatchOption result ((told : Told) → IsTold 5 body.now told →
        ⊥) (λ what. IsTold 5 body.now (told_of what)) }
{
    if body.len() < POPPED_LEN {
        return None;
    }
    let (instant, body) = split_wide(body);
    let (flag, rest) = split_byte(body);
    let frame = match flag {
        0 if rest.is_empty() => None,
        1 => Some(rest),
        _ => return None,
    };
    Some(What::Popped { instant, frame })
}

fn read_missing(body: &[u8]) -> Option<What<'_>>
    ensures { MatchOption result ((told : Told) → IsTold 7 body.now told →
        ⊥) (λ what. IsTold 7 body.now (told_of what)) }
{
    if body.len() != MISSING_LEN {
        return None;
    }
    let (until, _) = split_wide(body);
    Some(What::Missing { until })
}

fn read_no_frame(body: &[u8]) -> Option<What<'_>>
    ensures { MatchOption result ((told : Told) → IsTold 8 body.now told →
        ⊥) (λ what. IsTold 8 body.now (told_of what)) }
{
    if body.len() < NO_FRAME_LEN {
        return None;
    }
    let (stream, body) = split_word(body);
    let (answer, body) = split_byte(body);
    let (len, front) = split_long(body);
    let outcome = answer_of(answer)?;
    Some(What::NoFrame {
        stream,
        outcome,
        len,
        front,
    })
}

/// What the body of an entry of this kind says, however long its last part is.
fn read_body(kind: u8, body: &[u8]) -> Option<What<'_>>
    ensures { MatchOption result ((told : Told) → IsTold kind body.now told →
        ⊥) (λ what. IsTold kind body.now (told_of what)) }
{
    match kind {
        0 => match read_begun(body) {
            Some(begun) => Some(What::Begun(begun)),
            None => None,
        },
        1 => read_arrived(body),
        2 => read_unanswered(body),
        3 => read_ticked(body),
        4 => read_found_none(body),
        5 => read_popped(body),
        6 => Some(What::Laid { frame: body }),
        7 => read_missing(body),
        8 => read_no_frame(body),
        _ => None,
    }
}

/// What the body of an entry of this kind says.
pub(crate) fn read_what(kind: u8, body: &[u8]) -> Option<What<'_>>
    ensures { MatchOption result ((told : Told) → IsTold kind body.now told →
        length (rest_of told) ≤ MAX_REST → ⊥)
        (λ what. IsTold kind body.now (told_of what)
        × (length (rest_of (told_of what)) ≤ MAX_REST)) }
{
    let what = read_body(kind, body)?;
    if rest_of(&what).len() > MAX_REST {
        return None;
    }
    Some(what)
}
