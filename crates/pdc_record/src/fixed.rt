//! The fixed part of an entry, by its kind.
ghost use Rattle.std.specs.Prelude.{◌≡◌, ◌+◌, ◌^◌, ◌<◌, ◌≤◌, ◌++◌, [], ◌∷◌, length};
ghost use Rattle.std.specs.Int.{w16, w32, w64, to_be_bytes};
ghost use Rattle.pdc_record.specs.Answers.{answer_number};
ghost use Rattle.pdc_record.specs.Told.{Began, start_of, told_of};
ghost use Rattle.pdc_record.specs.Bodies.{FitsStart, FitsWidths, change_number, fixed_of, flags_of};

use crate::answer::answer_number;
use crate::begun::Begun;
use crate::entry::What;
use crate::limits::{
    ARRIVED_LEN, BEGUN_LEN, MISSING_LEN, NO_FRAME_LEN, NOW_LEN, POPPED_LEN, TICKED_BACK,
    UNANSWERED_LEN,
};
use crate::starts::{back_bytes, begun_len, front_bytes};
use crate::words::{count_bytes, counts_len};
use byteorder::{BigEndian, ByteOrder};
use pdc_frame::Buffer;
use pdc_life::Outcome;

/// How many bytes the fixed part has.
pub(crate) fn fixed_len(what: &What<'_>) -> usize
    ensures value { result ≡ length (fixed_of (told_of what.now)) }
    ensures most { result ≤ BEGUN_LEN }
{
    match what {
        What::Begun(begun) => begun_len(begun),
        What::Arrived { .. } => ARRIVED_LEN,
        What::Unanswered { .. } => UNANSWERED_LEN,
        What::Ticked { counts, .. } => NOW_LEN + counts_len(counts) + TICKED_BACK,
        What::FoundNone => 0,
        What::Popped { .. } => POPPED_LEN,
        What::Laid { .. } => 0,
        What::Missing { .. } => MISSING_LEN,
        What::NoFrame { .. } => NO_FRAME_LEN,
    }
}

fn arrived_bytes(stream: u16, outcome: Outcome) -> [u8; ARRIVED_LEN]
    ensures { result ≡ to_be_bytes w16 stream ++ (answer_number outcome ∷ []) }
{
    let mut fixed = [0; ARRIVED_LEN];
    BigEndian::write_u16(&mut fixed, stream);
    fixed[2] = answer_number(outcome);
    fixed
}

fn no_frame_bytes(stream: u16, outcome: Outcome, len: u32) -> [u8; NO_FRAME_LEN]
    ensures value { result ≡ to_be_bytes w16 stream ++
        (answer_number outcome ∷ to_be_bytes w32 len) }
    ensures len { len < 2 ^ 32 }
{
    let mut fixed = [0; NO_FRAME_LEN];
    BigEndian::write_u16(&mut fixed, stream);
    fixed[2] = answer_number(outcome);
    BigEndian::write_u32(&mut fixed[3..], len);
    fixed
}

/// FLAGS of a tick.
fn flags_of(change: Option<u32>, used_up: bool) -> u8
    ensures { result ≡ flags_of change used_up }
{
    match (change, used_up) {
        (None, false) => 0,
        (Some(_), false) => 1,
        (None, true) => 2,
        (Some(_), true) => 3,
    }
}

/// CLOSED, FLAGS and CHANGE of a tick.
fn tick_bytes(closed: u32, change: Option<u32>, used_up: bool) -> [u8; TICKED_BACK]
    ensures value { result ≡ to_be_bytes w32 closed ++
        (flags_of change used_up ∷ to_be_bytes w32 (change_number change)) }
    ensures closed { closed < 2 ^ 32 }
    ensures change { change_number change < 2 ^ 32 }
{
    let mut back = [0; TICKED_BACK];
    BigEndian::write_u32(&mut back, closed);
    back[4] = flags_of(change, used_up);
    BigEndian::write_u32(&mut back[5..], change.unwrap_or(0));
    back
}

fn popped_bytes(instant: u64, flag: u8) -> [u8; POPPED_LEN]
    ensures { result ≡ to_be_bytes w64 instant ++ (flag ∷ []) }
{
    let mut fixed = [0; POPPED_LEN];
    BigEndian::write_u64(&mut fixed, instant);
    fixed[8] = flag;
    fixed
}

fn append_begun<B: Buffer>(begun: &Begun<'_>, out: &mut B)
    requires { length (B.content out.old) +
        length (fixed_of (Began (start_of begun.now))) ≤ B.capacity out.old }
    ensures bytes { B.content out.new ≡ B.content out.old ++
        fixed_of (Began (start_of begun.entry.now)) }
    ensures fits { FitsStart (start_of begun.entry.now) }
    ensures in_place { B.capacity out.new ≡ B.capacity out.old }
{
    out.append_bytes(&front_bytes(begun));
    out.append_bytes(&count_bytes(&begun.counts));
    out.append_bytes(&back_bytes(begun));
}

/// Appends the fixed part, for which there is room.
pub(crate) fn append_fixed<B: Buffer>(what: &What<'_>, out: &mut B)
    requires { length (B.content out.old) +
        length (fixed_of (told_of what.now)) ≤ B.capacity out.old }
    ensures bytes { B.content out.new ≡ B.content out.old ++ fixed_of (told_of what.now) }
    ensures fits { FitsWidths (told_of what.now) }
    ensures in_place { B.capacity out.new ≡ B.capacity out.old }
{
    match what {
        What::Begun(begun) => append_begun(begun, out),
        What::Arrived {
            stream,
            outcome,
            ..
        } => out.append_bytes(&arrived_bytes(*stream, *outcome)),
        What::Unanswered { stream, .. } => out.append_bytes(&stream.to_be_bytes()),
        What::Ticked {
            now,
            counts,
            closed,
            change,
            used_up,
        } => {
            out.append_bytes(&now.to_be_bytes());
            out.append_bytes(&count_bytes(counts));
            out.append_bytes(&tick_bytes(*closed, *change, *used_up));
        }
        What::FoundNone => (),
        What::Popped {
            instant,
            frame: None,
        } => out.append_bytes(&popped_bytes(*instant, 0)),
        What::Popped {
            instant,
            frame: Some(_),
        } => out.append_bytes(&popped_bytes(*instant, 1)),
        What::Laid { .. } => (),
        What::Missing { until } => out.append_bytes(&until.to_be_bytes()),
        What::NoFrame {
            stream,
            outcome,
            len,
            ..
        } => out.append_bytes(&no_frame_bytes(*stream, *outcome, *len)),
    }
}
