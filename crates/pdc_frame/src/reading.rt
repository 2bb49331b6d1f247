//! The fields of a frame, read from its bytes.
ghost use Rattle.std.specs.Prelude.{◌≡◌, ◌+◌, ◌*◌, ◌<◌, ◌≤◌, ◌⊎◌, length, IfOk, IfErr, IsOkAnd};
ghost use Rattle.std.specs.Prelude.{MatchOption, IsTrue, ◌↔◌};
ghost use Rattle.pdc_words.specs.Bytes.{word_at};
ghost use Rattle.pdc_frame.specs.Frame.{Fields, fields_of, fields_in, number_of, IsFrame, IsSync};
ghost use Rattle.pdc_frame.specs.Frame.{IsFirstFault};
ghost use Rattle.pdc_frame.specs.Stream.{IsWhole};

use crate::fault::FrameFault;
use crate::frame::{Frame, Kind};
use crate::id::StreamId;
use crate::limits::{
    CHECK_LEN, FRACSEC_PLACE, HEADER_LEN, ID_PLACE, MAX_FRAC, MAX_ID, MAX_SIZE, MAX_VERSION,
    OVERHEAD, SIZE_PLACE, SOC_PLACE, SYNC_BYTE,
};
use pdc_words::{check_word, read_long, read_word};

/// The kind with this number.
fn kind_of(number: u8) -> Option<Kind>
    ensures { MatchOption result (6 ≤ number) (λ kind. number_of kind ≡ number) }
{
    match number {
        0 => Some(Kind::DataFrame),
        1 => Some(Kind::HeaderFrame),
        2 => Some(Kind::Cfg1),
        3 => Some(Kind::Cfg2),
        4 => Some(Kind::CommandFrame),
        5 => Some(Kind::Cfg3),
        _ => None,
    }
}

/// What the two bytes of SYNC say.
pub(crate) fn read_sync(first: u8, second: u8) -> Option<(Kind, u8)>
    ensures { MatchOption result (IsSync first second → ⊥)
        (λ x. (second ≡ 16 * number_of x.0 + x.1) × (first ≡ 170) × ((x.1 ≡ 1) ⊎ (x.1 ≡ 2))) }
{
    let kind = kind_of(second >> 4)?;
    let version = second & 0x0F;
    if version == 0 || version > MAX_VERSION || first != SYNC_BYTE {
        return None;
    }
    Some((kind, version))
}

/// The two bytes are SYNC.
pub(crate) fn is_sync(first: u8, second: u8) -> bool
    ensures { IsTrue result ↔ IsSync first second }
{
    read_sync(first, second).is_some()
}

/// What stands in the places of the fields.
#[inline]
pub(crate) fn fields_in_places(bytes: &[u8], kind: Kind, version: u8) -> Frame<'_>
    requires long { OVERHEAD ≤ length bytes.now }
    requires most { length bytes.now ≤ MAX_SIZE }
    requires version { (version ≡ 1) ⊎ (version ≡ 2) }
    requires id_low { 0 < word_at bytes.now ID_PLACE }
    requires id_high { word_at bytes.now ID_PLACE ≤ MAX_ID }
    ensures { fields_of result ≡ fields_in kind version bytes.now }
{
    let fracsec = read_long(bytes, FRACSEC_PLACE);
    Frame {
        kind,
        version,
        id: StreamId {
            value: read_word(bytes, ID_PLACE),
        },
        soc: read_long(bytes, SOC_PLACE),
        quality: (fracsec >> 24) as u8,
        frac: fracsec & MAX_FRAC,
        payload: &bytes[HEADER_LEN..bytes.len() - CHECK_LEN],
    }
}

/// The fields of bytes that are a frame: their check word is not computed again.
pub(crate) fn fields_of_whole(bytes: &[u8]) -> Frame<'_>
    requires { IsWhole bytes.now }
    ensures { IsFrame bytes.now (fields_of result) }
{
    let Some((kind, version)) = read_sync(bytes[0], bytes[1]) else {
        unreachable!();
    };
    fields_in_places(bytes, kind, version)
}

/// The frame that the bytes are, all of them. It takes no memory: the payload is lent from `bytes`.
///
/// # Errors
///
/// The first fault in the order of [`FrameFault`].
pub fn read_frame(bytes: &[u8]) -> Result<Frame<'_>, FrameFault>
    // What is read is spelled so.
    ensures found { IfOk result (λ frame. IsFrame bytes.now (fields_of frame)) }
    // What is spelled so is read, with these fields.
    ensures only { (f : Fields) → IsFrame bytes.now f →
        IsOkAnd result (λ frame. fields_of frame ≡ f) }
    // Which fault it is.
    ensures fault { IfErr result (IsFirstFault bytes.now) }
{
    if bytes.len() < OVERHEAD {
        return Err(FrameFault::Short);
    }
    let Some((kind, version)) = read_sync(bytes[0], bytes[1]) else {
        return Err(FrameFault::BadSync);
    };
    if usize::from(read_word(bytes, SIZE_PLACE)) != bytes.len() {
        return Err(FrameFault::SizeMismatch);
    }
    let check_place = bytes.len() - CHECK_LEN;
    // It is computed first: the end of a long frame, asked for before all that stands in front of it, would be waited for.
    let check = check_word(&bytes[..check_place]);
    if read_word(bytes, check_place) != check {
        return Err(FrameFault::BadCheck);
    }
    let id = read_word(bytes, ID_PLACE);
    if id == 0 || id > MAX_ID {
        return Err(FrameFault::BadId);
    }
    Ok(fields_in_places(bytes, kind, version))
}
