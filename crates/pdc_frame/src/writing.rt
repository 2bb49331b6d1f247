//! The bytes of a frame, written from its fields.
ghost use Rattle.std.specs.Prelude.{◌≡◌, ◌+◌, ◌^◌, ◌<◌, ◌≤◌, ◌++◌, length, drop, OnOk, OnErr, IsOk};
ghost use Rattle.std.specs.Int.{w16, to_be_bytes};
ghost use Rattle.pdc_words.specs.Bytes.{AreBytes};
ghost use Rattle.pdc_words.specs.CheckWord.{check_word_of, polynomial_of};
ghost use Rattle.pdc_frame.specs.Frame.{Fits, fields_of, number_of, header_of, spelling_of};
ghost use Rattle.pdc_frame.specs.Frame.{IsFrame};

use crate::buffer::Buffer;
use crate::frame::{Frame, Kind};
use crate::limits::{
    CHECK_LEN, FRACSEC_PLACE, HEADER_LEN, ID_PLACE, MAX_PAYLOAD, OVERHEAD, SIZE_PLACE, SOC_PLACE,
    SYNC_BYTE,
};
use byteorder::{BigEndian, ByteOrder};
use pdc_words::{check_word, check_word_behind};
use std::alloc::AllocError;

/// Bits 6 to 4 of the second byte of SYNC.
fn kind_number(kind: Kind) -> u8
    ensures value { result ≡ number_of kind }
    ensures small { result < 6 }
{
    match kind {
        Kind::DataFrame => 0,
        Kind::HeaderFrame => 1,
        Kind::Cfg1 => 2,
        Kind::Cfg2 => 3,
        Kind::CommandFrame => 4,
        Kind::Cfg3 => 5,
    }
}

/// The fields before the payload, in a frame of so many bytes.
#[inline(always)]
fn header_bytes(head: &Frame, size: u16) -> [u8; HEADER_LEN]
    ensures value { result ≡ header_of (fields_of head.now) size }
    ensures soc { head.now.soc < 2 ^ 32 }
    ensures quality { head.now.quality < 2 ^ 8 }
{
    let mut header = [0; HEADER_LEN];
    header[0] = SYNC_BYTE;
    header[1] = 16 * kind_number(head.kind) + head.version;
    BigEndian::write_u16(&mut header[SIZE_PLACE..], size);
    BigEndian::write_u16(&mut header[ID_PLACE..], head.id.value);
    BigEndian::write_u32(&mut header[SOC_PLACE..], head.soc);
    BigEndian::write_u32(
        &mut header[FRACSEC_PLACE..],
        (u32::from(head.quality) << 24) + head.frac,
    );
    header
}

/// The same fields as one number, the first byte highest.
#[inline(always)]
fn header_number(head: &Frame, size: u16) -> u128
    ensures { result ≡ polynomial_of (header_of (fields_of head.now) size) }
{
    let sync = 16 * kind_number(head.kind) + head.version;
    let fracsec = (u32::from(head.quality) << 24) + head.frac;
    (u128::from(SYNC_BYTE) << 104)
        + (u128::from(sync) << 96)
        + (u128::from(size) << 80)
        + (u128::from(head.id.value) << 64)
        + (u128::from(head.soc) << 32)
        + u128::from(fracsec)
}

/// CHK of the frame with the fields of `head` and this payload.
#[inline(always)]
fn check_bytes(head: &Frame, payload: &[u8]) -> [u8; CHECK_LEN]
    requires { length payload.now ≤ MAX_PAYLOAD }
    ensures { result ≡ to_be_bytes w16 (check_word_of
        (header_of (fields_of head.now) (length payload.now + OVERHEAD) ++ payload.now)) }
{
    let size = payload.len() + OVERHEAD;
    check_word_behind(header_number(head, size as u16), payload).to_be_bytes()
}

/// Writes over these bytes what stands in a frame before a payload of so many bytes: the fields of `head`, whose own payload is not looked
/// at.
#[inline(always)]
pub fn write_fields(head: &Frame, payload_len: usize, front: &mut [u8])
    requires payload { payload_len ≤ MAX_PAYLOAD }
    requires front { length front.old ≡ HEADER_LEN }
    ensures front { front.new ≡ header_of (fields_of head.now) (payload_len + OVERHEAD) }
    // The other fields are in range by their types.
    ensures soc { head.now.soc < 2 ^ 32 }
    ensures quality { head.now.quality < 2 ^ 8 }
{
    let size = payload_len + OVERHEAD;
    front.copy_from_slice(&header_bytes(head, size as u16));
}

/// Writes over these bytes what stands before and behind this payload in a frame: the fields of `head`, whose own payload is not looked
/// at, and CHK.
#[inline(always)]
pub fn write_ends(head: &Frame, payload: &[u8], front: &mut [u8], back: &mut [u8])
    requires payload { length payload.now ≤ MAX_PAYLOAD }
    requires front { length front.old ≡ HEADER_LEN }
    requires back { length back.old ≡ CHECK_LEN }
    ensures front { front.new ≡ header_of (fields_of head.now) (length payload.now + OVERHEAD) }
    ensures back { back.new ≡ to_be_bytes w16 (check_word_of
        (header_of (fields_of head.now) (length payload.now + OVERHEAD) ++ payload.now)) }
    // The other fields are in range by their types.
    ensures soc { head.now.soc < 2 ^ 32 }
    ensures quality { head.now.quality < 2 ^ 8 }
{
    write_fields(head, payload.len(), front);
    back.copy_from_slice(&check_bytes(head, payload));
}

/// Appends what stands before the payload of a frame: the fields of `head`, whose own payload is not looked at. The
/// payload is to have `payload_len` bytes, and room is made for it and for CHK. Append the payload, and then let
/// [`end_frame`] append CHK.
///
/// # Errors
///
/// [`AllocError`] where `out` has no room and gets none.
#[inline(always)]
pub fn begin_frame<B: Buffer>(
    head: &Frame,
    payload_len: usize,
    out: &mut B,
) -> Result<(), AllocError>
    requires { payload_len ≤ MAX_PAYLOAD }
    ensures ok { OnOk result (B.content out.new ≡ B.content out.old ++
        header_of (fields_of head.now) (payload_len + OVERHEAD)) }
    ensures space { OnOk result (length (B.content out.new) + payload_len +
        CHECK_LEN ≤ B.capacity out.new) }
    // The other fields are in range by their types.
    ensures soc { head.now.soc < 2 ^ 32 }
    ensures quality { head.now.quality < 2 ^ 8 }
    // It fails only where there was no room for the whole frame, and then nothing is appended.
    ensures err { OnErr result ((B.content out.new ≡ B.content out.old)
        × (B.capacity out.new ≡ B.capacity out.old)) }
    ensures room { length (B.content out.old) + payload_len + OVERHEAD ≤ B.capacity out.old →
        IsOk result }
    // Where there was room, it takes no memory.
    ensures in_place { length (B.content out.old) + payload_len + OVERHEAD ≤ B.capacity out.old →
        B.capacity out.new ≡ B.capacity out.old }
    ensures unasked { length (B.content out.old) + payload_len + OVERHEAD ≤ B.capacity out.old →
        B.asked out.new ≡ B.asked out.old }
    ensures capacity { B.capacity out.old ≤ B.capacity out.new }
    // A request for the whole frame was refused.
    ensures refused { OnErr result (B.refused out.new (payload_len + OVERHEAD)) }
{
    let size = payload_len + OVERHEAD;
    let header = header_bytes(head, size as u16);
    out.make_room(size)?;
    out.append_few(&header);
    Ok(())
}

/// Appends CHK of the frame that begins at `start`, for which room was made. It takes no memory.
#[inline(always)]
pub fn end_frame<B: Buffer>(start: usize, out: &mut B)
    requires start { start ≤ length (B.content out.old) }
    requires room { length (B.content out.old) + CHECK_LEN ≤ B.capacity out.old }
    ensures items { B.content out.new ≡ B.content out.old ++
        to_be_bytes w16 (check_word_of (drop start (B.content out.old))) }
    ensures len { length (B.content out.new) ≡ length (B.content out.old) + CHECK_LEN }
    ensures in_place { B.capacity out.new ≡ B.capacity out.old }
    ensures unasked { B.asked out.new ≡ B.asked out.old }
{
    let check = check_word(&out.content()[start..]);
    out.append_few(&check.to_be_bytes());
}

/// The number of bytes of a payload.
fn payload_len(payload: &[u8]) -> usize
    ensures value { result ≡ length payload.now }
    ensures bytes { AreBytes payload.now }
{
    payload.len()
}

/// Appends the bytes of the frame: the one spelling of its fields.
///
/// # Errors
///
/// [`AllocError`] where `out` has no room and gets none.
#[inline(always)]
pub fn write_frame<B: Buffer>(frame: &Frame, out: &mut B) -> Result<(), AllocError>
    // What is appended is the frame,
    ensures ok { OnOk result (B.content out.new ≡ B.content out.old ++
        spelling_of (fields_of frame.now)) }
    // which is read back with these fields.
    ensures frame { IsFrame (spelling_of (fields_of frame.now)) (fields_of frame.now) }
    // It fails only where there was no room, and then nothing is appended.
    ensures err { OnErr result ((B.content out.new ≡ B.content out.old)
        × (B.capacity out.new ≡ B.capacity out.old)) }
    ensures room { length (B.content out.old) +
        length (spelling_of (fields_of frame.now)) ≤ B.capacity out.old → IsOk result }
    // Where there was room, it takes no memory.
    ensures in_place { length (B.content out.old) +
        length (spelling_of (fields_of frame.now)) ≤ B.capacity out.old →
        B.capacity out.new ≡ B.capacity out.old }
    ensures unasked { length (B.content out.old) +
        length (spelling_of (fields_of frame.now)) ≤ B.capacity out.old →
        B.asked out.new ≡ B.asked out.old }
    ensures capacity { B.capacity out.old ≤ B.capacity out.new }
    // A request for the whole frame was refused.
    ensures refused { OnErr result (B.refused out.new (length (spelling_of (fields_of frame.now)))) }
{
    begin_frame(frame, payload_len(frame.payload), out)?;
    out.append_bytes(frame.payload);
    out.append_few(&check_bytes(frame, frame.payload));
    Ok(())
}
