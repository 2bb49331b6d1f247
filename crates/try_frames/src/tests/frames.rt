//! Frames, and frames in a stream.
ghost use Rattle.std.specs.Prelude.{◌<◌};

use super::same::is;
use super::vectors::{CONFIG_11, DATA_11, DATA_ON};
use arrayvec::ArrayVec;
use pdc_frame::*;
use std::alloc::{AllocError, Global};
use std::process::Abort;

/// A frame of id 0.
const RESERVED_ID: [u8; 16] = [
    0xAA, 0x02, 0x00, 0x10, 0x00, 0x00, 0x44, 0x85, 0x27, 0xF0, 0x00, 0x00, 0x00, 0x00, 0x48, 0x75,
];

/// The bytes of the first frame and then of the second.
fn joined(alloc: Global, first: &[u8], second: &[u8]) -> Result<Vec<u8>, AllocError> {
    let mut stream = Vec::from_slice(alloc, first)?;
    stream.extend_from_slice(second)?;
    Ok(stream)
}

#[test]
fn check_words(rt: HostRuntime) {
    is!(&rt; check_word(b""), 0xFFFF);
    is!(&rt; check_word(b"A"), 0xB915);
    is!(&rt; check_word(b"123456789"), 0x29B1);
}

#[test]
fn frame_faults(rt: HostRuntime) {
    let mut off = DATA_11;
    off[23] = 1;
    let mut other = [0; 16];
    other[0] = 0xAB;
    is!(&rt; read_frame(&[]).err(), Some(FrameFault::Short));
    is!(&rt; read_frame(&other).err(), Some(FrameFault::BadSync));
    is!(&rt; read_frame(&DATA_11[..25]).err(), Some(FrameFault::SizeMismatch));
    is!(&rt; read_frame(&off).err(), Some(FrameFault::BadCheck));
    is!(&rt; read_frame(&RESERVED_ID).err(), Some(FrameFault::BadId));
}

#[test]
fn fault_texts(rt: HostRuntime) {
    for (fault, text) in [
        (FrameFault::Short, "F1 Short"),
        (FrameFault::BadSync, "F2 BadSync"),
        (FrameFault::SizeMismatch, "F3 SizeMismatch"),
        (FrameFault::BadCheck, "F4 BadCheck"),
        (FrameFault::BadId, "F5 BadId"),
    ] {
        let found = fault.to_string(rt.alloc()).expect(&rt, "memory");
        is!(&rt; found.as_str(), text);
    }
}

#[test]
fn fields_of_a_command(rt: HostRuntime) {
    let frame = read_frame(&DATA_ON).expect(&rt, "a frame");
    is!(&rt; frame.kind, Kind::CommandFrame);
    is!(&rt; frame.version, 1);
    is!(&rt; frame.id.value, 7734);
    is!(&rt; frame.soc, 0x4485_6030);
    is!(&rt; frame.quality, 0x0F);
    is!(&rt; frame.frac, 770_000);
    is!(&rt; frame.payload, [0, 2].as_slice());
}

#[test]
fn written_where_the_room_is_fixed(rt: HostRuntime) {
    let frame = read_frame(&DATA_11).expect(&rt, "a frame");
    let mut out = ArrayVec::<u8, 51>::new();
    write_frame(&frame, &mut out).expect(&rt, "memory");
    is!(&rt; out.as_slice(), DATA_11.as_slice());
    is!(&rt; write_frame(&frame, &mut out), Err(AllocError));
    is!(&rt; out.as_slice(), DATA_11.as_slice());
}

/// The bytes in pieces of so many.
fn in_pieces(alloc: Global, bytes: &[u8], len: usize) -> Result<Vec<Vec<u8>>, AllocError>
    requires { 0 < len }
{
    let mut pieces = Vec::new(alloc);
    for piece in bytes.chunks(len) {
        pieces.push(Vec::from_slice(alloc, piece)?)?;
    }
    Ok(pieces)
}

/// The frames in these pieces are the configuration and the data.
fn are_both(rt: &impl Abort, alloc: Global, pieces: &[Vec<u8>]) {
    let (frames, fault) = frames_of(alloc, pieces).expect(rt, "memory");
    is!(rt; fault, None);
    is!(rt; frames.len(), 2);
    is!(rt; frames.first().map(Vec::as_slice), Some(CONFIG_11.as_slice()));
    is!(rt; frames.last().map(Vec::as_slice), Some(DATA_11.as_slice()));
}

#[test]
fn joined_frames_in_pieces(rt: HostRuntime) {
    let stream = joined(rt.alloc(), &CONFIG_11, &DATA_11).expect(&rt, "memory");
    for len in [1, 7, 100] {
        let pieces = in_pieces(rt.alloc(), &stream, len).expect(&rt, "memory");
        are_both(&rt, rt.alloc(), &pieces);
    }
}

#[test]
fn fields_of_a_stream(rt: HostRuntime) {
    let stream = joined(rt.alloc(), &DATA_11, &DATA_ON).expect(&rt, "memory");
    let mut framer = Framer::new(rt.alloc()).expect(&rt, "memory");
    let (taken, step) = framer.feed(&stream);
    is!(&rt; (taken, step), (26, Step::Whole));
    if step == Step::Whole {
        is!(&rt; framer.fields().kind, Kind::DataFrame);
        is!(&rt; framer.fields().payload, &DATA_11[14..24]);
    }
}

/// The place of a byte in a frame, what stands there instead, how many of its bytes show the fault, and which it is.
const FAULTS: [(usize, u8, usize, FrameFault); 10] = [
    (0, 0xAB, 1, FrameFault::BadSync),
    (1, 0x82, 2, FrameFault::BadSync),
    (1, 0x62, 2, FrameFault::BadSync),
    (1, 0x00, 2, FrameFault::BadSync),
    (1, 0x03, 2, FrameFault::BadSync),
    (3, 0x0F, 4, FrameFault::Short),
    (3, 0x00, 4, FrameFault::Short),
    (9, 0xF1, 26, FrameFault::BadCheck),
    (23, 0x01, 26, FrameFault::BadCheck),
    (25, 0x22, 26, FrameFault::BadCheck),
];

#[test]
fn faults_in_a_stream(rt: HostRuntime) {
    for (place, byte, shown, fault) in FAULTS {
        let mut framer = Framer::new(rt.alloc()).expect(&rt, "memory");
        is!(&rt; framer.feed(&CONFIG_11), (74, Step::Whole));
        is!(&rt; framer.frame(), CONFIG_11.as_slice());
        let mut off = DATA_11;
        if let Some(changed) = off.get_mut(place) {
            *changed = byte;
        }
        is!(&rt; framer.feed(&off), (shown, Step::Bad(fault)));
        is!(&rt; framer.feed(&DATA_11), (0, Step::Bad(fault)));
        is!(&rt; framer.feed(&[]), (0, Step::Bad(fault)));
    }
}

#[test]
fn reserved_id_in_a_stream(rt: HostRuntime) {
    let mut framer = Framer::new(rt.alloc()).expect(&rt, "memory");
    is!(&rt; framer.feed(&RESERVED_ID[..15]), (15, Step::More));
    is!(&rt; framer.feed(&[]), (0, Step::More));
    is!(&rt; framer.feed(&RESERVED_ID[15..]), (1, Step::Bad(FrameFault::BadId)));
}

#[test]
fn a_fault_ends_the_frames(rt: HostRuntime) {
    let first = joined(rt.alloc(), &DATA_11, &[0xAA, 0x02, 0x00]).expect(&rt, "memory");
    let second = joined(rt.alloc(), &[0x0F, 0x00], &DATA_11).expect(&rt, "memory");
    let pieces = [first, second];
    let (frames, fault) = frames_of(rt.alloc(), &pieces).expect(&rt, "memory");
    is!(&rt; fault, Some(FrameFault::Short));
    is!(&rt; frames.len(), 1);
    is!(&rt; frames.first().map(Vec::as_slice), Some(DATA_11.as_slice()));
}
