//! What the smallest heap holds works there, and on one that is smaller by a block a call for its room is refused.

use crate::tests::heaps::line::Line;
use crate::tests::heaps::same::same;
use crate::tests::heaps::sizes::{BLOCK, CLIENT, FRAMER, RING, STREAM};
use crate::tests::vectors::{CONFIG_11, DATA_11, DATA_ON, HEADER, ID_11, SEND_HEADER, SOC, TEXT};
use linked_list_allocator::LocalHeap;
use pdc_cfg::read_config;
use pdc_frame::{Framer, Step, frames_of, read_frame};
use pdc_session::{Frames, Pdc, Serving, Session};
use std::process::Abort;

#[test]
fn framer_on_the_smallest_heap(rt: HostRuntime) {
    let heap = LocalHeap::new(rt.alloc(), FRAMER).expect(&rt, "memory");
    let mut framer = Framer::new(&heap).expect(&rt, "memory");
    same(
        &rt,
        &framer.feed(&DATA_ON),
        &(DATA_ON.len(), Step::Whole),
        FRAMER,
    );
    same(&rt, &framer.frame(), &DATA_ON.as_slice(), FRAMER);
}

#[test]
fn session_on_the_smallest_heap(rt: HostRuntime) {
    let heap = LocalHeap::new(rt.alloc(), FRAMER).expect(&rt, "memory");
    let mut session = Session::new(&heap, ID_11).expect(&rt, "memory");
    let frame = read_frame(&CONFIG_11).expect(&rt, "a frame");
    let serving = Serving {
        soc: SOC,
        header: &TEXT,
        layout: read_config(&frame).expect(&rt, "a configuration"),
    };
    let mut replies = Vec::new(rt.alloc());
    session
        .feed(&SEND_HEADER, &serving, &mut replies)
        .expect(&rt, "memory");
    same(&rt, &replies.as_slice(), &HEADER.as_slice(), FRAMER);
}

#[test]
fn client_on_the_smallest_heap(rt: HostRuntime) {
    let heap = LocalHeap::new(rt.alloc(), CLIENT).expect(&rt, "memory");
    let mut client = Pdc::new(&heap, ID_11, Line::default()).expect(&rt, "memory");
    let data = client.get(rt.alloc()).expect(&rt, "memory");
    same(&rt, &data.as_slice(), &DATA_11.as_slice(), CLIENT);
}

/// A client on a heap of this size answers this, or nothing for want of memory.
fn is_answered(rt: &(impl Abort + AllocGlobal), size: usize, wanted: Option<&[u8]>) {
    let heap = LocalHeap::new(rt.alloc(), size).expect(rt, "memory");
    let mut client = Pdc::new(&heap, ID_11, Line::default()).expect(rt, "memory");
    let answer = client.get(&heap).ok();
    same(rt, &answer.as_deref(), &wanted, size);
}

#[test]
fn client_without_memory_for_an_answer(rt: HostRuntime) {
    is_answered(&rt, CLIENT, None);
    is_answered(&rt, CLIENT + 2 * BLOCK, Some(DATA_11.as_slice()));
}

/// The block of the configuration's 74 bytes.
const FRAME: usize = 80;

/// A ring on a heap of this size keeps this frame, or none where it has no room.
fn is_kept(rt: &(impl Abort + AllocGlobal), size: usize, kept: &[u8]) {
    let heap = LocalHeap::new(rt.alloc(), size).expect(rt, "memory");
    let mut frames = Frames::new(&heap).expect(rt, "memory");
    let is_pushed = frames.push(&heap, 5, &CONFIG_11).is_ok();
    same(rt, &is_pushed, &!kept.is_empty(), size);
    let mut out = Vec::new(rt.alloc());
    frames.after(0, &mut out).expect(rt, "memory");
    same(rt, &out.as_slice(), &kept, size);
}

/// Where a frame finds no room, none is kept; with its block more it is.
#[test]
fn frame_on_the_smallest_heap(rt: HostRuntime) {
    is_kept(&rt, RING, &[]);
    is_kept(&rt, RING + FRAME - BLOCK, &[]);
    is_kept(&rt, RING + FRAME, &CONFIG_11);
}

#[test]
fn stream_on_the_smallest_heap(rt: HostRuntime) {
    let heap = LocalHeap::new(rt.alloc(), STREAM).expect(&rt, "memory");
    let piece = Vec::from_slice(&heap, &DATA_11).expect(&rt, "memory");
    let (frames, fault) = frames_of(&heap, &[piece]).expect(&rt, "memory");
    let found = frames.first().map(Vec::as_slice);
    same(
        &rt,
        &(frames.len(), fault, found),
        &(1, None, Some(DATA_11.as_slice())),
        STREAM,
    );
}
