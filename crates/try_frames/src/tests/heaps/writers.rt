//! The calls that append to a caller's bytes, where the memory for them is refused. The contracts say that such a call fails only where
//! there was no room and leaves the bytes as they were; here it really happens, on a small heap.

use crate::tests::heaps::same::same;
use crate::tests::vectors::CONFIG_11;
use crate::tests::written_again::write_config_again;
use linked_list_allocator::LocalHeap;
use pdc_block::{join, read_body};
use pdc_cfg::Shape;
use pdc_frame::{Buffer, Command, Frame, Kind, StreamId, write_command, write_frame, write_header};
use std::process::Abort;

/// What stands before the frame.
const BEFORE: [u8; 3] = [1, 2, 3];

/// The sizes of the heaps: from too small for any frame of the tests to ample.
const SIZES: [usize; 6] = [32, 64, 128, 512, 2048, 8192];

/// The stream of the frames.
const ID: StreamId = StreamId { value: 201 };

/// The bytes of a block of 107 words.
const BODY: [u8; 214] = [0x80; 214];

/// A call that appends.
enum Writer {
    Frame,
    Header,
    Command,
    Config,
    Blocks,
}

/// Appends a data frame of 616 bytes.
fn append_frame<B: Buffer>(out: &mut B) -> bool {
    let frame = Frame {
        kind: Kind::DataFrame,
        version: 2,
        id: ID,
        soc: 0,
        quality: 0,
        frac: 0,
        payload: &[7; 600],
    };
    write_frame(&frame, out).is_ok()
}

/// Appends a block.
fn append_block<B: Buffer>(out: &mut B) -> bool {
    let shape = Shape {
        phasors: 32,
        analogs: 32,
        digitals: 8,
    };
    match read_body(shape, &BODY) {
        Ok(block) => join(&[block], out).is_ok(),
        Err(_) => false,
    }
}

/// Makes the call, and tells whether it succeeded.
fn append<B: Buffer>(writer: &Writer, out: &mut B) -> bool {
    match writer {
        Writer::Frame => append_frame(out),
        Writer::Header => write_header(ID, 0, &[0x2E; 600], out).is_ok(),
        Writer::Command => write_command(ID, 0, Command::SendCfg2, out).is_ok(),
        Writer::Config => write_config_again(&CONFIG_11, out),
        Writer::Blocks => append_block(out),
    }
}

/// The heaps are too small at first, and ample at last. Where the call is refused nothing stands behind what stood before, else so many bytes
/// stand in all, and these at the end.
fn is_refused_or_appends(rt: &(impl Abort + AllocGlobal), writer: &Writer, len: usize, end: &[u8]) {
    let (mut refused, mut written) = (false, false);
    for size in SIZES {
        let heap = LocalHeap::new(rt.alloc(), size).expect(rt, "memory");
        let mut out = Vec::from_slice(&heap, &BEFORE).expect(rt, "memory");
        if append(writer, &mut out) {
            written = true;
            same(rt, &(out.len(), out.ends_with(end)), &(len, true), size);
        } else {
            refused = true;
            same(rt, &out.as_slice(), &BEFORE.as_slice(), size);
        }
    }
    same(rt, &(refused, written), &(true, true), 0);
}

#[test]
fn write_frame_refused(rt: HostRuntime) {
    is_refused_or_appends(&rt, &Writer::Frame, 3 + 616, &[]);
}

#[test]
fn write_header_refused(rt: HostRuntime) {
    is_refused_or_appends(&rt, &Writer::Header, 3 + 616, &[]);
}

#[test]
fn write_command_refused(rt: HostRuntime) {
    is_refused_or_appends(&rt, &Writer::Command, 3 + 18, &[]);
}

#[test]
fn write_config_refused(rt: HostRuntime) {
    is_refused_or_appends(&rt, &Writer::Config, 3 + 74, &CONFIG_11);
}

#[test]
fn join_refused(rt: HostRuntime) {
    is_refused_or_appends(&rt, &Writer::Blocks, 3 + 214, &BODY);
}
