//! The calls that reserve their room once, a stream that is cut into its frames, and a line of hexadecimal that is shown, on heaps of all
//! sizes from ample down to none: each succeeds exactly from the size on that its blocks have.

use crate::tests::heaps::line::Line;
use crate::tests::heaps::same::same;
use crate::tests::heaps::sizes::{BLOCK, CLIENT, FRAMER, LINE, NO_CONFIG, RING, SHOWN, STREAM};
use crate::tests::vectors::{DATA_11, ID_11};
use linked_list_allocator::LocalHeap;
use pdc_frame::{Framer, frames_of};
use pdc_session::{Frames, Pdc, Session};
use pdc_show::{ShowFault, run_show};
use std::process::Abort;

/// How many sizes of heaps there are above none: up to some blocks more than any call wants.
const SIZES: usize = 4700;

/// A call that may want memory.
enum Call {
    Framer,
    Session,
    Client,
    Ring,
    Stream,
    Show,
}

/// Whether a stream of one frame is cut on this heap.
fn is_cut(heap: &LocalHeap) -> bool {
    match Vec::from_slice(heap, &DATA_11) {
        Ok(piece) => frames_of(heap, &[piece]).is_ok(),
        Err(_) => false,
    }
}

/// Whether the line is shown on this heap. Where it is not, nothing is printed.
fn is_shown(rt: &(impl Abort + AllocGlobal), heap: &LocalHeap, size: usize) -> bool {
    let mut printed = Vec::new(rt.alloc());
    let outcome = run_show(heap, &mut LINE.as_bytes(), &mut printed);
    let is_refused = matches!(outcome, Err(ShowFault::Memory));
    let wanted = if is_refused { "" } else { NO_CONFIG };
    same(rt, &printed.as_slice(), &wanted.as_bytes(), size);
    !is_refused
}

/// Whether the call succeeds on this heap.
fn succeeds(rt: &(impl Abort + AllocGlobal), heap: &LocalHeap, size: usize, call: &Call) -> bool {
    match call {
        Call::Framer => Framer::new(heap).is_ok(),
        Call::Session => Session::new(heap, ID_11).is_ok(),
        Call::Client => Pdc::new(heap, ID_11, Line::default()).is_ok(),
        Call::Ring => Frames::new(heap).is_ok(),
        Call::Stream => is_cut(heap),
        Call::Show => is_shown(rt, heap, size),
    }
}

/// The call succeeds exactly on the heaps of at least so many bytes.
fn succeeds_from(rt: &(impl Abort + AllocGlobal), call: &Call, smallest: usize) {
    for step in 0..=SIZES {
        let size = BLOCK * (SIZES - step);
        let heap = LocalHeap::new(rt.alloc(), size).expect(rt, "memory");
        same(
            rt,
            &succeeds(rt, &heap, size, call),
            &(smallest <= size),
            size,
        );
    }
}

#[test]
fn framer_on_falling_heaps(rt: HostRuntime) {
    succeeds_from(&rt, &Call::Framer, FRAMER);
}

#[test]
fn session_on_falling_heaps(rt: HostRuntime) {
    succeeds_from(&rt, &Call::Session, FRAMER);
}

#[test]
fn client_on_falling_heaps(rt: HostRuntime) {
    succeeds_from(&rt, &Call::Client, CLIENT);
}

#[test]
fn ring_on_falling_heaps(rt: HostRuntime) {
    succeeds_from(&rt, &Call::Ring, RING);
}

#[test]
fn stream_on_falling_heaps(rt: HostRuntime) {
    succeeds_from(&rt, &Call::Stream, STREAM);
}

#[test]
fn show_on_falling_heaps(rt: HostRuntime) {
    succeeds_from(&rt, &Call::Show, SHOWN);
}
