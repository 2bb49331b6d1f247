//! Header frames (C37.118.2-2011, 6.5).
ghost use Rattle.std.specs.Prelude.{◌≡◌, ◌+◌, ◌<◌, ◌≤◌, ◌++◌, ℕ, List, length, IfOk, IfErr, OnOk};
ghost use Rattle.std.specs.Prelude.{OnErr, IsOk, IsOkAnd};
ghost use Rattle.pdc_frame.specs.Frame.{fields_of, spelling_of, IsFrame};
ghost use Rattle.pdc_frame.specs.Command.{header_fields, IsHeader, IsHeaderFault};

use crate::buffer::Buffer;
use crate::command_fault::CommandFault;
use crate::frame::{Frame, Kind};
use crate::id::StreamId;
use crate::laws::frames_are_written_in_parts;
use crate::limits::{MAX_PAYLOAD, OVERHEAD};
use crate::writing::write_frame;
use std::alloc::AllocError;

/// The most bytes that the text of a header frame has: as many as a payload.
pub const MAX_TEXT: usize = MAX_PAYLOAD;

/// The text that a header frame carries. It takes no memory: the text is lent from where the frame's bytes are.
///
/// # Errors
///
/// [`CommandFault::WrongKind`] where the frame is no header frame.
pub fn read_header<'a>(frame: &Frame<'a>) -> Result<&'a [u8], CommandFault>
    // The frame carries what is read,
    ensures found { IfOk result (λ text. IsHeader (fields_of frame.now) text.now) }
    // and what it carries is read.
    ensures only { (text : List ℕ) → IsHeader (fields_of frame.now) text →
        IsOkAnd result (λ found. found.now ≡ text) }
    // Which fault it is.
    ensures fault { IfErr result (IsHeaderFault (fields_of frame.now)) }
{
    if frame.kind != Kind::HeaderFrame {
        return Err(CommandFault::WrongKind);
    }
    Ok(frame.payload)
}

/// Appends the header frame of the stream `id` with this text, of at most [`MAX_TEXT`] bytes: version 2, time quality 0
/// and count 0.
///
/// # Errors
///
/// [`AllocError`] where `out` has no room and gets none.
pub fn write_header<B: Buffer>(
    id: StreamId,
    soc: u32,
    text: &[u8],
    out: &mut B,
) -> Result<(), AllocError>
    requires size { length text.now ≤ MAX_TEXT }
    // What is appended is the frame with these fields,
    ensures ok { OnOk result (B.content out.new ≡ B.content out.old ++
        spelling_of (header_fields id.value soc text.now)) }
    // which is read back, and carries the text.
    ensures frame { IsFrame (spelling_of (header_fields id.value soc text.now))
        (header_fields id.value soc text.now) }
    ensures text { IsHeader (header_fields id.value soc text.now) text.now }
    // It fails only where there was no room, and then nothing is appended.
    ensures err { OnErr result ((B.content out.new ≡ B.content out.old)
        × (B.capacity out.new ≡ B.capacity out.old)) }
    ensures room { length (B.content out.old) + (length text.now + OVERHEAD) ≤ B.capacity out.old →
        IsOk result }
    // A request for the whole frame was refused.
    ensures refused { OnErr result (B.refused out.new (length text.now + OVERHEAD)) }
    // Where there was room, it takes no memory.
    ensures in_place { length (B.content out.old) +
        (length text.now + OVERHEAD) ≤ B.capacity out.old →
        B.capacity out.new ≡ B.capacity out.old }
    ensures capacity { B.capacity out.old ≤ B.capacity out.new }
{
    frames_are_written_in_parts();
    write_frame(
        &Frame {
            kind: Kind::HeaderFrame,
            version: 2,
            id,
            soc,
            quality: 0,
            frac: 0,
            payload: text,
        },
        out,
    )
}
