//! The data frame of a closed row (C37.118.2-2011, 6.3).
ghost use Rattle.std.specs.Prelude.{◌≡◌, ◌+◌, ◌*◌, ◌<◌, ◌≤◌, ◌++◌, [], length, IsOk};
ghost use Rattle.std.specs.Prelude.{OnOk, OnErr};
ghost use Rattle.std.specs.Int.{w16, to_be_bytes};
ghost use Rattle.pdc_row.specs.pdc_frame.CheckWord.{check_word_of};
ghost use Rattle.pdc_row.specs.pdc_frame.Frame.{IsFrame, fields_of};
ghost use Rattle.pdc_row.specs.pdc_frame.declared.frame.Kind.TheVariants.{DataFrame};
ghost use Rattle.pdc_row.specs.pdc_block.Block.{bytes_of_words};
ghost use Rattle.pdc_row.specs.KeptBlocks.{bytes_of};
ghost use Rattle.pdc_row.specs.pdc_frame.declared.tag_limits.TheConstants.{SECONDS};
ghost use Rattle.pdc_row.specs.pdc_frame.Tag.{tag_of};
ghost use Rattle.pdc_row.specs.RowView.{row_view};
ghost use Rattle.pdc_row.specs.Layout.{front_of_row, own_block, row_payload, row_fields, wire_of};

use crate::due_row::DueRow;
use crate::last_row::LastRow;
use crate::output::Output;
use crate::room::RowEnds;
use crate::stamp::stamp_words;
use pdc_block::{
    Buffer, CheckedFront, FRONT_LEN, Frame, FrontDifference, HEADER_LEN, Kind, OVERHEAD,
    append_words, begin_frame, end_frame, frames_are_written_in_parts, tag_of, write_fields,
};
use std::alloc::AllocError;

/// The bytes of the own block: STAT, FREQ, DFREQ and four digital words.
pub const OWN_BLOCK_LEN: usize = 14;

/// The most bytes of the payload: the own block, and 16 blocks of the most channels.
const LONGEST_PAYLOAD: usize = 3438;

/// The most bytes of the data frame of a row.
pub const MAX_ROW_LEN: usize = LONGEST_PAYLOAD + OVERHEAD;

/// The bytes of the frame's payload.
fn payload_len(row: &DueRow) -> usize
    ensures value { result ≡ length (row_payload (row_view row.now)) }
    ensures blocks { result ≡ OWN_BLOCK_LEN + length (bytes_of row.now.blocks) }
    ensures most { result ≤ LONGEST_PAYLOAD }
{
    OWN_BLOCK_LEN + row.blocks.bytes().len()
}

/// Appends the own block. It takes no memory.
fn append_own_block<B: Buffer>(start: u32, change: u32, out: &mut B)
    requires { length (B.content out.old) + OWN_BLOCK_LEN ≤ B.capacity out.old }
    ensures content { B.content out.new ≡ B.content out.old ++
        bytes_of_words (own_block start change) }
    ensures len { length (B.content out.new) ≡ length (B.content out.old) + OWN_BLOCK_LEN }
    ensures in_place { B.capacity out.new ≡ B.capacity out.old }
{
    append_words(&[0; 3], out);
    append_words(&stamp_words(start, change), out);
}

/// Appends the payload: the own block and the blocks of the row. It takes no memory.
fn append_payload<B: Buffer>(row: &DueRow, out: &mut B)
    requires { length (B.content out.old) + OWN_BLOCK_LEN + length (bytes_of row.now.blocks) ≤
        B.capacity out.old }
    ensures content { B.content out.new ≡ B.content out.old ++ row_payload (row_view row.now) }
    ensures in_place { B.capacity out.new ≡ B.capacity out.old }
{
    append_own_block(row.start, row.change, out);
    out.append_bytes(row.blocks.bytes());
}

/// The fields of the frame, without its payload, with the tag of its instant.
#[inline(always)]
fn head_of<'a>(output: &'a Output, row: &DueRow, tag: (u32, u32)) -> Frame<'a>
    requires tag { tag ≡ tag_of row.now.instant output.now.time_base output.now.rate }
    requires count { tag.1 < output.now.time_base }
    ensures fields { fields_of result ≡ record {
      kind = DataFrame;
      version = 2;
      id = output.now.id.value;
      soc = result.soc;
      quality = row.now.quality;
      frac = result.frac;
      payload = [];
    } }
    ensures tag { (result.soc, result.frac) ≡
        tag_of row.now.instant output.now.time_base output.now.rate }
    ensures count { result.frac < output.now.time_base }
{
    let (soc, frac) = tag;
    Frame {
        kind: Kind::DataFrame,
        version: 2,
        id: output.id,
        soc,
        quality: row.quality,
        frac,
        payload: &[],
    }
}

/// Appends the data frame of the row: its instant as a time tag, its time quality, the own block with the stamp that the row
/// closed under, and its blocks. SOC has 32 bits, so the instant is below 2^32 times the rate.
///
/// # Errors
///
/// [`AllocError`] where `out` has no room and gets none.
pub fn append_row<B: Buffer>(output: &Output, row: &DueRow, out: &mut B) -> Result<(), AllocError>
    requires instant { row.now.instant < SECONDS * output.now.rate }
    // What is appended is the frame,
    ensures ok { OnOk result (B.content out.new ≡ B.content out.old ++
        wire_of output.now (row_view row.now)) }
    // which is read back with these fields.
    ensures frame { IsFrame (wire_of output.now (row_view row.now))
        (row_fields output.now (row_view row.now)) }
    // It fails only where there was no room, and then nothing is appended.
    ensures err { OnErr result ((B.content out.new ≡ B.content out.old)
        × (B.capacity out.new ≡ B.capacity out.old)) }
    ensures room { length (B.content out.old) +
        length (wire_of output.now (row_view row.now)) ≤ B.capacity out.old → IsOk result }
    // Where there was room, it takes no memory.
    ensures in_place { length (B.content out.old) +
        length (wire_of output.now (row_view row.now)) ≤ B.capacity out.old
        → B.capacity out.new ≡ B.capacity out.old }
    ensures capacity { B.capacity out.old ≤ B.capacity out.new }
    // The frame has 3454 bytes at most.
    ensures most { length (wire_of output.now (row_view row.now)) ≤ MAX_ROW_LEN }
{
    frames_are_written_in_parts();
    let tag = tag_of(row.instant, output.time_base, u32::from(output.rate));
    let head = head_of(output, row, tag);
    let start = out.content().len();
    begin_frame(&head, payload_len(row), out)?;
    append_payload(row, out);
    end_frame(start, out);
    Ok(())
}

/// Writes the own block over these bytes.
fn write_own_block(start: u32, change: u32, bytes: &mut [u8])
    requires { length bytes.old ≡ OWN_BLOCK_LEN }
    ensures { bytes.new ≡ bytes_of_words (own_block start change) }
{
    let [a, b, c, d] = start.to_be_bytes();
    let [e, f, g, h] = change.to_be_bytes();
    bytes.copy_from_slice(&[0, 0, 0, 0, 0, 0, a, b, c, d, e, f, g, h]);
}

/// Writes what stands before the blocks in the data frame of the row over these bytes: the fields, and the own block.
#[inline(always)]
fn write_front(output: &Output, row: &DueRow, tag: (u32, u32), front: &mut [u8; FRONT_LEN])
    requires tag { tag ≡ tag_of row.now.instant output.now.time_base output.now.rate }
    requires count { tag.1 < output.now.time_base }
    ensures { front.new ≡ front_of_row output.now (row_view row.now) }
{
    let head = head_of(output, row, tag);
    let (fields, own) = front.split_at_mut(HEADER_LEN);
    write_fields(&head, payload_len(row), fields);
    write_own_block(row.start, row.change, own);
}

/// Writes over these ends what stands before and behind the blocks in the data frame of the row, where the front and the check word are known
/// of a frame with the same blocks.
#[inline(always)]
fn ends_behind(
    output: &Output,
    row: &DueRow,
    tag: (u32, u32),
    known: &CheckedFront,
    difference: &mut FrontDifference,
    ends: &mut RowEnds,
)
    requires tag { tag ≡ tag_of row.now.instant output.now.time_base output.now.rate }
    requires count { tag.1 < output.now.time_base }
    requires known { known.now.check ≡
        check_word_of (known.now.bytes ++ bytes_of row.now.blocks) }
    ensures front { ends.new.front ≡ front_of_row output.now (row_view row.now) }
    ensures check { ends.new.check ≡ to_be_bytes w16 (check_word_of
        (front_of_row output.now (row_view row.now) ++ bytes_of row.now.blocks)) }
{
    let RowEnds { front, check } = ends;
    write_front(output, row, tag, front);
    let word = difference.check_behind(known, front, row.blocks.bytes());
    *check = word.to_be_bytes();
}

/// The same, where the check word is computed over all of it.
#[inline(always)]
fn ends_anew(output: &Output, row: &mut DueRow, tag: (u32, u32), ends: &mut RowEnds)
    requires tag { tag ≡ tag_of row.old.instant output.now.time_base output.now.rate }
    requires count { tag.1 < output.now.time_base }
    ensures same { row_view row.new ≡ row_view row.old }
    ensures front { ends.new.front ≡ front_of_row output.now (row_view row.old) }
    ensures check { ends.new.check ≡ to_be_bytes w16 (check_word_of
        (front_of_row output.now (row_view row.old) ++ bytes_of row.old.blocks)) }
{
    let head = head_of(output, row, tag);
    let mut own = [0; OWN_BLOCK_LEN];
    write_own_block(row.start, row.change, &mut own);
    row.blocks.ends_of(&head, &own, ends);
}

/// Writes over these ends what stands before and behind the blocks in the data frame of the row, as [`append_row`] appends it: with that round
/// them, they are the frame. Where they came in one frame whose check word is known, that of this frame follows from it, and from what the fronts
/// of both differ in; that and the second are kept from row to row. It takes no memory.
#[inline(never)]
pub fn ends_of(output: &Output, row: &mut DueRow, last: &mut LastRow, ends: &mut RowEnds)
    requires { row.old.instant < SECONDS * output.now.rate }
    ensures same { row_view row.new ≡ row_view row.old }
    ensures wire { ends.new.front ++ (bytes_of row.old.blocks ++ ends.new.check) ≡
        wire_of output.now (row_view row.old) }
{
    let tag = last
        .second
        .tag_of(row.instant, output.time_base, u32::from(output.rate));
    if let Some(known) = row.blocks.sent() {
        ends_behind(output, row, tag, known, &mut last.difference, ends);
    } else {
        ends_anew(output, row, tag, ends);
    }
}
