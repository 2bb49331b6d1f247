//! Entries are written.
ghost use Rattle.std.specs.Prelude.{◌≡◌, ◌+◌, ◌^◌, ◌≤◌, ◌<◌, ◌∷◌, ◌++◌, ◌↔◌, length, OnOk, OnErr};
ghost use Rattle.std.specs.Prelude.{IsOk, IsErrOf};
ghost use Rattle.std.specs.Int.{w32, w64, to_be_bytes};
ghost use Rattle.pdc_record.specs.Told.{fields_of, told_of};
ghost use Rattle.pdc_record.specs.Bodies.{rest_of};
ghost use Rattle.pdc_record.specs.Entries.{Fits, spelling_of};
ghost use Rattle.pdc_record.specs.declared.writing.WriteFault.TheVariants.{TooLong};

use crate::bodies::{kind_number, rest_of};
use crate::entry::Entry;
use crate::fixed::{append_fixed, fixed_len};
use crate::limits::{BEGUN_LEN, HEAD_LEN, MAX_REST, OVERHEAD};
use byteorder::{BigEndian, ByteOrder};
use pdc_frame::{Buffer, end_frame};

/// Why an entry was not written.
#[derive(Clone, Copy, Debug, PartialEq, Eq)]
pub enum WriteFault {
    /// Its datagram, frame or settings text has more than [`MAX_REST`] bytes.
    TooLong,
    /// There was no room for it, and the memory for it was refused.
    NoMemory,
}

/// How many bytes the entry has.
pub fn entry_len(entry: &Entry<'_>) -> usize
    ensures value { result ≡ length (spelling_of (fields_of entry.now)) }
    ensures most { result ≤ OVERHEAD + BEGUN_LEN + length (rest_of (told_of entry.now.what)) }
{
    OVERHEAD + fixed_len(&entry.what) + rest_of(&entry.what).len()
}

/// LEN, KIND, STEP and TIME.
fn head_bytes(len: u32, kind: u8, step: u64, time: u64) -> [u8; HEAD_LEN]
    ensures value { result ≡ to_be_bytes w32 len ++
        (kind ∷ (to_be_bytes w64 step ++ to_be_bytes w64 time)) }
    ensures len { length result ≡ HEAD_LEN }
    ensures step { step < 2 ^ 64 }
    ensures time { time < 2 ^ 64 }
{
    let mut head = [0; HEAD_LEN];
    BigEndian::write_u32(&mut head, len);
    head[4] = kind;
    BigEndian::write_u64(&mut head[5..], step);
    BigEndian::write_u64(&mut head[13..], time);
    head
}

/// Appends the bytes of an entry: the one spelling of its fields. It takes no memory where there is room for them.
///
/// # Errors
///
/// The first cause that holds, in the order of [`WriteFault`].
pub fn write_entry<B: Buffer>(entry: &Entry<'_>, out: &mut B) -> Result<(), WriteFault>
    // What is appended is the entry,
    ensures ok { OnOk result (B.content out.new ≡ B.content out.old ++
        spelling_of (fields_of entry.now)) }
    // which is read back with these fields.
    ensures fits { OnOk result (Fits (fields_of entry.now)) }
    // It fails only for these causes, and then nothing is appended.
    ensures long { IsErrOf result TooLong ↔ (MAX_REST < length (rest_of (told_of entry.now.what))) }
    ensures err { OnErr result ((B.content out.new ≡ B.content out.old)
        × (B.capacity out.new ≡ B.capacity out.old)) }
    ensures room { length (B.content out.old) +
        length (spelling_of (fields_of entry.now)) ≤ B.capacity out.old
        → length (rest_of (told_of entry.now.what)) ≤ MAX_REST → IsOk result }
    // Where there was room, it takes no memory.
    ensures in_place { length (B.content out.old) +
        length (spelling_of (fields_of entry.now)) ≤ B.capacity out.old →
        B.capacity out.new ≡ B.capacity out.old }
    ensures capacity { B.capacity out.old ≤ B.capacity out.new }
{
    let rest = rest_of(&entry.what);
    if rest.len() > MAX_REST {
        return Err(WriteFault::TooLong);
    }
    let len = entry_len(entry);
    let start = out.content().len();
    if out.make_room(len).is_err() {
        return Err(WriteFault::NoMemory);
    }
    let kind = kind_number(&entry.what);
    let head = head_bytes(len as u32, kind, entry.step, entry.time);
    out.append_bytes(&head);
    append_fixed(&entry.what, out);
    out.append_bytes(rest);
    end_frame(start, out);
    Ok(())
}
