//! Entries are read.
ghost use Rattle.std.specs.Prelude.{◌≡◌, ◌+◌, ◌≤◌, length, IfOk, IfErr, IsOkAnd, MatchOption};
ghost use Rattle.pdc_frame.specs.Bytes.{long_at};
ghost use Rattle.pdc_record.specs.Told.{Fields, fields_of};
ghost use Rattle.pdc_record.specs.Entries.{Begins, IsFirstCause, IsSaid, IsSizeCause, IsWhole};
ghost use Rattle.pdc_record.specs.Entries.{spelling_of};

use crate::bodies::read_what;
use crate::entry::Entry;
use crate::limits::{HEAD_LEN, MAX_LEN, OVERHEAD};
use crate::words::{split_byte, split_long, split_wide, split_word};
use pdc_frame::{CHECK_LEN, check_word, read_long};

/// Why bytes begin with no whole entry.
#[derive(Clone, Copy, Debug, PartialEq, Eq)]
pub enum Unread {
    /// They end before the entry does.
    Cut,
    /// They are no entry: its length, its kind or a field is out of its range.
    NoEntry,
    /// Its check word is another.
    BadCheck,
}

/// The number of bytes of the entry that the bytes begin with, by its LEN. There are as many.
fn whole_len(bytes: &[u8]) -> Result<usize, Unread>
    ensures whole { IfOk result (λ len. IsWhole bytes.now × (len ≡ long_at bytes.now 0)) }
    ensures fault { IfErr result (IsSizeCause bytes.now) }
{
    if bytes.len() < 4 {
        return Err(Unread::Cut);
    }
    let len = read_long(bytes, 0) as usize;
    if len < OVERHEAD || len > MAX_LEN {
        return Err(Unread::NoEntry);
    }
    if bytes.len() < len {
        return Err(Unread::Cut);
    }
    Ok(len)
}

/// The entry whose bytes before CHK these are.
fn read_unchecked(bytes: &[u8]) -> Option<Entry<'_>>
    requires room { HEAD_LEN ≤ length bytes.now }
    requires len { long_at bytes.now 0 ≡ length bytes.now + CHECK_LEN }
    ensures { MatchOption result ((f : Fields) → IsSaid bytes.now f →
        ⊥) (λ entry. IsSaid bytes.now (fields_of entry)) }
{
    let (_, bytes) = split_long(bytes);
    let (kind, bytes) = split_byte(bytes);
    let (step, bytes) = split_wide(bytes);
    let (time, body) = split_wide(bytes);
    let what = read_what(kind, body)?;
    Some(Entry { step, time, what })
}

/// The entry that the bytes begin with, and how many bytes it has. It takes no memory: what it lends is lent from `bytes`.
///
/// # Errors
///
/// The first cause that holds, in the order of [`Unread`]: a LEN out of its range, or a body that says nothing, is [`Unread::NoEntry`].
pub fn read_entry(bytes: &[u8]) -> Result<(Entry<'_>, usize), Unread>
    // The bytes begin with what is read.
    ensures found { IfOk result (λ x. Begins bytes.now (fields_of x.0)
        × (x.1 ≡ length (spelling_of (fields_of x.0)))) }
    // What they begin with is read.
    ensures only { (f : Fields) → Begins bytes.now f →
        IsOkAnd result (λ x. (fields_of x.0 ≡ f) × (x.1 ≡ length (spelling_of f))) }
    // Which cause it is.
    ensures fault { IfErr result (IsFirstCause bytes.now) }
{
    let len = match whole_len(bytes) {
        Ok(len) => len,
        Err(cause) => return Err(cause),
    };
    let (unchecked, behind) = bytes.split_at(len - CHECK_LEN);
    let entry = match read_unchecked(unchecked) {
        Some(entry) => entry,
        None => return Err(Unread::NoEntry),
    };
    let (check, _) = split_word(behind);
    if check != check_word(unchecked) {
        return Err(Unread::BadCheck);
    }
    Ok((entry, len))
}
