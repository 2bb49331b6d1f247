//! The entries of the bytes of a file.

pub use pdc_record::Unread;
use pdc_record::{Entry, read_entry};

/// The entries that bytes have, one after the other.
#[derive(Clone, Copy, Debug)]
pub struct Entries<'a> {
    bytes: &'a [u8],
    /// The place of the next entry.
    at: usize,
}

impl<'a> Entries<'a> {
    /// Those from this place on.
    pub fn from(bytes: &'a [u8], at: usize) -> Entries<'a> {
        Entries { bytes, at }
    }

    /// The place of the next entry.
    pub fn place(&self) -> usize {
        self.at
    }

    /// The next entry; none at the end.
    ///
    /// # Errors
    ///
    /// Why no entry stands at this place.
    pub fn next_entry(&mut self) -> Result<Option<Entry<'a>>, Unread> {
        let left = self.bytes.get(self.at..).unwrap_or(&[]);
        if left.is_empty() {
            return Ok(None);
        }
        let (entry, len) = read_entry(left)?;
        self.at = self.at.saturating_add(len);
        Ok(Some(entry))
    }
}
