//! Bytes that are gathered for a file.
ghost use Rattle.std.specs.Prelude.{◌≡◌, ◌++◌, [], OnErr, OnOk};
ghost use Rattle.std.specs.Io.KnownBytes.{Appends, Keeps};
ghost use Rattle.pdc_recording.specs.Gathered.{all_of};

use std::alloc::AllocError;
use std::fs::File;
use std::io;
use std::io::Write;

/// How many bytes are gathered before they are written, unless a pause comes first.
const MOST: usize = 65536;

/// A file, and the bytes that are gathered for it.
#[derive(Drop)]
pub struct Gathered<W: Write + Drop> {
    file: W,
    /// How many bytes of it were written.
    written: u64,
    bytes: Vec<u8>,
}

/// How many bytes there are.
pub fn count_of(bytes: &[u8]) -> u64 {
    u64::try_from(bytes.len()).unwrap_or(u64::MAX)
}

impl<W: Write + Drop> Gathered<W> {
    /// A file to which so many bytes were written, and bytes that are to be written behind them.
    pub fn new(file: W, written: u64, bytes: Vec<u8>) -> Gathered<W>
        ensures file { result.file ≡ file }
        ensures bytes { result.bytes ≡ bytes }
    {
        Gathered {
            file,
            written,
            bytes,
        }
    }

    /// Whether nothing was written to it.
    pub fn is_empty(&self) -> bool {
        self.written == 0
    }

    /// Whether so many bytes are gathered that they are to be written.
    pub fn is_full(&self) -> bool {
        self.bytes.len() >= MOST
    }

    /// Writes what is gathered. Answers how many bytes that were.
    ///
    /// # Errors
    ///
    /// The file cannot be written.
    pub fn flush(&mut self) -> io::Result<u64>
        // It stands behind what the file has, once, and nothing is left to be written.
        ensures written { OnOk result (Appends (W.contents self.old.file)
            (W.contents self.new.file) self.old.bytes.items) }
        ensures bytes { OnOk result (self.new.bytes.items ≡ []) }
        ensures all { OnOk result (Keeps (all_of (W.contents self.old.file) self.old.bytes.items)
            (all_of (W.contents self.new.file) self.new.bytes.items)) }
    {
        self.file.write_all(self.bytes.as_slice())?;
        let more = count_of(self.bytes.as_slice());
        self.bytes.clear();
        self.written = self.written.saturating_add(more);
        Ok(more)
    }

    /// Gathers these bytes behind those that are.
    ///
    /// # Errors
    ///
    /// There is no memory. Then nothing is gathered more.
    pub fn add(&mut self, bytes: &[u8]) -> Result<(), AllocError>
        ensures ok { OnOk result (self.new.bytes.items ≡ self.old.bytes.items ++ bytes.now) }
        ensures err { OnErr result (self.new.bytes.items ≡ self.old.bytes.items) }
        ensures file { self.new.file ≡ self.old.file }
        ensures all { OnOk result (Appends (all_of (W.contents self.old.file) self.old.bytes.items)
            (all_of (W.contents self.new.file) self.new.bytes.items) bytes.now) }
    {
        self.bytes.extend_from_slice(bytes)?;
        Ok(())
    }

    /// Gathers these bytes in the place of those that are.
    pub fn begin_with(&mut self, bytes: Vec<u8>)
        ensures bytes { self.new.bytes ≡ bytes }
        ensures file { self.new.file ≡ self.old.file }
    {
        self.bytes = bytes;
    }

    /// Forgets what is gathered.
    pub fn forget(&mut self)
        ensures bytes { self.new.bytes.items ≡ [] }
        ensures file { self.new.file ≡ self.old.file }
    {
        self.bytes.clear();
    }
}

impl Gathered<File> {
    /// Takes away what was not written whole.
    pub fn cut(&mut self) {
        let _cut = self.file.set_len(self.written);
    }
}
