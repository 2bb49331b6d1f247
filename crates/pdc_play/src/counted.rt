//! How often an input was read.
ghost use Rattle.std.specs.Prelude.{◌≡◌, ◌+◌, length};
ghost use Rattle.std.specs.Io.{ReadsAtMost};
ghost use Rattle.std.specs.Io.KnownBytes.{ReadConsumes};
ghost use Rattle.pdc_play.specs.Script.{counted};

use std::io;
use std::io::Read;

/// A reader that counts how often it was read. It is read by its own call alone, which counts. The counter stays at its greatest value.
#[derive(Drop)]
pub struct CountedReader<R> {
    reader: R,
    reads: u64,
}

impl<R> CountedReader<R> {
    ghost use Rattle.pdc_play.specs.Counted.{reader_of, reads_of};

    /// It was not read yet.
    pub fn new(reader: R) -> CountedReader<R>
        ensures reader { reader_of result ≡ reader }
        ensures reads { reads_of result ≡ 0 }
    {
        CountedReader { reader, reads: 0 }
    }

    /// How often it was read.
    pub fn reads(&self) -> u64
        ensures reads { result ≡ reads_of self.now }
    {
        self.reads
    }
}

impl<R: Read> CountedReader<R> {
    ghost use Rattle.pdc_play.specs.Counted.{reader_of, reads_of};

    /// Reads once into the front of the buffer, and answers how many bytes came.
    ///
    /// # Errors
    ///
    /// What the reader answers.
    pub(crate) fn read(&mut self, buffer: &mut [u8]) -> io::Result<usize>
        ensures kept { length buffer.new ≡ length buffer.old }
        ensures bound { ReadsAtMost result buffer.new }
        ensures bytes { ReadConsumes (R.remaining (reader_of self.old))
            (R.remaining (reader_of self.new)) result buffer.new }
        ensures reads { reads_of self.new ≡ counted (reads_of self.old + 1) }
    {
        let answer = self.reader.read(buffer);
        self.reads = self.reads.saturating_add(1);
        answer
    }
}
