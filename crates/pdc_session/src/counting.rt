//! How often a connection was read, and how often it failed.
ghost use Rattle.std.specs.Prelude.{◌≡◌, OnOk, is_err, length};
ghost use Rattle.std.specs.Io.{ReadsAtMost};
ghost use Rattle.std.specs.Io.KnownBytes.{Appends, ReadConsumes};
ghost use Rattle.std.specs.IoError.{error_kind};
ghost use Rattle.pdc_session.specs.Counted.{faults_after, is_fault, is_interrupt, reads_after};

use std::io;
use std::io::{ErrorKind, Read, Write};

/// A reader and writer that counts how often it was read, and how often a read or a write of it failed. It is read and written by its own
/// calls alone, each of which counts. A counter stays at its greatest value.
#[derive(Drop)]
pub struct Counting<S> {
    inner: S,
    reads: u64,
    faults: u64,
}

/// Whether a read was interrupted, and its reader did not fail.
pub fn is_interrupt(error: &io::Error) -> bool
    ensures { result ≡ is_interrupt (error_kind error.now) }
{
    matches!(error.kind(), ErrorKind::Interrupted)
}

/// Whether the answer of a read tells that its reader failed.
fn is_fault(answer: &io::Result<usize>) -> bool
    ensures { result ≡ is_fault answer.now }
{
    match answer {
        Ok(_) => false,
        Err(error) => !is_interrupt(error),
    }
}

/// Writes all of the bytes, and hands them on.
fn write_through<W: Write>(writer: &mut W, bytes: &[u8]) -> io::Result<()>
    ensures { OnOk result (Appends (W.contents writer.old) (W.contents writer.new) bytes.now) }
{
    match writer.write_all(bytes) {
        Ok(()) => writer.flush(),
        Err(error) => Err(error),
    }
}

impl<S> Counting<S> {
    ghost use Rattle.pdc_session.specs.Counting.{faults_of, inner_of, reads_of};

    /// It was not read yet, and did not fail.
    pub fn new(inner: S) -> Counting<S>
        ensures inner { inner_of result ≡ inner }
        ensures reads { reads_of result ≡ 0 }
        ensures faults { faults_of result ≡ 0 }
    {
        Counting {
            inner,
            reads: 0,
            faults: 0,
        }
    }

    /// How often it was read.
    pub fn reads(&self) -> u64
        ensures { result ≡ reads_of self.now }
    {
        self.reads
    }

    /// How often it failed: reads that failed and were not merely interrupted, and writes that failed.
    pub fn faults(&self) -> u64
        ensures { result ≡ faults_of self.now }
    {
        self.faults
    }

    /// The reader and writer, given back.
    pub fn into_inner(self) -> S
        ensures { result ≡ inner_of self }
    {
        self.inner
    }
}

impl<S: Read> Counting<S> {
    ghost use Rattle.pdc_session.specs.Counting.{faults_of, inner_of, reads_of};

    /// Reads once into the front of the buffer, and answers how many bytes came.
    ///
    /// # Errors
    ///
    /// What the reader answers.
    pub fn read(&mut self, buffer: &mut [u8]) -> io::Result<usize>
        ensures kept { length buffer.new ≡ length buffer.old }
        ensures bound { ReadsAtMost result buffer.new }
        ensures bytes { ReadConsumes (S.remaining (inner_of self.old))
            (S.remaining (inner_of self.new)) result buffer.new }
        ensures reads { reads_of self.new ≡ reads_after 1 (reads_of self.old) }
        ensures faults { faults_of self.new ≡ faults_after (is_fault result) (faults_of self.old) }
    {
        let answer = self.inner.read(buffer);
        self.reads = self.reads.saturating_add(1);
        if is_fault(&answer) {
            self.faults = self.faults.saturating_add(1);
        }
        answer
    }
}

impl<S: Write> Counting<S> {
    ghost use Rattle.pdc_session.specs.Counting.{faults_of, inner_of, reads_of};

    /// Writes all of the bytes, and hands them on.
    ///
    /// # Errors
    ///
    /// What the writer answers. It may have taken some of the bytes.
    pub fn write(&mut self, bytes: &[u8]) -> io::Result<()>
        ensures bytes { OnOk result (Appends (S.contents (inner_of self.old))
            (S.contents (inner_of self.new)) bytes.now) }
        ensures reads { reads_of self.new ≡ reads_of self.old }
        ensures faults { faults_of self.new ≡ faults_after (is_err result) (faults_of self.old) }
    {
        let answer = write_through(&mut self.inner, bytes);
        if answer.is_err() {
            self.faults = self.faults.saturating_add(1);
        }
        answer
    }
}
