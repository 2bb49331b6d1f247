//! A connection with a consumer.

use std::io;
use std::io::{ErrorKind, Read, Write};
use std::net::OpenStream;

/// A connection whose reads wait for the consumer, or take what has come.
#[derive(Drop)]
pub struct Line<S> {
    stream: S,
    /// Whether a read waits for no byte.
    is_hasty: bool,
    /// Whether the other end took nothing in time of what was written, or did not answer.
    has_stalled: bool,
}

impl<S> Line<S> {
    /// A connection whose reads wait.
    pub fn new(stream: S) -> Line<S> {
        Line {
            stream,
            is_hasty: false,
            has_stalled: false,
        }
    }

    /// Whether the other end took nothing in time of what was written, or did not answer any more.
    pub fn has_stalled(&self) -> bool {
        self.has_stalled
    }

    /// Lets the next reads wait for no byte, or wait.
    pub fn set_hasty(&mut self, is_hasty: bool) {
        self.is_hasty = is_hasty;
    }
}

/// Whether the system gave the other end up.
fn has_timed_out(answer: &io::Result<usize>) -> bool {
    match answer {
        Ok(_) => false,
        Err(error) => matches!(error.kind(), ErrorKind::TimedOut),
    }
}

/// Whether the call would have to wait on.
fn would_wait(answer: &io::Result<usize>) -> bool {
    match answer {
        Ok(_) => false,
        Err(error) => matches!(error.kind(), ErrorKind::WouldBlock),
    }
}

impl<S: Read + OpenStream> Read for Line<S> {
    ghost remaining = { λ s. S.remaining s.stream };

    fn read(&mut self, buf: &mut [u8]) -> io::Result<usize> {
        if !self.is_hasty {
            let answer = self.stream.read(buf);
            self.has_stalled = self.has_stalled || has_timed_out(&answer);
            return answer;
        }
        self.stream.set_nonblocking(true)?;
        let answer = self.stream.read(buf);
        // Where this fails a write that would wait fails too, and ends the session.
        let _waits_again = self.stream.set_nonblocking(false);
        self.has_stalled = self.has_stalled || has_timed_out(&answer);
        answer
    }
}

impl<S: Write> Write for Line<S> {
    ghost contents = { λ s. S.contents s.stream };

    fn write(&mut self, buf: &[u8]) -> io::Result<usize> {
        let answer = self.stream.write(buf);
        self.has_stalled = self.has_stalled || would_wait(&answer) || has_timed_out(&answer);
        answer
    }

    fn flush(&mut self) -> io::Result<()> {
        self.stream.flush()
    }
}
