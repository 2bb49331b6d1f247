//! What one read brings.
ghost use Rattle.std.specs.Prelude.{◌≡◌, ◌+◌, ◌≤◌, ◌<◌, length, replicate, take, IfOk, OnErr};
ghost use Rattle.pdc_history.specs.pdc_memory.Asking.{WasRefused};
ghost use Rattle.pdc_play.specs.Counted.{reader_of, reads_of};
ghost use Rattle.pdc_play.specs.Script.{counted};
ghost use Rattle.std.specs.Io.KnownBytes.{Consumes, IsAtEnd, Keeps};

use crate::counted::CountedReader;
use crate::hexadecimal::zeros;
use std::alloc::{AllocError, Global};
use std::io;
use std::io::Read;

/// The most bytes of one read.
const PIECE_LEN: usize = 65536;

/// Room for what one read brings.
#[derive(Drop)]
pub struct Piece {
    pub bytes: Vec<u8>,
    pub ghost room: { 0 < length bytes.items },
}

impl Piece {
    /// With room.
    ///
    /// # Errors
    ///
    /// [`AllocError`] where a request for it was refused.
    pub fn new(alloc: Global) -> Result<Piece, AllocError>
        ensures { OnErr result (WasRefused PIECE_LEN) }
    {
        Ok(Piece {
            bytes: zeros(alloc, PIECE_LEN)?,
        })
    }

    /// Reads once, and answers how many bytes came. None come at the end of the input alone.
    ///
    /// # Errors
    ///
    /// What the reader answers.
    pub fn fill<R: Read>(&mut self, reader: &mut CountedReader<R>) -> io::Result<usize>
        ensures bound { IfOk result (λ len. len ≤ length self.new.bytes.items) }
        ensures bytes { IfOk result (λ len. Consumes (R.remaining (reader_of reader.old))
            (R.remaining (reader_of reader.new)) (take len self.new.bytes.items)) }
        ensures end { IfOk result (λ len. len ≡ 0 → IsAtEnd (R.remaining (reader_of reader.new))) }
        ensures err { OnErr result (Keeps (R.remaining (reader_of reader.old))
            (R.remaining (reader_of reader.new))) }
        ensures reads { reads_of reader.new ≡ counted (reads_of reader.old + 1) }
    {
        reader.read(self.bytes.as_mut_slice())
    }
}
