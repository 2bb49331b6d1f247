//! A line of hexadecimal, read piece by piece.

use crate::digits::decode;
use hex::FromHexError;
use memchr::memchr2;
use std::alloc::{AllocError, Allocator, Global};

/// The most digits of a line that are kept: those of one byte more than the longest frame has.
const MAX_DIGITS: usize = 131_072;

/// What was read of a line: its bytes without spaces. A line that is longer than any frame is not kept whole: its first digits tell
/// what it is refused for, as all of them would.
#[derive(Drop)]
pub struct Line<A: Allocator = Global> {
    kept: Vec<u8, A>,
    /// Some byte behind those that are kept is no digit.
    broken: bool,
    /// There is an odd number of digits behind those that are kept.
    odd: bool,
    /// A CR came last, which ends the line if LF follows.
    has_return: bool,
}

impl<A: Allocator> Line<A> {
    /// An empty line.
    pub fn new(alloc: A) -> Line<A> {
        Line {
            kept: Vec::new(alloc),
            broken: false,
            odd: false,
            has_return: false,
        }
    }

    /// Adds a byte of the line.
    fn keep(&mut self, byte: u8) -> Result<(), AllocError> {
        if self.kept.len() < MAX_DIGITS {
            return self.kept.push(byte).map_err(|_| AllocError);
        }
        self.odd = !self.odd;
        if !byte.is_ascii_hexdigit() {
            self.broken = true;
        }
        Ok(())
    }

    /// Takes a byte of the line, or passes over it where it is a space.
    fn take_byte(&mut self, byte: u8) -> Result<(), AllocError> {
        if self.has_return {
            self.has_return = false;
            self.keep(b'\r')?;
        }
        match byte {
            b' ' => Ok(()),
            b'\r' => {
                self.has_return = true;
                Ok(())
            }
            _ => self.keep(byte),
        }
    }

    /// Whether nothing of the piece is passed over, and all of it is kept.
    fn is_plain(&self, piece: &[u8]) -> bool {
        !self.has_return
            && piece.len() <= MAX_DIGITS
            && self.kept.len() <= MAX_DIGITS - piece.len()
            && memchr2(b' ', b'\r', piece).is_none()
    }

    /// Takes a piece of the line, in which no LF is. Spaces are passed over.
    ///
    /// # Errors
    ///
    /// [`AllocError`] where there is no room and none is got.
    pub fn take(&mut self, piece: &[u8]) -> Result<(), AllocError> {
        if self.is_plain(piece) {
            return self.kept.extend_from_slice(piece);
        }
        for byte in piece {
            self.take_byte(*byte)?;
        }
        Ok(())
    }

    /// Takes the end of the input, before which a CR ends no line.
    ///
    /// # Errors
    ///
    /// [`AllocError`] where there is no room and none is got.
    pub fn take_end(&mut self) -> Result<(), AllocError> {
        if self.has_return {
            self.has_return = false;
            self.keep(b'\r')?;
        }
        Ok(())
    }

    /// The bytes that the line stands for; `None` where it is empty.
    ///
    /// # Errors
    ///
    /// What is no hexadecimal in it, or [`FromHexError::OutOfMemory`].
    pub fn bytes<B: Allocator>(&self, alloc: B) -> Result<Option<Vec<u8, B>>, FromHexError> {
        if self.broken || self.odd {
            return Err(FromHexError::OddLength);
        }
        if self.kept.is_empty() {
            return Ok(None);
        }
        decode(alloc, self.kept.as_slice()).map(Some)
    }

    /// Begins the next line.
    pub fn clear(&mut self) {
        self.kept.clear();
        self.broken = false;
        self.odd = false;
        self.has_return = false;
    }
}
