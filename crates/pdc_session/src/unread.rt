//! Bytes that were read ahead.
ghost use Rattle.std.specs.Prelude.{◌≡◌, ◌≤◌, ◌<◌, [], length, drop, IfOk, OnErr};
ghost use Rattle.std.specs.Io.KnownBytes.{Consumes, IsAtEnd, Keeps};
ghost use Rattle.pdc_memory.specs.Asking.{WasRefused};
ghost use Rattle.pdc_session.specs.Counted.{faults_after, is_fault, reads_after};
ghost use Rattle.pdc_session.specs.Counting.{faults_of, inner_of, reads_of};

use crate::counting::Counting;
use pdc_memory::with_room;
use std::alloc::{AllocError, Allocator, Global};
use std::io;
use std::io::Read;
use std::marker::Model;

/// The most bytes of one read: a page.
pub(crate) const PIECE_LEN: usize = 4096;

/// So many bytes for a reader to write to.
///
/// # Errors
///
/// [`AllocError`] where a request for so many bytes was refused.
pub fn blank_piece<A: Allocator>(alloc: A, count: usize) -> Result<Vec<u8, A>, AllocError>
    ensures len { IfOk result (λ piece. length piece.items ≡ count) }
    ensures refused { OnErr result (WasRefused count) }
{
    let mut piece = with_room(alloc, count)?;
    for _ in 0..count {
        piece.push_reserved(0);
    }
    Ok(piece)
}

/// The bytes that were read and not taken yet.
#[derive(Drop)]
pub struct Unread<A: Allocator = Global> {
    piece: Vec<u8, A>,
    begin: usize,
    end: usize,
}

impl<A: Allocator> Model for Unread<A> {
    ghost use Rattle.std.specs.Prelude.{◌≤◌, ◌-◌, ◌<◌, ℕ, List, length, take, drop};

    ghost Value = { List ℕ };

    ghost view = { λ u. take (u.end - u.begin) (drop u.begin u.piece.items) };

    ghost invariant = { λ u. record {
      begin : u.begin ≤ u.end;
      end : u.end ≤ length u.piece.items;
      room : 0 < length u.piece.items;
    } };
}

impl<A: Allocator> Unread<A> {
    /// None yet.
    ///
    /// # Errors
    ///
    /// [`AllocError`] where a request for the bytes of a read was refused.
    pub fn new(alloc: A) -> Result<Unread<A>, AllocError>
        ensures none { IfOk result (λ unread. unread ≡ []) }
        ensures refused { OnErr result (WasRefused PIECE_LEN) }
    {
        Ok(Unread {
            piece: blank_piece(alloc, PIECE_LEN)?,
            begin: 0,
            end: 0,
        })
    }

    /// The bytes, the first one first.
    pub fn bytes(&self) -> &[u8]
        ensures { result.now ≡ self.now }
    {
        &self.piece[self.begin..self.end]
    }

    /// Takes the first `count` bytes.
    pub fn skip(&mut self, count: usize)
        requires { count ≤ length self.old }
        ensures { self.new ≡ drop count self.old }
    {
        self.begin += count;
    }

    /// Reads once, where no byte is left, and answers how many bytes came. None come at the end of the input alone.
    ///
    /// # Errors
    ///
    /// What the reader answers.
    pub fn fill<R: Read>(&mut self, reader: &mut Counting<R>) -> io::Result<usize>
        requires { self.old ≡ [] }
        ensures len { IfOk result (λ count. count ≡ length self.new) }
        ensures bytes { IfOk result (λ count. Consumes (R.remaining (inner_of reader.old))
            (R.remaining (inner_of reader.new)) self.new) }
        ensures end { IfOk result (λ count. count ≡ 0 →
            IsAtEnd (R.remaining (inner_of reader.new))) }
        ensures err { OnErr result ((self.new ≡ [])
            × Keeps (R.remaining (inner_of reader.old)) (R.remaining (inner_of reader.new))) }
        ensures reads { reads_of reader.new ≡ reads_after 1 (reads_of reader.old) }
        ensures faults { faults_of reader.new ≡
            faults_after (is_fault result) (faults_of reader.old) }
    {
        self.begin = 0;
        self.end = 0;
        match reader.read(self.piece.as_mut_slice()) {
            Ok(count) => {
                self.end = count;
                Ok(count)
            }
            Err(error) => Err(error),
        }
    }
}
