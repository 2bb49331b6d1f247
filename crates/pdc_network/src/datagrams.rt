//! The command: datagrams in, lines out.

use pdc_frame::MAX_SIZE;
use pdc_ports::{Next, Source};
use std::alloc::{AllocError, Global};
use std::io;
use std::io::Write;
use std::sync::Wait;
use thiserror::Error;

/// Why a run ended early.
#[derive(Debug, Drop, Error)]
pub enum ListenFault {
    /// The source failed, or gave up.
    #[error("device fault")]
    Source,
    /// The writer failed.
    #[error("device fault")]
    Write(io::Error),
    /// No memory was left.
    #[error("Z1 NoMemory")]
    NoMemory,
}

impl From<AllocError> for ListenFault {
    fn from(_error: AllocError) -> ListenFault {
        ListenFault::NoMemory
    }
}

/// Prints the bytes as a line of hexadecimal in capitals, and flushes it.
fn print_line<W: Write>(alloc: Global, bytes: &[u8], writer: &mut W) -> Result<(), ListenFault> {
    let digits = hex::encode_upper(alloc, bytes)?;
    writeln!(writer, "{digits}").map_err(ListenFault::Write)?;
    writer.flush().map_err(ListenFault::Write)
}

/// A buffer for a datagram.
fn buffer(alloc: Global) -> Result<Vec<u8>, AllocError> {
    Ok(vec![in alloc; 0u8; MAX_SIZE]?)
}

/// Prints each datagram that the source gives as one line of hexadecimal, flushed before the next is waited for. Ends after so many
/// datagrams, or where no number is given with the source.
///
/// # Errors
///
/// A source that fails or gives up, a writer that fails, and want of memory.
pub fn listen<S: Source, W: Write, R: Wait>(
    rt: &R,
    alloc: Global,
    source: &mut S,
    count: Option<u32>,
    writer: &mut W,
) -> Result<(), ListenFault> {
    let mut buffer = buffer(alloc)?;
    let mut left = count;
    for _ in rt.forever() {
        if left == Some(0) {
            return Ok(());
        }
        match source.next(buffer.as_mut_slice()) {
            Next::Datagram(len) => {
                print_line(alloc, &buffer[..len], writer)?;
                if let Some(more) = left {
                    left = Some(more.saturating_sub(1));
                }
            }
            Next::Idle => {}
            Next::End => return Ok(()),
            Next::Fault | Next::Stuck => return Err(ListenFault::Source),
        }
    }
    unreachable!()
}
