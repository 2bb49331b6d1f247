//! Reading from a consumer, and writing to it.
ghost use Rattle.std.specs.Prelude.{◌≡◌, ◌<◌, ◌≤◌, OnOk, IfOk, IfErr, take, vec_len};
ghost use Rattle.std.specs.Io.KnownBytes.{Appends, Consumes};
ghost use Rattle.pdc_server.specs.Turn.{IsUnread, IsUnwritten};

use crate::ended::Ended;
use crate::naming::Naming;
use crate::recent::Recent;
use std::io::{ErrorKind, Read, Write};
use std::sync::Wait;

/// The most bytes of one write: a consumer that takes little at a time holds no one up for longer than one of them.
const PART_LEN: usize = 4096;

/// Whether the wait for bytes ended, and the connection did not fail.
fn is_idle(kind: ErrorKind) -> bool {
    matches!(
        kind,
        ErrorKind::WouldBlock | ErrorKind::TimedOut | ErrorKind::Interrupted
    )
}

/// Reads once into the front of `piece`, and answers how many bytes came: none where none came in time.
///
/// # Errors
///
/// `EndOfStream` where no more come, and `Device` where the connection failed.
pub fn read_once<S: Read>(stream: &mut S, piece: &mut Vec<u8>) -> Result<usize, Ended>
    requires room { 0 < vec_len piece.old }
    ensures room { vec_len piece.new ≡ vec_len piece.old }
    ensures count { IfOk result (λ count. count ≤ vec_len piece.new) }
    ensures bytes { IfOk result (λ count. Consumes (S.remaining stream.old)
        (S.remaining stream.new) (take count piece.new.items)) }
    ensures unread { IfErr result (λ ended. IsUnread ended (S.remaining stream.old)
        (S.remaining stream.new)) }
{
    match stream.read(piece.as_mut_slice()) {
        Ok(0) => Err(Ended::EndOfStream),
        Ok(count) => Ok(count),
        Err(error) if is_idle(error.kind()) => Ok(0),
        Err(_) => Err(Ended::Device),
    }
}

/// Writes a part.
fn write_part<S: Write>(stream: &mut S, part: &[u8]) -> Result<(), Ended>
    ensures ok { OnOk result (Appends (S.contents stream.old) (S.contents stream.new) part.now) }
    ensures err { IfErr result (λ ended. ended ≡ Ended.Device) }
{
    match stream.write_all(part) {
        Ok(()) => Ok(()),
        Err(_) => Err(Ended::Device),
    }
}

/// Writes the bytes, part by part, for as long as the concentrator runs.
///
/// # Errors
///
/// `Device` where the connection failed, or did not take a part in time; `Closed` where the concentrator has ended.
pub fn write_out<N: Naming, S: Write, R: Wait>(
    rt: &R,
    recent: &Recent<N>,
    stream: &mut S,
    bytes: &[u8],
) -> Result<(), Ended>
    ensures ok { OnOk result (Appends (S.contents stream.old) (S.contents stream.new) bytes.now) }
    ensures unwritten { IfErr result (λ ended. IsUnwritten ended (S.contents stream.old)
        (S.contents stream.new) bytes.now) }
{
    let mut at = 0;
    while at < bytes.len() {
        if recent.closed(rt) {
            return Err(Ended::Closed);
        }
        let end = bytes.len().min(at.saturating_add(PART_LEN));
        write_part(stream, &bytes[at..end])?;
        at = end;
    }
    match stream.flush() {
        Ok(()) => Ok(()),
        Err(_) => Err(Ended::Device),
    }
}
