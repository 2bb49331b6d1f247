//! Asking a run at its socket.

use crate::answer::{Answer, split_head};
use crate::request::Request;
use std::alloc::Global;
use std::io;
use std::io::{Read, Write};
use std::net::Net;
use std::os::unix::net::UnixStream;
use std::time::Duration;

/// How many bytes an answer has at most.
const MOST_BYTES: u64 = 1048576;

/// How long how the run stands is waited for, in seconds. The end of a run is waited for without end.
const PATIENCE: u64 = 10;

/// Why there is no answer.
#[derive(Debug, Drop)]
pub enum AskFault {
    /// Nobody can be reached there.
    Nobody(io::Error),
    /// What was asked cannot be sent, or the answer not be read.
    Lost(io::Error),
    /// The connection ended without an answer.
    NoAnswer,
    /// There is no memory.
    NoMemory,
}

/// Sends the request, and reads what comes until the connection ends.
fn exchange(alloc: Global, stream: &mut UnixStream, request: Request) -> io::Result<Vec<u8>> {
    if let Request::Status(_) = request {
        stream.set_read_timeout(Some(Duration::from_secs(PATIENCE)))?;
    }
    stream.write_all(request.line().as_bytes())?;
    let mut bytes = Vec::new(alloc);
    stream.take(MOST_BYTES).read_to_end(&mut bytes)?;
    Ok(bytes)
}

/// The answer of the run at whose socket this is. `stop` is answered once it has ended.
///
/// # Errors
///
/// [`AskFault`], by its cause.
pub fn ask<R: Net>(
    rt: &R,
    alloc: Global,
    path: &str,
    request: Request,
) -> Result<Answer, AskFault> {
    let mut stream = UnixStream::connect(rt, path).map_err(AskFault::Nobody)?;
    let bytes = exchange(alloc, &mut stream, request).map_err(AskFault::Lost)?;
    let Some((head, text)) = split_head(bytes.as_slice()) else {
        return Err(AskFault::NoAnswer);
    };
    let Ok(text) = str::from_utf8(text) else {
        return Err(AskFault::NoAnswer);
    };
    let text = String::from_str(alloc, text).map_err(|_| AskFault::NoMemory)?;
    Ok(Answer { head, text })
}
