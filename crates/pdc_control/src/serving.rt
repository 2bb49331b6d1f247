//! Answering at the socket.

use crate::answer::Head;
use crate::control::Control;
use crate::request::{Form, Request, request_of};
use crate::socket::{ControlSocket, MOST_WAITING, answer};
use std::io::{ErrorKind, Read};
use std::os::unix::net::UnixStream;
use std::rt::Clock;
use std::sync::Wait;
use std::time::Duration;
use std::{io, thread};

/// From one look for somebody to the next, in milliseconds.
const PAUSE: u64 = 20;

/// How many bytes of a request are read at most, and by how many reads of at most so many milliseconds: it is waited for a second at most, however
/// slowly it comes.
const MOST_BYTES: usize = 64;

const READS: u64 = 20;

const READ_MS: u64 = 50;

/// How long an answer may take to be taken, in milliseconds.
const WRITE_MS: u64 = 1000;

/// The request that comes over this connection; none where nothing comes soon, or something else. Once the run has ended it is not waited for.
fn read_request(control: &Control, stream: &mut UnixStream) -> io::Result<Option<Request>> {
    stream.set_read_timeout(Some(Duration::from_millis(READ_MS)))?;
    stream.set_write_timeout(Some(Duration::from_millis(WRITE_MS)))?;
    let mut bytes = [0u8; MOST_BYTES];
    let mut len = 0;
    for _ in 0..READS {
        let Some(room) = bytes.get_mut(len..) else {
            return Ok(None);
        };
        let count = match stream.read(room) {
            Ok(count) => count,
            Err(error) if error.kind() == ErrorKind::WouldBlock && !control.has_ended() => continue,
            Err(error) => return Err(error),
        };
        len += count;
        let read = &bytes[..len];
        if count == 0 || read.ends_with(b"\n") {
            return Ok(request_of(read));
        }
    }
    Ok(None)
}

/// Answers how the run stands, as lines or an object.
fn answer_status<R: Wait + Clock>(
    rt: &R,
    socket: &ControlSocket<'_>,
    stream: &UnixStream,
    form: Form,
) {
    match socket.control.status(rt, form) {
        Some(text) => answer(stream, Head::Done, text.as_str()),
        None if socket.control.has_ended() => answer(stream, Head::Failed, "the run has ended\n"),
        None => answer(
            stream,
            Head::Failed,
            "there was no tick within three seconds\n",
        ),
    }
}

/// Answers who has connected. Who stops the run waits for its end.
fn serve_one<R: Wait + Clock>(rt: &R, socket: &ControlSocket<'_>, stream: UnixStream) {
    let mut stream = stream;
    match read_request(&socket.control, &mut stream) {
        Ok(Some(Request::Stop)) => {
            socket.control.stop();
            let _kept = socket.keep(rt, stream);
        }
        Ok(Some(Request::Status(form))) => answer_status(rt, socket, &stream, form),
        Ok(None) | Err(_) => answer(
            &stream,
            Head::Refused,
            "a line is wanted: `stop`, `status` or `status json`\n",
        ),
    }
}

/// Answers those who connected before the run had ended.
fn serve_rest<R: Wait + Clock>(rt: &R, socket: &ControlSocket<'_>) {
    for _ in 0..MOST_WAITING {
        match socket.listener.accept() {
            Ok((stream, _)) => serve_one(rt, socket, stream),
            Err(_) => return,
        }
    }
}

/// Answers one after the other at the socket, until the run has ended.
pub fn serve_control<R: Wait + Clock>(rt: &R, socket: &ControlSocket<'_>) {
    for _ in rt.forever() {
        if socket.control.has_ended() {
            serve_rest(rt, socket);
            return;
        }
        match socket.listener.accept() {
            Ok((stream, _)) => serve_one(rt, socket, stream),
            Err(_) => thread::sleep(rt, Duration::from_millis(PAUSE)),
        }
    }
    unreachable!()
}
