//! The socket at which a run is asked.

use crate::answer::Head;
use crate::control::Control;
use std::alloc::Global;
use std::fs::Permissions;
use std::io::{ErrorKind, Write};
use std::net::Net;
use std::os::unix::fs::{DirBuilderExt, FileTypeExt, MetadataExt, PermissionsExt};
use std::os::unix::net::{UnixListener, UnixStream};
use std::rt::Files;
use std::sync::{Mutex, Wait};
use std::{fs, io};

/// The most bytes of a socket's path: the system takes 107, and the socket is made at a path of seven more.
pub const MAX_PATH: usize = 100;

/// How many of those who stopped a run wait for its end at most.
pub(crate) const MOST_WAITING: usize = 8;

/// Why there is no socket.
#[derive(Debug, Drop)]
pub enum ControlFault {
    /// Its path has more than [`MAX_PATH`] bytes.
    TooLong,
    /// Another program answers there.
    InUse,
    /// There is a file that is no socket. It is left as it is.
    NoSocket,
    /// It cannot be made.
    NotMade(io::Error),
    /// There is no memory.
    NoMemory,
}

/// The socket at which a run is asked. Its file has mode 0600.
#[derive(Drop)]
pub struct ControlSocket<'a> {
    path: &'a str,
    pub(crate) listener: UnixListener,
    /// Which file it is: its device and its number there.
    file: (u64, u64),
    /// Those who stopped the run, and wait for its end.
    waiting: Mutex<Vec<UnixStream>>,
    pub control: Control,
}

/// Fails where something is at the path that is not to be taken over: a file that is no socket, or a socket at which a program answers.
fn check_free<R: Files + Net>(rt: &R, path: &str) -> Result<(), ControlFault> {
    let found = match fs::symlink_metadata(rt, path) {
        Ok(found) => found,
        Err(error) if error.kind() == ErrorKind::NotFound => return Ok(()),
        Err(error) => return Err(ControlFault::NotMade(error)),
    };
    if !found.file_type().is_socket() {
        return Err(ControlFault::NoSocket);
    }
    match UnixStream::connect(rt, path) {
        Ok(_) => Err(ControlFault::InUse),
        Err(error) if error.kind() == ErrorKind::ConnectionRefused => Ok(()),
        Err(error) => Err(ControlFault::NotMade(error)),
    }
}

/// A listener at `inner`, whose file only its owner may use, moved to the path.
fn listen<R: Files + Net>(rt: &R, inner: &str, path: &str) -> io::Result<UnixListener> {
    let listener = UnixListener::bind(rt, inner)?;
    listener.set_nonblocking(true)?;
    fs::set_permissions(rt, inner, Permissions::from_mode(0o600))?;
    fs::rename(rt, inner, path)?;
    Ok(listener)
}

/// A listener at the path, made in a folder of its own that nobody else may enter: so at no moment may others connect.
fn listen_within<R: Files + Net>(
    rt: &R,
    folder: &str,
    inner: &str,
    path: &str,
) -> io::Result<UnixListener> {
    // (left over where a run was killed at this very place)
    let _removed = fs::remove_file(rt, inner);
    let _removed = fs::remove_dir(rt, folder);
    fs::DirBuilder::new().mode(0o700).create(rt, folder)?;
    let listener = listen(rt, inner, path);
    if listener.is_err() {
        let _removed = fs::remove_file(rt, inner);
    }
    let _removed = fs::remove_dir(rt, folder);
    listener
}

/// Which file is at the path.
fn file_at<R: Files>(rt: &R, path: &str) -> io::Result<(u64, u64)> {
    let found = fs::symlink_metadata(rt, path)?;
    Ok((found.dev(), found.ino()))
}

impl<'a> ControlSocket<'a> {
    /// Makes the socket of this path. One that a program left over which has died is taken over.
    ///
    /// # Errors
    ///
    /// [`ControlFault`], by its cause; nothing is made then, and nothing is changed.
    pub fn open<R: Files + Net>(
        rt: &R,
        alloc: Global,
        path: &'a str,
    ) -> Result<ControlSocket<'a>, ControlFault> {
        if path.len() > MAX_PATH {
            return Err(ControlFault::TooLong);
        }
        check_free(rt, path)?;
        let folder = format!(in alloc; "{path}.new").map_err(|_| ControlFault::NoMemory)?;
        let inner = format!(in alloc; "{path}.new/s").map_err(|_| ControlFault::NoMemory)?;
        let listener = listen_within(rt, folder.as_str(), inner.as_str(), path).map_err(
            ControlFault::NotMade,
        )?;
        let file = file_at(rt, path).map_err(ControlFault::NotMade)?;
        Ok(ControlSocket {
            path,
            listener,
            file,
            waiting: Mutex::new(Vec::new(alloc)),
            control: Control::new(),
        })
    }

    /// Keeps who stopped the run until it has ended, and answers whether there was a place.
    pub(crate) fn keep<R: Wait>(&self, rt: &R, stream: UnixStream) -> bool {
        let mut waiting = self.waiting.lock(rt);
        waiting.len() < MOST_WAITING && waiting.push(stream).is_ok()
    }

    /// Removes the file, where it is still this socket's, and answers all who stopped the run. To be called once all else has ended.
    pub fn close<R: Files + Wait>(&self, rt: &R, head: Head, text: &str) {
        if file_at(rt, self.path).is_ok_and(|file| file == self.file) {
            let _removed = fs::remove_file(rt, self.path);
        }
        for stream in self.waiting.lock(rt).iter() {
            answer(stream, head, text);
        }
    }
}

/// Writes an answer. One who does not take it goes without.
pub(crate) fn answer(stream: &UnixStream, head: Head, text: &str) {
    let mut stream = stream;
    if stream.write_all(head.line().as_bytes()).is_ok() {
        let _written = stream.write_all(text.as_bytes());
    }
}
