//! What a concentrator needs of the machine that it runs on.

use pdc_startup::{OwnFiles, Shelf};
use std::fs::File;
use std::net::{Net, TcpListener, TcpStream};
use std::random::RandomSource;
use std::rt::{Clock, Files};
use std::sync::Wait;
use std::thread::Threads;

/// A machine that a concentrator can run on: it has files, memory, a clock, sockets, threads, random bytes and standard error.
pub trait Host: Files<File = File>
    + Shelf
    + OwnFiles
    + AllocGlobal
    + Clock
    + Net<Listener = TcpListener, Stream = TcpStream>
    + Threads
    + Wait
    + Sync
    + RandomSource
    + Eprint {}

impl<
    R: Files<File = File>
        + Shelf
        + OwnFiles
        + AllocGlobal
        + Clock
        + Net<Listener = TcpListener, Stream = TcpStream>
        + Threads
        + Wait
        + Sync
        + RandomSource
        + Eprint,
> Host for R {}
