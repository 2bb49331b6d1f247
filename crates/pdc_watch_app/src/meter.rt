//! The counters of the concentrators.

use crate::loading::Session;
use crate::reader::connect;
use pdc_watch::{Lateness, Three, Watch, Who};
use std::alloc::Global;
use std::io::{ErrorKind, Read, Write};
use std::net::{Ipv4Addr, Net, SocketAddr, TcpListener, TcpStream};
use std::rt::Clock;
use std::sync::atomic::{AtomicBool, Ordering};
use std::sync::{Mutex, Wait};
use std::time::Duration;
use std::{io, thread};

/// How often the counters are read, in milliseconds.
const PERIOD: u64 = 5000;

/// How many bytes a read takes at most, and how many reads of an answer there are: it has at most 4 MiB.
const PIECE: usize = 4096;

const READS: u32 = 1024;

/// How many reads of an answer may bring nothing, each for as long as a read waits.
const IDLE: u32 = 40;

/// What reads the counters of the concentrators that serve them on this machine.
#[derive(Drop)]
pub struct Meter<'a, R: Net<Listener = TcpListener, Stream = TcpStream> + Clock + Wait> {
    pub rt: &'a R,
    pub alloc: Global,
    pub pair: &'a Three<Session>,
    pub watch: &'a Mutex<Watch>,
    pub ending: &'a AtomicBool,
}

/// Reads until no more comes.
fn read_all<S: Read>(alloc: Global, stream: &mut S) -> io::Result<Vec<u8>> {
    let mut answer = Vec::new(alloc);
    let mut piece = [0u8; PIECE];
    let mut idle = 0u32;
    for _ in 0..READS {
        match stream.read(&mut piece) {
            Ok(0) => return Ok(answer),
            Ok(len) => answer.extend_from_slice(piece.get(..len).unwrap_or(&[]))?,
            Err(error) if error.kind() == ErrorKind::WouldBlock => idle = idle.saturating_add(1),
            Err(error) => return Err(error),
        }
        if idle > IDLE {
            break;
        }
    }
    Err(ErrorKind::TimedOut.into())
}

impl<'a, R: Net<Listener = TcpListener, Stream = TcpStream> + Clock + Wait> Meter<'a, R> {
    /// The answer to a request for the counters at this port.
    fn ask(&self, port: u16) -> io::Result<Vec<u8>> {
        let to = SocketAddr::new(Ipv4Addr::LOCALHOST.into(), port);
        let mut stream = connect(self.rt, &to)?;
        let request = format!(in self.alloc;
            "GET /metrics HTTP/1.0\r\nHost: 127.0.0.1:{port}\r\n\r\n"
        )?;
        stream.write_all(request.as_bytes())?;
        read_all(self.alloc, &mut stream)
    }

    /// What a concentrator counts that serves its counters at this port.
    fn lateness(&self, port: u16) -> Option<Lateness> {
        let answer = self.ask(port).ok()?;
        let text = String::from_utf8(answer).ok()?;
        Lateness::of_text(&text)
    }

    /// Reads the counters of one of them, where it serves them.
    fn read_one(&self, who: Who) {
        let Some(port) = self.pair.of(who).metrics else {
            return;
        };
        let reading = self.lateness(port);
        let _kept = self.watch.lock(self.rt).meter(who, reading.as_ref());
    }

    /// Reads the counters of all until all is to end.
    pub fn read(&self) {
        for _ in self.rt.forever() {
            if self.ending.load(Ordering::SeqCst) {
                return;
            }
            for who in [Who::A, Who::B, Who::M] {
                self.read_one(who);
            }
            thread::sleep(self.rt, Duration::from_millis(PERIOD));
        }
        unreachable!()
    }
}
