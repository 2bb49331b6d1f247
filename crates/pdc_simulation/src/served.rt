//! A simulated PMU that waits to be asked.
ghost use Rattle.std.specs.Prelude.{◌≡◌, ◌≤◌, ◌<◌, length};
ghost use Rattle.pdc_frame.specs.declared.header.TheConstants.{MAX_TEXT};

use pdc_cfg::{ConfigView, read_config};
use pdc_frame::{StreamId, read_frame};
use pdc_session::{Serving, Session};
use std::alloc::Global;
use std::io;
use std::io::{ErrorKind, Read, Write};
use std::net::{TcpListener, TcpStream};

/// The text of its header.
const HEADER: &[u8] = b"simulated PMU";

/// The most bytes that are read in one turn.
const PIECE_LEN: usize = 1024;

/// The most consumers that are served at once.
const MAX_CONSUMERS: usize = 4;

/// Who is connected.
#[derive(Drop)]
struct Consumer {
    stream: TcpStream,
    session: Session,
}

/// A TCP port at which a few consumers are served. Nothing waits for them: one that does not read, or whose bytes are no frames, is let go.
#[derive(Drop)]
pub struct Served {
    alloc: Global,
    id: StreamId,
    listener: TcpListener,
    consumers: Vec<Consumer>,
}

/// Whether nothing is there now.
fn is_idle(kind: ErrorKind) -> bool {
    matches!(
        kind,
        ErrorKind::WouldBlock | ErrorKind::TimedOut | ErrorKind::Interrupted
    )
}

/// The configuration in the bytes of a CFG-2 frame.
fn layout_of(config: &[u8]) -> Option<ConfigView<'_>> {
    let frame = read_frame(config).ok()?;
    read_config(&frame).ok()
}

/// Takes in what the consumer sends, and writes the replies. Answers whether it is still there.
fn hear(alloc: Global, consumer: &mut Consumer, soc: u32, config: &[u8]) -> bool {
    let mut piece = [0u8; PIECE_LEN];
    let count = match consumer.stream.read(&mut piece) {
        Ok(0) => return false,
        Ok(count) => count,
        Err(error) => return is_idle(error.kind()),
    };
    let Some(layout) = layout_of(config) else {
        return false;
    };
    let serving = Serving {
        soc,
        header: HEADER,
        layout,
    };
    let mut out = Vec::new(alloc);
    let heard = consumer.session.feed(&piece[..count], &serving, &mut out);
    heard.is_ok() && consumer.stream.write_all(&out).is_ok()
}

/// Sends the bytes to the consumer, where it wants data. Answers whether it is still there.
fn send(consumer: &mut Consumer, bytes: &[u8]) -> bool {
    !consumer.session.on() || consumer.stream.write_all(bytes).is_ok()
}

impl Served {
    /// Nobody is connected yet.
    pub fn new(alloc: Global, id: StreamId, listener: TcpListener) -> Served {
        Served {
            alloc,
            id,
            listener,
            consumers: Vec::new(alloc),
        }
    }

    /// Whoever waits to be served.
    fn accept(&self) -> io::Result<TcpStream> {
        let (stream, _) = self.listener.accept()?;
        stream.set_nonblocking(true)?;
        stream.set_nodelay(true)?;
        Ok(stream)
    }

    /// Takes in who connects, where there is room.
    fn take_in(&mut self) {
        if self.consumers.len() >= MAX_CONSUMERS {
            return;
        }
        if let Ok(stream) = self.accept() {
            if let Ok(session) = Session::new(self.alloc, self.id) {
                let _kept = self.consumers.push(Consumer { stream, session });
            }
        }
    }

    /// Takes in who connects, and answers the commands that came, dated with this second, by this configuration frame.
    pub fn hear(&mut self, soc: u32, config: &[u8]) {
        self.take_in();
        let alloc = self.alloc;
        self.consumers
            .retain_mut(|consumer| hear(alloc, consumer, soc, config));
    }

    /// Sends the bytes to each consumer that wants data.
    pub fn send(&mut self, bytes: &[u8]) {
        self.consumers.retain_mut(|consumer| send(consumer, bytes));
    }
}
