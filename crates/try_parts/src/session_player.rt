//! A session.
//!
//! | Call | Answer |
//! |---|---|
//! | `serve SOC TEXT` | `ok`; replies are dated with this second, and this is the text of the header |
//! | `layout HEX` | `ok`; the configuration of this frame is what replies tell |
//! | `session ID` | `ok`; the calls below go to this session |
//! | `feed HEX`, `feed_bytes HEX` | the replies, `nothing` or the fault; the second feeds byte by byte |
//! | `feed_in_100 HEX` | the same into 100 bytes of room: the replies, and the fault behind them |
//! | `on`, `ignored` | whether data is on, how many frames were ignored |
//!
//! Frames are in hexadecimal. What is none of these, or what cannot be asked, is answered `no such call`.

use crate::told::{NO_CALL, hex_of};
use crate::words::stream_id;
use arrayvec::ArrayVec;
use pdc_cfg::read_config;
use pdc_frame::{Buffer, MAX_TEXT, read_frame};
use pdc_session::{Serving, Session, SessionFault};
use std::alloc::{AllocError, Global};
use try_script::Player;

/// A session that a script plays on, and what its replies are made of.
#[derive(Drop)]
pub struct SessionPlayer {
    soc: u32,
    header: Vec<u8>,
    layout: Vec<u8>,
    session: Option<Session>,
}

impl SessionPlayer {
    /// With no session yet.
    pub fn new(alloc: Global) -> SessionPlayer {
        SessionPlayer {
            soc: 0,
            header: Vec::new(alloc),
            layout: Vec::new(alloc),
            session: None,
        }
    }

    /// Tells what replies are made of.
    fn serve(&mut self, alloc: Global, rest: &str) -> Result<&'static str, AllocError> {
        let (soc, text) = rest.split_once(' ').unwrap_or((rest, ""));
        let Ok(soc) = soc.parse::<u32>() else {
            return Ok(NO_CALL);
        };
        self.soc = soc;
        self.header = Vec::from_slice(alloc, text.as_bytes())?;
        Ok("ok")
    }

    /// Takes the configuration of a frame as the one that replies tell.
    fn keep_layout(&mut self, alloc: Global, digits: &str) -> &'static str {
        let Ok(bytes) = hex::decode(alloc, digits) else {
            return NO_CALL;
        };
        self.layout = bytes;
        "ok"
    }

    /// Begins another session.
    fn begin(&mut self, alloc: Global, id: &str) -> Result<&'static str, AllocError> {
        match stream_id(id) {
            Some(id) => {
                self.session = Some(Session::new(alloc, id)?);
                Ok("ok")
            }
            None => Ok(NO_CALL),
        }
    }

    /// Feeds one piece.
    fn feed<B: Buffer>(&mut self, piece: &[u8], out: &mut B) -> Option<Result<(), SessionFault>> {
        let Some(session) = &mut self.session else {
            return None;
        };
        let Ok(frame) = read_frame(&self.layout) else {
            return None;
        };
        let Ok(layout) = read_config(&frame) else {
            return None;
        };
        let header = self.header.as_slice();
        if header.len() > MAX_TEXT {
            return None;
        }
        let serving = Serving {
            soc: self.soc,
            header,
            layout,
        };
        Some(session.feed(piece, &serving, out))
    }

    /// Feeds bytes in pieces of so many, and tells the replies, or the fault.
    fn feed_in(&mut self, alloc: Global, digits: &str, piece: usize) -> Result<String, AllocError> {
        let Ok(bytes) = hex::decode(alloc, digits) else {
            return NO_CALL.to_string(alloc);
        };
        let mut out = Vec::new(alloc);
        for part in bytes.as_slice().chunks(piece.max(1)) {
            match self.feed(part, &mut out) {
                Some(Ok(())) => {}
                Some(Err(fault)) => return format!(in alloc; "{fault}"),
                None => return NO_CALL.to_string(alloc),
            }
        }
        hex_of(alloc, &out)
    }

    /// Feeds bytes at once, with room for 100 bytes of replies.
    fn feed_in_100(&mut self, alloc: Global, digits: &str) -> Result<String, AllocError> {
        let Ok(bytes) = hex::decode(alloc, digits) else {
            return NO_CALL.to_string(alloc);
        };
        let mut out: ArrayVec<u8, 100> = ArrayVec::new();
        let answer = self.feed(&bytes, &mut out);
        let replies = hex_of(alloc, out.as_slice())?;
        match answer {
            Some(Ok(())) => Ok(replies),
            Some(Err(fault)) => format!(in alloc; "{replies} {fault}"),
            None => NO_CALL.to_string(alloc),
        }
    }

    /// Whether data is on.
    fn on(&self) -> &'static str {
        match &self.session {
            Some(session) if session.on() => "true",
            Some(_) => "false",
            None => NO_CALL,
        }
    }

    /// Sets what replies are made of, begins a session, or tells whether data is on.
    fn set(&mut self, alloc: Global, word: &str, rest: &str) -> Result<&'static str, AllocError> {
        match word {
            "serve" => self.serve(alloc, rest),
            "layout" => Ok(self.keep_layout(alloc, rest)),
            "session" => self.begin(alloc, rest),
            "on" => Ok(self.on()),
            _ => Ok(NO_CALL),
        }
    }

    /// How many frames were ignored.
    fn ignored(&self, alloc: Global) -> Result<String, AllocError> {
        match &self.session {
            Some(session) => session.ignored().to_string(alloc),
            None => NO_CALL.to_string(alloc),
        }
    }
}

impl Player for SessionPlayer {
    fn play(&mut self, alloc: Global, call: &str) -> Result<String, AllocError> {
        let (word, rest) = call.split_once(' ').unwrap_or((call, ""));
        match word {
            "feed" => self.feed_in(alloc, rest, usize::MAX),
            "feed_bytes" => self.feed_in(alloc, rest, 1),
            "feed_in_100" => self.feed_in_100(alloc, rest),
            "ignored" => self.ignored(alloc),
            _ => self.set(alloc, word, rest)?.to_string(alloc),
        }
    }
}
