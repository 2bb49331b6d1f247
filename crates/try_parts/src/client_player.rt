//! A client.
//!
//! | Call | Answer |
//! |---|---|
//! | `line` | `ok`; a line with nothing to read, to which the next calls belong |
//! | `input TIMES HEX` | `ok`; reads give these bytes too, so many times |
//! | `pieces LEN`, `interrupted TIMES`, `fails_after READS`, `closed` | `ok`; reads give so many bytes at most, so many are interrupted at first, so many succeed, writes fail |
//! | `client ID` | `ok`; a client over this line |
//! | `config`, `header`, `get` | the bytes or the text, or the fault |
//! | `start`, `stop` | `ok`, or the fault |
//! | `quit` | `ok` or the fault, and what was written |
//!
//! Bytes are in hexadecimal. What is none of these, or what cannot be asked, is answered `no such call`.

use crate::line::Line;
use crate::told::{NO_CALL, done, hex_of};
use crate::words::stream_id;
use pdc_session::{ClientFault, Pdc};
use std::alloc::{AllocError, Global};
use try_script::Player;

/// A client that a script plays on, and the line for the next one.
#[derive(Drop)]
pub struct ClientPlayer {
    line: Line,
    client: Option<Pdc<Line>>,
}

/// The bytes, or why there are none.
fn told(alloc: Global, answer: Result<Vec<u8>, ClientFault>) -> Result<String, AllocError> {
    match answer {
        Ok(bytes) => hex_of(alloc, &bytes),
        Err(fault) => format!(in alloc; "{fault}"),
    }
}

/// Asks the client.
fn ask(client: &mut Pdc<Line>, alloc: Global, word: &str) -> Result<String, AllocError> {
    match word {
        "config" => told(alloc, client.get_config(alloc)),
        "header" => told(alloc, client.get_header(alloc)),
        "get" => told(alloc, client.get(alloc)),
        "start" => done(alloc, client.start()),
        _ => done(alloc, client.stop()),
    }
}

/// What ending a client is answered, and what was written.
fn quit_text(
    alloc: Global,
    answer: Result<(), ClientFault>,
    written: &[u8],
) -> Result<String, AllocError> {
    let answer = done(alloc, answer)?;
    let written = hex_of(alloc, written)?;
    format!(in alloc; "{answer} {written}")
}

impl ClientPlayer {
    /// With nothing to read, and no client yet.
    pub fn new(alloc: Global) -> ClientPlayer {
        ClientPlayer {
            line: Line::new(alloc),
            client: None,
        }
    }

    /// Adds what reads give.
    fn add_input(&mut self, alloc: Global, rest: &str) -> Result<&'static str, AllocError> {
        let (times, digits) = rest.split_once(' ').unwrap_or((rest, ""));
        let (Ok(times), Ok(bytes)) = (times.parse::<usize>(), hex::decode(alloc, digits)) else {
            return Ok(NO_CALL);
        };
        let bytes = bytes.repeat(alloc, times)?;
        self.line.input.extend_from_slice(&bytes)?;
        Ok("ok")
    }

    /// Sets how the line reads.
    fn set_line(&mut self, word: &str, number: &str) -> &'static str {
        let Ok(number) = number.parse::<u32>() else {
            return NO_CALL;
        };
        match word {
            "pieces" => self.line.piece = usize::try_from(number).unwrap_or(usize::MAX),
            "interrupted" => self.line.interruptions = number,
            _ => self.line.reads_left = Some(number),
        }
        "ok"
    }

    /// Begins a client over the line.
    fn begin(&mut self, alloc: Global, id: &str) -> Result<&'static str, AllocError> {
        match stream_id(id) {
            Some(id) => {
                let line = std::mem::replace(&mut self.line, Line::new(alloc));
                self.client = Some(Pdc::new(alloc, id, line)?);
                Ok("ok")
            }
            None => Ok(NO_CALL),
        }
    }

    /// Sets the line, or begins a client over it.
    fn set(&mut self, alloc: Global, word: &str, rest: &str) -> Result<&'static str, AllocError> {
        match word {
            "line" => {
                self.line = Line::new(alloc);
                Ok("ok")
            }
            "input" => self.add_input(alloc, rest),
            "pieces" | "interrupted" | "fails_after" => Ok(self.set_line(word, rest)),
            "closed" => {
                self.line.is_closed = true;
                Ok("ok")
            }
            "client" => self.begin(alloc, rest),
            _ => Ok(NO_CALL),
        }
    }

    /// Ends the client.
    fn quit(&mut self, alloc: Global) -> Result<String, AllocError> {
        let Some(client) = self.client.take() else {
            return NO_CALL.to_string(alloc);
        };
        let (line, answer) = client.quit();
        quit_text(alloc, answer, &line.written)
    }
}

impl Player for ClientPlayer {
    fn play(&mut self, alloc: Global, call: &str) -> Result<String, AllocError> {
        let (word, rest) = call.split_once(' ').unwrap_or((call, ""));
        match word {
            "config" | "header" | "get" | "start" | "stop" => match &mut self.client {
                Some(client) => ask(client, alloc, word),
                None => NO_CALL.to_string(alloc),
            },
            "quit" => self.quit(alloc),
            _ => self.set(alloc, word, rest)?.to_string(alloc),
        }
    }
}
