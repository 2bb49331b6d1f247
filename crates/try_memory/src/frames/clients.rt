//! Clients over a line in memory.

use crate::frames::answers::of_client;
use crate::frames::line::Line;
use crate::trial::{DONE, State, Trial, make, of_memory, state_of};
use crate::vectors::STREAM;
use pdc_session::Pdc;
use std::alloc::{AllocError, Global};
use std::io;

/// What is asked.
#[derive(Clone, Copy)]
enum Asked {
    New,
    Config,
    Header,
    Data,
}

/// All of it.
const ALL: [Asked; 4] = [Asked::New, Asked::Config, Asked::Header, Asked::Data];

/// A client over a line that gives a configuration, a header and data, and its last answer.
#[derive(Drop)]
struct ClientTrial {
    alloc: Global,
    asked: Asked,
    client: Pdc<Line>,
    answer: Vec<u8>,
}

impl ClientTrial {
    /// Keeps the client's answer.
    fn keep(&mut self, bytes: Vec<u8>) -> &'static str {
        self.answer = bytes;
        DONE
    }
}

impl Trial for ClientTrial {
    fn name(&self) -> &'static str {
        match self.asked {
            Asked::New => "Pdc::new",
            Asked::Config => "Pdc::get_config",
            Asked::Header => "Pdc::get_header",
            Asked::Data => "Pdc::get",
        }
    }

    fn state(&self) -> State {
        state_of(&self.answer, 0)
    }

    fn call(&mut self) -> &'static str {
        let answer = match self.asked {
            Asked::New => return of_memory(Pdc::new(self.alloc, STREAM, Line::new())),
            Asked::Config => self.client.get_config(self.alloc),
            Asked::Header => self.client.get_header(self.alloc),
            Asked::Data => self.client.get(self.alloc),
        };
        match answer {
            Ok(bytes) => self.keep(bytes),
            Err(fault) => of_client(fault),
        }
    }

    fn renew(&mut self) -> Result<(), AllocError> {
        self.client = Pdc::new(self.alloc, STREAM, Line::new())?;
        Ok(())
    }
}

/// A client is made, and clients are asked.
pub fn play<R: Print>(rt: &R, alloc: Global) -> io::Result<()> {
    for asked in ALL {
        let mut trial = ClientTrial {
            alloc,
            asked,
            client: Pdc::new(alloc, STREAM, Line::new())?,
            answer: Vec::new(alloc),
        };
        make(rt, &mut trial)?;
    }
    Ok(())
}
