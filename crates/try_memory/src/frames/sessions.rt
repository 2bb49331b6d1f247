//! Sessions that are asked for a header, and for a header and a configuration in one piece.

use crate::frames::answers::of_session;
use crate::trial::{NO_CALL, State, Trial, make, state_of};
use crate::vectors::{BEFORE, CONFIG_11, SOC, STREAM, TEXT};
use pdc_cfg::read_config;
use pdc_frame::{Command, read_frame, write_command};
use pdc_session::{Serving, Session};
use std::alloc::{AllocError, Global};
use std::io;

/// A session, the piece that it is fed, and the replies behind what stood.
#[derive(Drop)]
struct SessionTrial {
    alloc: Global,
    name: &'static str,
    piece: Vec<u8>,
    session: Session,
    out: Vec<u8>,
}

impl SessionTrial {
    /// With a new session, three bytes, and nothing to feed.
    fn new(alloc: Global, name: &'static str) -> Result<SessionTrial, AllocError> {
        Ok(SessionTrial {
            alloc,
            name,
            piece: Vec::new(alloc),
            session: Session::new(alloc, STREAM)?,
            out: Vec::from_slice(alloc, &BEFORE)?,
        })
    }

    /// Adds a command to the piece.
    fn tell(&mut self, command: Command) -> Result<(), AllocError> {
        write_command(STREAM, SOC, command, &mut self.piece)
    }
}

impl Trial for SessionTrial {
    fn name(&self) -> &'static str {
        self.name
    }

    fn state(&self) -> State {
        state_of(&self.out, u64::from(self.session.on()))
    }

    fn call(&mut self) -> &'static str {
        let Ok(frame) = read_frame(&CONFIG_11) else {
            return NO_CALL;
        };
        let Ok(layout) = read_config(&frame) else {
            return NO_CALL;
        };
        let serving = Serving {
            soc: SOC,
            header: &TEXT,
            layout,
        };
        of_session(self.session.feed(&self.piece, &serving, &mut self.out))
    }

    fn renew(&mut self) -> Result<(), AllocError> {
        self.session = Session::new(self.alloc, STREAM)?;
        self.out = Vec::from_slice(self.alloc, &BEFORE)?;
        Ok(())
    }
}

/// These commands in one piece.
fn play_commands<R: Print>(
    rt: &R,
    alloc: Global,
    name: &'static str,
    commands: &[Command],
) -> io::Result<()> {
    let mut trial = SessionTrial::new(alloc, name)?;
    for command in commands {
        trial.tell(*command)?;
    }
    make(rt, &mut trial)
}

/// One command, and three in one piece.
pub fn play<R: Print>(rt: &R, alloc: Global) -> io::Result<()> {
    play_commands(rt, alloc, "Session::feed", &[Command::SendHeader])?;
    play_commands(
        rt,
        alloc,
        "Session::feed of three",
        &[Command::SendHeader, Command::SendCfg2, Command::DataOn],
    )
}
