//! The calls that reserve room once.

use crate::trial::{DONE, State, Trial, made, make, of_memory};
use crate::vectors::STREAM;
use pdc_frame::Framer;
use pdc_session::{Frames, Session};
use std::alloc::{AllocError, Global};
use std::io;

/// Which call it is.
#[derive(Clone, Copy)]
enum Maker {
    Framer,
    Session,
    Frames,
}

/// All of them.
const MAKERS: [Maker; 3] = [Maker::Framer, Maker::Session, Maker::Frames];

/// A maker, and whether it made one.
#[derive(Drop)]
struct MakerTrial {
    alloc: Global,
    maker: Maker,
    is_made: bool,
}

/// Makes one, which is let go.
fn answer_of(alloc: Global, maker: Maker) -> &'static str {
    match maker {
        Maker::Framer => of_memory(Framer::new(alloc)),
        Maker::Session => of_memory(Session::new(alloc, STREAM)),
        Maker::Frames => of_memory(Frames::new(alloc)),
    }
}

impl Trial for MakerTrial {
    fn name(&self) -> &'static str {
        match self.maker {
            Maker::Framer => "Framer::new",
            Maker::Session => "Session::new",
            Maker::Frames => "Frames::new",
        }
    }

    fn state(&self) -> State {
        made(self.is_made)
    }

    fn call(&mut self) -> &'static str {
        let answer = answer_of(self.alloc, self.maker);
        self.is_made = answer == DONE;
        answer
    }

    fn renew(&mut self) -> Result<(), AllocError> {
        Ok(())
    }
}

/// Each of them.
pub fn play<R: Print>(rt: &R, alloc: Global) -> io::Result<()> {
    for maker in MAKERS {
        make(
            rt,
            &mut MakerTrial {
                alloc,
                maker,
                is_made: false,
            },
        )?;
    }
    Ok(())
}
