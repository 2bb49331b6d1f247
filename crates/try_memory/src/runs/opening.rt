//! A world that is made.

use crate::runs::settings::{Given, told};
use crate::trial::{DONE, NO_CALL, State, Trial, made, make};
use std::alloc::{AllocError, Global};
use std::io;

/// What the next world is made of, and whether one was made.
#[derive(Drop)]
struct WorldTrial {
    alloc: Global,
    given: Option<Given>,
    next: Option<Given>,
    is_made: bool,
}

impl WorldTrial {
    /// Makes a world, and lets it go.
    fn open(&mut self, given: Given) -> &'static str {
        match given.world(self.alloc) {
            Ok(_) => {
                self.is_made = true;
                DONE
            }
            Err(fault) => told(fault),
        }
    }
}

impl Trial for WorldTrial {
    fn name(&self) -> &'static str {
        "World::new"
    }

    fn state(&self) -> State {
        made(self.is_made)
    }

    fn call(&mut self) -> &'static str {
        let given = self.given.take();
        self.given = self.next.take();
        match given {
            Some(given) => self.open(given),
            None => NO_CALL,
        }
    }

    fn renew(&mut self) -> Result<(), AllocError> {
        Ok(())
    }
}

/// A world, and a second one where the first was refused.
pub fn play<R: Print>(rt: &R, alloc: Global) -> io::Result<()> {
    let mut trial = WorldTrial {
        alloc,
        given: Some(Given::new(alloc)?),
        next: Some(Given::new(alloc)?),
        is_made: false,
    };
    make(rt, &mut trial)
}
