//! Rows, which go round between the aligner and the sender: their memory is that of the frames that go out.
ghost use Rattle.std.specs.Prelude.{OnErr};
ghost use Rattle.pdc_memory.specs.Asking.{SomeWasRefused};

use crate::pipe::CAPACITY;
use crossbeam_channel::{Receiver, Sender, bounded};
use pdc_life::DueRow;
use pdc_memory::HeldBox;
use std::alloc::{AllocError, Global};
use std::sync::Wait;

/// How many rows go round: as many as the channel holds, and one in each hand. So there is always one to be taken.
pub const SPARES: usize = CAPACITY + 2;

/// Where the aligner takes the row that the next one is popped into.
#[derive(Drop)]
pub struct Spares {
    from: Receiver<HeldBox<DueRow>>,
}

/// Where the sender gives a row back once it was handed on.
#[derive(Drop)]
pub struct Returns {
    to: Sender<HeldBox<DueRow>>,
}

/// The channel on which rows come back, with none in it.
///
/// # Errors
///
/// [`AllocError`] where there is no memory for it.
pub fn spare_channel(alloc: Global) -> Result<(Spares, Returns), AllocError> {
    let (to, from) = bounded(alloc, SPARES)?;
    Ok((Spares { from }, Returns { to }))
}

impl Spares {
    /// Takes a row. None where none is there and the sender is gone.
    pub fn take<R: Wait>(&self, rt: &R) -> Option<HeldBox<DueRow>> {
        self.from.recv(rt).ok()
    }
}

impl Returns {
    /// Gives a row back. Where there is no place for it, it goes.
    pub fn give<R: Wait>(&self, rt: &R, row: HeldBox<DueRow>) {
        let _gone = self.to.try_send(rt, row);
    }

    /// Makes all the rows, and gives them.
    ///
    /// # Errors
    ///
    /// [`AllocError`] where a request for the memory of one was refused.
    pub fn fill<R: Wait>(&self, rt: &R, alloc: Global) -> Result<(), AllocError>
        ensures { OnErr result SomeWasRefused }
    {
        for _ in 0..SPARES {
            self.give(rt, HeldBox::new(alloc, DueRow::blank())?);
        }
        Ok(())
    }
}
