//! Cores at the start of a life.

use crate::cores::settings::{of_merger, of_node};
use crate::trial::{DONE, State, Trial, made, make, of_memory};
use pdc_life::{MAX_PMUS, MergerSettings, Settings};
use pdc_merge::{Merger, copy_of_merger};
use pdc_node::{Node, copy_of};
use pdc_table::RingTable;
use std::alloc::{AllocError, Global};
use std::io;

/// A core that is opened, and whether it was.
#[derive(Drop)]
struct OpenTrial {
    alloc: Global,
    is_merger: bool,
    node: Settings,
    merger: MergerSettings,
    is_made: bool,
}

/// Opens a node, and lets it go.
fn open_node(alloc: Global, settings: &Settings) -> &'static str {
    let counts = [0; MAX_PMUS];
    of_memory(Node::<RingTable>::open(alloc, copy_of(settings), 1, 0, &counts, 0))
}

/// Opens a merger, and lets it go.
fn open_merger(alloc: Global, settings: &MergerSettings) -> &'static str {
    let counts = [0; MAX_PMUS];
    of_memory(Merger::<RingTable>::open(alloc, copy_of_merger(settings), 1, 0, &counts, 0))
}

impl Trial for OpenTrial {
    fn name(&self) -> &'static str {
        if self.is_merger {
            "Merger::open"
        } else {
            "Node::open"
        }
    }

    fn state(&self) -> State {
        made(self.is_made)
    }

    fn call(&mut self) -> &'static str {
        let answer = if self.is_merger {
            open_merger(self.alloc, &self.merger)
        } else {
            open_node(self.alloc, &self.node)
        };
        self.is_made = answer == DONE;
        answer
    }

    fn renew(&mut self) -> Result<(), AllocError> {
        Ok(())
    }
}

/// A node, and a merger.
pub fn play<R: Print>(rt: &R, alloc: Global) -> io::Result<()> {
    let mut trial = OpenTrial {
        alloc,
        is_merger: false,
        node: of_node(alloc)?,
        merger: of_merger(alloc)?,
        is_made: false,
    };
    make(rt, &mut trial)?;
    trial.is_merger = true;
    trial.is_made = false;
    make(rt, &mut trial)
}
