//! The layout frames of cores.

use crate::cores::settings::{of_merger, of_node};
use crate::trial::{State, Trial, make, of_memory, state_of};
use crate::vectors::{BEFORE, SOC};
use pdc_life::MAX_PMUS;
use pdc_merge::Merger;
use pdc_node::{Core, Node};
use pdc_table::RingTable;
use std::alloc::{AllocError, Global};
use std::io;

/// A core at the start of its life, and what its layout is appended to.
#[derive(Drop)]
struct LayoutTrial<C: Core + Drop> {
    name: &'static str,
    core: C,
    out: Vec<u8>,
}

impl<C: Core + Drop> Trial for LayoutTrial<C> {
    fn name(&self) -> &'static str {
        self.name
    }

    fn state(&self) -> State {
        state_of(&self.out, self.core.counts().taken)
    }

    fn call(&mut self) -> &'static str {
        of_memory(self.core.layout_frame(SOC, &mut self.out))
    }

    fn renew(&mut self) -> Result<(), AllocError> {
        Ok(())
    }
}

/// The layout of this core, behind three bytes.
fn play_core<C: Core + Drop, R: Print>(
    rt: &R,
    alloc: Global,
    name: &'static str,
    core: C,
) -> io::Result<()> {
    let out = Vec::from_slice(alloc, &BEFORE)?;
    make(rt, &mut LayoutTrial { name, core, out })
}

/// The layouts of a node and of a merger that adopted nothing yet.
pub fn play<R: Print>(rt: &R, alloc: Global) -> io::Result<()> {
    let counts = [0; MAX_PMUS];
    let node = Node::<RingTable>::open(alloc, of_node(alloc)?, 1, 0, &counts, 0)?;
    play_core(rt, alloc, "Node::layout_frame", node)?;
    let merger = Merger::<RingTable>::open(alloc, of_merger(alloc)?, 1, 0, &counts, 0)?;
    play_core(rt, alloc, "Merger::layout_frame", merger)
}
