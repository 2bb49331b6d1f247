//! The lives of a node, one after the other.
ghost use Rattle.std.specs.Prelude.{◌≡◌};
ghost use Rattle.pdc_life.specs.CoreKind.{given_of, OfNode};

use crate::node::Node;
use arrayvec::ArrayVec;
use pdc_core::{Core, Opens};
use pdc_life::{MAX_PMUS, Settings};
use pdc_row::Output;
use pdc_table::Table;
use std::alloc::{AllocError, Global};

/// A copy of a node's settings, which takes no memory.
pub fn copy_of(settings: &Settings) -> Settings
    ensures { result ≡ settings.now }
{
    let mut pmus = ArrayVec::new();
    pmus.try_extend_from_slice(settings.pmus.as_slice())
        .unwrap();
    Settings {
        output: settings.output,
        timing: settings.timing,
        pmus,
    }
}

impl<T: Table> Opens for Node<T> {
    ghost given_with = { λ settings start floor counts. given_of (OfNode settings) start floor
        counts 0 };

    ghost output_of = { λ settings. settings.output };

    fn output(&self) -> Output {
        self.settings().output
    }

    fn open_first(
        alloc: Global,
        settings: Settings,
        start: u32,
        floor: u64,
        counts: &[u16; MAX_PMUS],
    ) -> Result<Node<T>, AllocError> {
        Node::open(alloc, settings, start, floor, counts, 0)
    }

    fn open_next(
        &self,
        alloc: Global,
        start: u32,
        floor: u64,
        counts: &[u16; MAX_PMUS],
    ) -> Result<Node<T>, AllocError> {
        Node::open(alloc, copy_of(self.settings()), start, floor, counts, 0)
    }
}
