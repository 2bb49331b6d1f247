//! Cores whose lives scripts tell: nodes and the merger.
ghost use Rattle.std.specs.Prelude.{◌≡◌};

use crate::widest;
use pdc_core::{Core, Opens};
use pdc_life::{MergerSettings, Settings};
use pdc_merge::Merger;
use pdc_node::Node;
use pdc_table::Table;
use std::alloc::{AllocError, Global};
use try_script::{Told, told_merger, told_node};

/// The streams of the merger.
const NODES: usize = 2;

/// A core whose lives scripts tell.
pub trait Scripted: Opens {
    /// One at the start of its first life, as the words of a call tell it; none where they tell of none.
    ///
    /// # Errors
    ///
    /// [`AllocError`] where there is no room and none is got.
    fn opened(alloc: Global, words: &[&str]) -> Result<Option<Self>, AllocError>;

    /// How many streams arrive.
    fn streams(&self) -> usize
        ensures { result ≡ Self.Settings.streams (Self.settings_of self.now) };

    /// How many columns it aligns.
    fn columns(&self) -> usize;

    /// How often both nodes' blocks of a column differed at a closing, of the merger.
    fn disagree(&self) -> Option<u64>;
}

/// What a node is told.
fn node_told(alloc: Global, words: &[&str]) -> Result<Option<Told<Settings>>, AllocError> {
    match words {
        ["node", words @ ..] => Ok(told_node(words)),
        ["widest"] => widest::told(alloc),
        _ => Ok(None),
    }
}

impl<T: Table> Scripted for Node<T> {
    fn opened(alloc: Global, words: &[&str]) -> Result<Option<Self>, AllocError> {
        match node_told(alloc, words)? {
            Some(told) => Ok(Some(Node::open(alloc, told.settings, 1, 0, &told.counts, 0)?)),
            None => Ok(None),
        }
    }

    fn streams(&self) -> usize {
        self.settings().pmus.len()
    }

    fn columns(&self) -> usize {
        self.settings().pmus.len()
    }

    fn disagree(&self) -> Option<u64> {
        None
    }
}

/// What the merger is told.
fn merger_told(words: &[&str]) -> Option<Told<MergerSettings>> {
    match words {
        ["merger", words @ ..] => told_merger(words),
        _ => None,
    }
}

impl<T: Table> Scripted for Merger<T> {
    fn opened(alloc: Global, words: &[&str]) -> Result<Option<Self>, AllocError> {
        match merger_told(words) {
            Some(told) => Ok(Some(Merger::open(alloc, told.settings, 1, 0, &told.counts, 0)?)),
            None => Ok(None),
        }
    }

    fn streams(&self) -> usize {
        NODES
    }

    fn columns(&self) -> usize {
        self.settings().sources.len()
    }

    fn disagree(&self) -> Option<u64> {
        Some(self.disagree())
    }
}
