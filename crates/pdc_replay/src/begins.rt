//! Cores on which a record is played.
ghost use Rattle.std.specs.Prelude.{◌≡◌, ℕ, [], IfOk, List};
ghost use Rattle.pdc_life.specs.Given.{Given};

use pdc_core::{Core, Opens};
use pdc_merge::Merger;
use pdc_node::Node;
use pdc_record::Begun;
use pdc_settings::{MergerSettings, NodeSettings, SettingsFault};
use pdc_table::Table;
use std::alloc::{AllocError, Global};
use thiserror::Error;

/// The streams of the merger.
const NODES: usize = 2;

/// Why a life cannot be begun as a record says.
#[derive(Clone, Copy, Debug, PartialEq, Eq, Error)]
pub enum Unbegun {
    /// The text of its settings is none.
    #[error("{0}")]
    Settings(SettingsFault),
    /// Its settings have another id or rate than it says.
    #[error("its settings have another id or rate than it says")]
    OtherOwner,
    /// No memory was left.
    #[error("out of memory")]
    Memory,
}

impl From<AllocError> for Unbegun {
    fn from(_error: AllocError) -> Unbegun {
        Unbegun::Memory
    }
}

impl From<SettingsFault> for Unbegun {
    fn from(fault: SettingsFault) -> Unbegun {
        Unbegun::Settings(fault)
    }
}

/// A core on which a record is played.
pub trait Begins: Opens {
    // What is given to a life by the settings, and by a start, a floor, counts and what counts as now until the first tick.
    ghost begun_with: { Self.Settings → (start floor : ℕ) → (counts : List ℕ) → (now : ℕ) → Given };

    /// One at the start of the life that a record begins with, whose settings are this text.
    ///
    /// # Errors
    ///
    /// The text is no settings, or those of another id or rate, or there is no memory.
    fn begin(alloc: Global, begun: &Begun<'_>, text: &str) -> Result<Self, Unbegun>
        ensures stands { IfOk result (λ core. Self.stands_for core
            (begun_with (Self.settings_of core)
            begun.entry.now.start begun.entry.now.floor begun.entry.now.counts begun.entry.now.now)
            []) }
        ensures popped { IfOk result (λ core. Self.popped_of core ≡ begun.entry.now.floor) };

    /// How many streams arrive.
    fn streams(&self) -> usize
        ensures { result ≡ Self.Settings.streams (Self.settings_of self.now) };
}

impl<T: Table> Begins for Node<T> {
    ghost use Rattle.pdc_life.specs.CoreKind.{OfNode, given_of};

    ghost begun_with = { λ settings. given_of (OfNode settings) };

    fn begin(alloc: Global, begun: &Begun<'_>, text: &str) -> Result<Node<T>, Unbegun> {
        let settings = NodeSettings::from_toml(alloc, text)?.life;
        if settings.output.id.value != begun.id || settings.output.rate != begun.rate {
            return Err(Unbegun::OtherOwner);
        }
        let node = Node::open(
            alloc,
            settings,
            begun.start,
            begun.floor,
            &begun.counts,
            begun.now,
        )?;
        Ok(node)
    }

    fn streams(&self) -> usize {
        self.settings().pmus.len()
    }
}

impl<T: Table> Begins for Merger<T> {
    ghost use Rattle.pdc_life.specs.CoreKind.{OfMerger, given_of};

    ghost begun_with = { λ settings. given_of (OfMerger settings) };

    fn begin(alloc: Global, begun: &Begun<'_>, text: &str) -> Result<Merger<T>, Unbegun> {
        let settings = MergerSettings::from_toml(alloc, text)?.life;
        if settings.output.id.value != begun.id || settings.output.rate != begun.rate {
            return Err(Unbegun::OtherOwner);
        }
        let merger = Merger::open(
            alloc,
            settings,
            begun.start,
            begun.floor,
            &begun.counts,
            begun.now,
        )?;
        Ok(merger)
    }

    fn streams(&self) -> usize {
        NODES
    }
}
