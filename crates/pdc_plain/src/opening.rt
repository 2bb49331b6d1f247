//! What a life begins with, and so what is given to it.
ghost use Rattle.std.specs.Prelude.{◌≡◌};
ghost use Rattle.pdc_life.specs.CoreKind.{OfMerger, OfNode};
ghost use Rattle.pdc_plain_steps.specs.Views.{given_view};
ghost use Rattle.pdc_plain.specs.Views.{given_to};

use pdc_life::{MAX_PMUS, MergerSettings, Settings};
use pdc_plain_steps::Given;

/// What a life begins with, beside its settings.
#[derive(Clone, Copy, Debug)]
pub struct Opening {
    /// The number of the start.
    pub start: u32,
    /// The instant up to which all is published.
    pub floor: u64,
    /// For each column the count below which no section is held; 0 past the last column.
    pub counts: [u16; MAX_PMUS],
    /// What counts as now until the first tick.
    pub first_now: u64,
}

/// What is given to a life of a node.
pub fn given_to_node(settings: &Settings, opening: &Opening) -> Given
    ensures { given_view result ≡ given_to (OfNode settings.now) opening.now }
{
    Given {
        output: settings.output,
        wait: settings.timing.wait,
        wait_kind: settings.timing.wait_kind,
        window: settings.timing.window,
        ahead: settings.timing.ahead,
        columns: settings.pmus.len(),
        lanes: 1,
        start: opening.start,
        floor: opening.floor,
        counts: opening.counts,
        opening: opening.first_now,
    }
}

/// What is given to a life of the merger.
pub fn given_to_merger(settings: &MergerSettings, opening: &Opening) -> Given
    ensures { given_view result ≡ given_to (OfMerger settings.now) opening.now }
{
    Given {
        output: settings.output,
        wait: settings.timing.wait,
        wait_kind: settings.timing.wait_kind,
        window: settings.timing.window,
        ahead: settings.timing.ahead,
        columns: settings.sources.len(),
        lanes: 2,
        start: opening.start,
        floor: opening.floor,
        counts: opening.counts,
        opening: opening.first_now,
    }
}
