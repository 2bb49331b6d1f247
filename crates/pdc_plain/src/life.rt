//! A life, and what it closed, published and lays out.
ghost use Rattle.std.specs.Prelude.{◌≡◌, ◌++◌, ◌*◌, ◌^◌, ◌<◌, IfOk, OnErr, OnOk, map};
ghost use Rattle.std.specs.List.{All};
ghost use Rattle.pdc_row.specs.RowView.{row_instants, row_view};
ghost use Rattle.pdc_row.specs.pdc_frame.declared.tag_limits.TheConstants.{SECONDS};
ghost use Rattle.pdc_life.specs.Answer.{waiting_counts};
ghost use Rattle.pdc_life.specs.Life.{changes, closed, popped};
ghost use Rattle.pdc_life.specs.Published.{layout_wire, published};
ghost use Rattle.pdc_plain_steps.specs.Views.{given_view, life_view};

use crate::publishing::{append_layout_of, closed, frames_of};
use pdc_life::MAX_PMUS;
use pdc_plain_steps::{Answered, Given, waiting_counts};
use pdc_row::DueRow;
use std::alloc::{AllocError, Global};

/// A life of a node or of the merger.
#[derive(Drop)]
pub struct Life<'a> {
    /// What was given to it.
    pub given: Given,
    /// Its steps with their answers, newest first.
    pub entries: Vec<Answered<'a>>,
    // Each row that a pop gave lies in a second that SOC can name,
    pub ghost tagged: { All (λ n. n < SECONDS * given.output.rate)
        (row_instants (popped (life_view entries.items))) },
    // and the change number has 32 bits.
    pub ghost changes_fit: { changes (life_view entries.items) < 2 ^ 32 },
}

impl Life<'_> {
    /// The rows that closed, the first to close first.
    ///
    /// # Errors
    ///
    /// [`AllocError`] where there is no room and none is got.
    pub fn rows(&self, alloc: Global) -> Result<Vec<DueRow>, AllocError>
        ensures { IfOk result (λ rows. map row_view rows.items ≡
            closed (life_view self.now.entries.items)) }
    {
        closed(alloc, &self.entries)
    }

    /// The frames that were published: those of the rows that pops gave, the first to be given first.
    ///
    /// # Errors
    ///
    /// [`AllocError`] where there is no room and none is got.
    pub fn published(&self, alloc: Global) -> Result<Vec<Vec<u8>>, AllocError>
        ensures { IfOk result (λ frames. map (λ frame. frame.items) frames.items ≡
            published (given_view self.now.given) (life_view self.now.entries.items)) }
    {
        frames_of(alloc, &self.given, &self.entries)
    }

    /// The counts that wait: for each column the greater of its cleared count and its held one; 0 past the last column.
    pub fn waiting(&self) -> [u16; MAX_PMUS]
        ensures { result ≡ waiting_counts (given_view self.now.given)
            (life_view self.now.entries.items) }
    {
        waiting_counts(&self.given, &self.entries)
    }

    /// Appends the configuration frame of the layout: the own section, and those in force. `soc` is the second that it is
    /// dated with.
    ///
    /// # Errors
    ///
    /// [`AllocError`] where there is no room and none is got; `out` is then unchanged.
    pub fn layout(&self, soc: u32, out: &mut Vec<u8>) -> Result<(), AllocError>
        ensures ok { OnOk result (out.new.items ≡ out.old.items ++
            layout_wire (given_view self.now.given) (life_view self.now.entries.items) soc) }
        ensures err { OnErr result (out.new.items ≡ out.old.items) }
    {
        append_layout_of(&self.given, &self.entries, soc, out)
    }
}
