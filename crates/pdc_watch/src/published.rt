//! What a node published lately.
ghost use Rattle.std.specs.Prelude.{◌≡◌, ◌≤◌, ◌↔◌, All, Contains, IfNone, IfSome, IsTrue, length};
ghost use Rattle.pdc_watch.specs.Agreement.{AllAgree};
ghost use Rattle.pdc_watch.specs.declared.published.TheConstants.{MOST_FRAMES};

use crate::present::{PresentBlock, all_agree};
use std::alloc::{AllocError, Global};
use std::marker::Model;

/// How many frames wait at most for the other node's: five seconds at 100 frames a second.
pub const MOST_FRAMES: usize = 512;

/// The present blocks of a published frame.
#[derive(Drop)]
pub struct PublishedFrame {
    /// The frame's instant.
    pub instant: u64,
    /// Its present blocks.
    pub blocks: Vec<PresentBlock>,
}

impl PublishedFrame {
    /// Whether all blocks that are present in both, of one PMU and under one count, have the same words.
    pub fn agrees(&self, other: &PublishedFrame) -> bool
        ensures { IsTrue result ↔ AllAgree self.now.blocks.items other.now.blocks.items }
    {
        all_agree(self.blocks.as_slice(), other.blocks.as_slice())
    }
}

/// The frames of a node to which the other node has published none yet, the oldest first.
#[derive(Drop)]
pub struct Published {
    frames: Vec<PublishedFrame>,
}

impl Model for Published {
    ghost use Rattle.std.specs.Prelude.{◌≤◌, List, length};
    ghost use Rattle.pdc_watch.specs.declared.published.PublishedFrame.{PublishedFrame as FrameData};
    ghost use Rattle.pdc_watch.specs.declared.published.TheConstants.{MOST_FRAMES};

    ghost Value = { List FrameData };

    ghost view = { λ p. p.frames.items };

    ghost invariant = { λ p. length p.frames.items ≤ MOST_FRAMES };
}

impl Published {
    /// None yet.
    pub fn new(alloc: Global) -> Published {
        Published {
            frames: Vec::new(alloc),
        }
    }

    /// Keeps a frame; the oldest of 512 goes.
    ///
    /// # Errors
    ///
    /// [`AllocError`] where there is no memory for it.
    pub fn keep(&mut self, frame: PublishedFrame) -> Result<(), AllocError>
        ensures { length self.new ≤ MOST_FRAMES }
    {
        if self.frames.len() >= MOST_FRAMES {
            self.frames.remove(0);
        }
        self.frames.push(frame)?;
        Ok(())
    }

    /// Takes out the frame of this instant, if there is one.
    pub fn take(&mut self, instant: u64) -> Option<PublishedFrame>
        ensures some { IfSome result (λ frame. Contains self.old frame
            × (frame.instant ≡ instant)) }
        ensures none { IfNone result (All (λ frame. frame.instant ≡ instant → ⊥) self.old) }
        ensures size { length self.new ≤ length self.old }
    {
        let place = self
            .frames
            .iter()
            .position(|frame| frame.instant == instant)?;
        Some(self.frames.remove(place))
    }
}
