//! The lives that scripts tell, as records begin with them.

use arrayvec::ArrayVec;
use pdc_core::Core;
use pdc_life::{MAX_PMUS, Timing, WaitKind};
use pdc_merge::Merger;
use pdc_node::Node;
use pdc_record::Role;
use pdc_replay::Begins;
use pdc_table::Table;
use std::alloc::{AllocError, Global};
use try_script::{SettingsText, told_merger, told_node};

/// What a life begins with.
#[derive(Drop)]
pub struct Beginning {
    /// The id of its frames.
    pub id: u16,
    /// The text of its settings.
    pub text: String,
    /// The opening counts.
    pub counts: [u16; MAX_PMUS],
}

/// A core whose life is recorded.
pub trait Lives: Begins {
    /// Whose life it is.
    fn role() -> Role;

    /// The id of its frames, where nothing else is told.
    fn id() -> u16;

    /// How many columns it aligns.
    fn columns(&self) -> usize;

    /// What the words of a call tell of a life with this id; none where they tell of none.
    ///
    /// # Errors
    ///
    /// [`AllocError`] where there is no room and none is got.
    fn beginning(alloc: Global, id: u16, words: &[&str]) -> Result<Option<Beginning>, AllocError>;
}

/// What the settings of a life with this timing say.
fn said_of<'a>(id: u16, timing: &Timing) -> SettingsText<'a> {
    SettingsText {
        wait: timing.wait,
        wait_kind: match timing.wait_kind {
            WaitKind::Absolute => "absolute",
            WaitKind::Relative => "relative",
        },
        window: timing.window,
        layout_every: 50,
        ..SettingsText::of(id)
    }
}

impl<T: Table> Lives for Node<T> {
    fn role() -> Role {
        Role::Node
    }

    fn id() -> u16 {
        201
    }

    fn columns(&self) -> usize {
        self.settings().pmus.len()
    }

    fn beginning(alloc: Global, id: u16, words: &[&str]) -> Result<Option<Beginning>, AllocError> {
        let ["node", words @ ..] = words else {
            return Ok(None);
        };
        let Some(told) = told_node(words) else {
            return Ok(None);
        };
        let mut pmus = ArrayVec::<u16, MAX_PMUS>::new();
        for each in told.settings.pmus.as_slice() {
            let _full = pmus.try_push(each.stream.value);
        }
        let text = said_of(id, &told.settings.timing).node(alloc, &pmus, 4811)?;
        Ok(Some(Beginning {
            id,
            text,
            counts: told.counts,
        }))
    }
}

impl<T: Table> Lives for Merger<T> {
    fn role() -> Role {
        Role::Merger
    }

    fn id() -> u16 {
        301
    }

    fn columns(&self) -> usize {
        self.settings().sources.len()
    }

    fn beginning(alloc: Global, id: u16, words: &[&str]) -> Result<Option<Beginning>, AllocError> {
        let ["merger", words @ ..] = words else {
            return Ok(None);
        };
        let Some(told) = told_merger(words) else {
            return Ok(None);
        };
        let text = said_of(id, &told.settings.timing).merger(alloc, &[11, 12])?;
        Ok(Some(Beginning {
            id,
            text,
            counts: told.counts,
        }))
    }
}
