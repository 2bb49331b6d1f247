//! Texts with places for what a block says.

use crate::field::Field;
use crate::scaled::append_count;
use pdc_block::{Block, is_absent};
use std::alloc::{AllocError, Global};
use std::mem;

/// A text, and what stands behind it.
#[derive(Drop)]
struct Step {
    text: Vec<u8>,
    field: Field,
}

/// A text with places for what a block says. It is made once for each section of a configuration, and filled for each block.
#[derive(Drop)]
pub struct Template {
    alloc: Global,
    steps: Vec<Step>,
    /// What stands behind the last step.
    end: Vec<u8>,
    /// What stands in the place of a value that is absent.
    absent: &'static str,
}

impl Template {
    /// No text.
    pub fn new(alloc: Global, absent: &'static str) -> Template {
        Template {
            alloc,
            steps: Vec::new(alloc),
            end: Vec::new(alloc),
            absent,
        }
    }

    /// Adds a text.
    ///
    /// # Errors
    ///
    /// [`AllocError`] where there is no room and none is got.
    pub fn text(&mut self, text: &[u8]) -> Result<(), AllocError> {
        self.end.extend_from_slice(text)
    }

    /// Adds a whole number.
    ///
    /// # Errors
    ///
    /// [`AllocError`] where there is no room and none is got.
    pub fn count(&mut self, count: u64) -> Result<(), AllocError> {
        append_count(count, &mut self.end)
    }

    /// Adds a place.
    ///
    /// # Errors
    ///
    /// [`AllocError`] where there is no room and none is got.
    pub fn place(&mut self, field: Field) -> Result<(), AllocError> {
        let text = mem::replace(&mut self.end, Vec::new(self.alloc));
        self.steps
            .push(Step { text, field })
            .map_err(|_| AllocError)
    }

    /// Adds places, each behind its text.
    ///
    /// # Errors
    ///
    /// [`AllocError`] where there is no room and none is got.
    pub fn places(&mut self, steps: &[(&str, Field)]) -> Result<(), AllocError> {
        for (text, field) in steps {
            self.text(text.as_bytes())?;
            self.place(*field)?;
        }
        Ok(())
    }

    /// Appends the text, with what the block says in the places.
    ///
    /// # Errors
    ///
    /// [`AllocError`] where there is no room and none is got.
    pub fn append(&self, block: &Block, out: &mut Vec<u8>) -> Result<(), AllocError> {
        let (words, absent) = (block.words(), is_absent(block));
        for step in self.steps.iter() {
            out.extend_from_slice(step.text.as_slice())?;
            if step.field.is_nothing() || (absent && step.field.is_value()) {
                out.extend_from_slice(self.absent.as_bytes())?;
            } else {
                step.field.append(words, out)?;
            }
        }
        out.extend_from_slice(self.end.as_slice())
    }
}
