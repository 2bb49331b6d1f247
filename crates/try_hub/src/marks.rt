//! A mark of which each count is the greatest.

use pdc_mark::{COUNTS, Mark, ModelMark};

/// A mark that stores the greatest count for each column, so that each section may be adopted.
pub fn cleared() -> ModelMark {
    let mut mark = ModelMark::new(1, 0);
    let _ = mark.raise_to(&[u16::MAX; COUNTS]);
    mark
}
