//! Why a row was not published.

use pdc_row::DueRow;
use thiserror::Error;

/// Why a row was not published. Each prints as its code and its name.
#[derive(Debug, Drop, Error)]
pub enum PublishFault {
    /// There is no room for the frame, and none was to be had. Here is the row, and it may be tried again.
    #[error("Z1 NoMemory")]
    NoMemory(DueRow),
    /// The device of the mark failed, now or earlier. The row is lost.
    #[error("M4 Device")]
    Device,
}
