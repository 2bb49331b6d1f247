//! A record of what a life consists of, written beside it: each step with its number, its time and its answer, and what was published.
//!
//! The first type to look at is [`Recording`], the queue into which receivers and aligner put entries. [`RecordedSource`] and
//! [`RecordedTicker`] are put around a source and a ticker, and note what they hear; [`write_record`], in a thread of its own, brings the
//! entries into the order of their numbers and writes them to a [`Series`] of files. What it wrote is in [`Written`]. A later file begins with
//! the steps before it that a core must know (`Carried`), so that it can be replayed without the files before it.
//!
//! To the layers above this crate promises that a recorded source and a recorded ticker keep the contracts of what they are put around.
//! Whoever notes an entry waits for nothing but a short lock: where the queue is full, the record has a gap, and says so. So it does where a
//! file could not be written: a new one is tried until the record goes on.
#![tactic(auto)]

mod carried;
mod carrying;
mod files;
mod gathered;
mod kept;
mod lives;
mod lost;
mod ordering;
mod queue;
mod recorded_source;
mod recorded_ticker;
mod recording;
mod room;
mod series;
mod shelf;
mod time;
mod writing;
mod written;

pub use pdc_record::{Begun, Role};
pub use recorded_source::RecordedSource;
pub use recorded_ticker::RecordedTicker;
pub use recording::Recording;
pub use series::{Limits, Series};
pub use shelf::Shelf;
pub use time::nanoseconds_now;
pub use writing::write_record;
pub use written::Written;
