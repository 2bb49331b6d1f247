//! Where the frames of a run go, each with what it is.
ghost use Rattle.std.specs.Prelude.{◌≡◌, ◌≤◌, ◌++◌, ◌∷◌, ℕ, List, OnErr, OnOk, []};
ghost use Rattle.pdc_ports.specs.Failures.{HasRisen};
ghost use Rattle.pdc_publisher.specs.PublishedRow.{frame_in, row_of};

use crate::message::LayoutFrame;
use pdc_ports::{MemorySink, Sink, SinkFault};
use pdc_publisher::PublishedRow;

/// A sink that is handed each frame of a run with what it is: a data frame with its instant and with what the concentrator says of itself, or
/// a layout frame. One that wants to know nothing of it sends the bytes.
pub trait Outlet: Sink {
    /// Hands the data frame of a row on, which is shown where it is.
    ///
    /// # Errors
    ///
    /// As [`Sink::send`].
    fn send_data(&mut self, row: &mut PublishedRow) -> Result<(), SinkFault>
        ensures same { (row.new.output ≡ row.old.output) × (row_of row.new ≡ row_of row.old) }
        ensures ok { OnOk result ((before : Self) (given : List (List ℕ)) →
            Self.took before self.old given →
            Self.took before self.new (given ++ frame_in row.old ∷ [])) }
        ensures err { OnErr result ((before : Self) (given : List (List ℕ)) →
            Self.took before self.old given → Self.took before self.new given) }
        ensures cause { OnErr result (HasRisen (Self.failures_of self.old)
            (Self.failures_of self.new)) }
        ensures more { Self.failures_of self.old ≤ Self.failures_of self.new }
    {
        row.show(self, |bytes, sink| sink.send(bytes))
    }

    /// Hands a layout frame on.
    ///
    /// # Errors
    ///
    /// As [`Sink::send`].
    fn send_layout(&mut self, frame: &LayoutFrame) -> Result<(), SinkFault>
        ensures ok { OnOk result ((before : Self) (given : List (List ℕ)) →
            Self.took before self.old given →
            Self.took before self.new (given ++ frame.now.bytes.items ∷ [])) }
        ensures err { OnErr result ((before : Self) (given : List (List ℕ)) →
            Self.took before self.old given → Self.took before self.new given) }
        ensures cause { OnErr result (HasRisen (Self.failures_of self.old)
            (Self.failures_of self.new)) }
        ensures more { Self.failures_of self.old ≤ Self.failures_of self.new }
    {
        self.send(frame.bytes.as_slice())
    }
}

impl Outlet for MemorySink {}
