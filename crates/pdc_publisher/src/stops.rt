//! Publishers whose mark can be stopped: a stop falls into a store of the publisher, and its next life begins.
ghost use Rattle.std.specs.Prelude.{◌≡◌, ◌*◌, ◌<◌, false, if◌then◌else◌};
ghost use Rattle.pdc_frame.specs.declared.tag_limits.TheConstants.{MAX_RATE, SECONDS};
ghost use Rattle.pdc_mark.specs.Stops.{Between, InBegin, StopsInRaise, stop_in_reserving};
ghost use Rattle.pdc_mark.specs.Stored.{with_instant, with_next_start, with_waiting};

use crate::publisher::Publisher;
use pdc_mark::{COUNTS, Store};

impl<M: Store> Publisher<M> {
    ghost use Rattle.pdc_publisher.specs.Publisher.{has_failed_in, last_in, lead_in, mark_in};
    ghost use Rattle.pdc_publisher.specs.Publisher.{output_in};

    /// A stop between stores.
    pub fn stopped(&mut self)
        ensures stored { M.stored (mark_in self.new) ≡ M.stored (mark_in self.old) }
        ensures left { M.stops_as Between (mark_in self.old) (mark_in self.new) }
        ensures kept { (output_in self.new ≡ output_in self.old)
            × (lead_in self.new ≡ lead_in self.old) }
    {
        self.mark.stopped();
    }

    /// A stop in the store of the floor that a row of this instant needs; where it needs none, a stop between stores.
    pub fn publish_stopped(&mut self, instant: u64, landed: bool)
        requires { instant < SECONDS * MAX_RATE }
        ensures stored { M.stored (mark_in self.new) ≡
            (if landed then with_instant (lead_in self.old) instant (M.stored (mark_in self.old))
            else M.stored (mark_in self.old)) }
        ensures left { M.stops_as (stop_in_reserving landed (lead_in self.old) instant
            (M.stored (mark_in self.old)).floor) (mark_in self.old) (mark_in self.new) }
        ensures kept { (output_in self.new ≡ output_in self.old)
            × (lead_in self.new ≡ lead_in self.old) }
    {
        self.mark.reserve_for_stopped(instant, self.lead, landed);
    }

    /// A stop in the raise to the counts that wait; where none is to be raised, a stop between stores.
    pub fn raise_stopped(&mut self, waiting: &[u16; COUNTS], landed: bool)
        ensures stored { M.stored (mark_in self.new) ≡
            (if landed then with_waiting waiting.now (M.stored (mark_in self.old)) else M.stored
            (mark_in self.old)) }
        ensures left { StopsInRaise M.stops_as landed waiting.now
            (M.stored (mark_in self.old)).counts (mark_in self.old) (mark_in self.new) }
        ensures kept { (output_in self.new ≡ output_in self.old)
            × (lead_in self.new ≡ lead_in self.old) }
    {
        self.mark.raise_to_stopped(waiting, landed);
    }

    /// A stop in the store of the next start.
    pub fn begin_stopped(&mut self, landed: bool)
        requires { (M.stored (mark_in self.old)).start < u32.MAX }
        ensures stored { M.stored (mark_in self.new) ≡
            (if landed then with_next_start (M.stored (mark_in self.old)) else M.stored
            (mark_in self.old)) }
        ensures left { M.stops_as (InBegin landed) (mark_in self.old) (mark_in self.new) }
        ensures kept { (output_in self.new ≡ output_in self.old)
            × (lead_in self.new ≡ lead_in self.old) }
    {
        self.mark.begin_stopped(landed);
    }

    /// The next life begins: the next start is stored, and this is then as a new publisher over the mark.
    pub fn begin(&mut self)
        requires { (M.stored (mark_in self.old)).start < u32.MAX }
        ensures mark { M.stored (mark_in self.new) ≡ with_next_start (M.stored (mark_in self.old)) }
        ensures last { last_in self.new ≡ (M.stored (mark_in self.new)).floor }
        ensures works { has_failed_in self.new ≡ false }
        ensures kept { (output_in self.new ≡ output_in self.old)
            × (lead_in self.new ≡ lead_in self.old) }
    {
        let _start = self.mark.begin().unwrap();
        let (_, floor) = self.mark.stored();
        self.last = floor;
        self.has_failed = false;
    }
}
