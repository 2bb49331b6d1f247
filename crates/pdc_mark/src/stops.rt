//! Marks that a world can stop: each call leaves the mark as it is opened after the stop.
ghost use Rattle.std.specs.Prelude.{◌≡◌, ◌+◌, ◌<◌, ◌≤◌, false, if◌then◌else◌};
ghost use Rattle.pdc_mark.specs.Counts.{IsRaise};
ghost use Rattle.pdc_mark.specs.Stops.{Between, InBegin, InRaise, InReserve, Stop, StopsInRaise};
ghost use Rattle.pdc_mark.specs.Stops.{stop_in_reserving};
ghost use Rattle.pdc_mark.specs.Stored.{with_counts, with_floor, with_instant, with_next_start};
ghost use Rattle.pdc_mark.specs.Stored.{with_waiting};

use crate::greater::{needed_floor, raised};
use crate::layout::COUNTS;
use crate::mark::Mark;

/// A mark whose device never fails, and into whose stores a stop may fall. A store that `landed` is done at the stop,
/// and the mark is the new one; else it is the old one.
pub trait Store: Mark {
    /// A stop fell here on the first mark, and the second is that mark as it is opened behind the stop.
    ghost stops_as: { Stop → Self → Self → Type 0 };

    /// A stop between stores: the mark stays.
    fn stopped(&mut self)
        ensures stored { Self.stored self.new ≡ Self.stored self.old }
        ensures left { stops_as Between self.old self.new };

    /// A stop in `begin`.
    fn begin_stopped(&mut self, landed: bool)
        requires { (Self.stored self.old).start < u32.MAX }
        ensures stored { Self.stored self.new
            ≡ (if landed then with_next_start (Self.stored self.old) else Self.stored self.old) }
        ensures left { stops_as (InBegin landed) self.old self.new };

    /// A stop in `reserve`.
    fn reserve_stopped(&mut self, floor: u64, landed: bool)
        requires { (Self.stored self.old).floor < floor }
        ensures stored { Self.stored self.new
            ≡ (if landed then with_floor (Self.stored self.old) floor else Self.stored self.old) }
        ensures left { stops_as (InReserve floor landed) self.old self.new };

    /// A stop in `raise`.
    fn raise_stopped(&mut self, counts: &[u16; COUNTS], landed: bool)
        requires { IsRaise (Self.stored self.old).counts counts.now }
        ensures stored { Self.stored self.new
            ≡ (if landed then with_counts (Self.stored self.old) counts.now else Self.stored
            self.old) }
        ensures left { stops_as (InRaise counts.now landed) self.old self.new };

    /// A stop in `reserve_for`; where it stores nothing, a stop between stores.
    fn reserve_for_stopped(&mut self, instant: u64, lead: u16, landed: bool)
        requires { instant + lead ≤ u64.MAX }
        ensures stored { Self.stored self.new
            ≡ (if landed then with_instant lead instant (Self.stored self.old) else Self.stored
            self.old) }
        ensures rises { (Self.stored self.old).floor ≤ (Self.stored self.new).floor }
        ensures left { stops_as (stop_in_reserving landed lead instant
            (Self.stored self.old).floor) self.old self.new }
    {
        let (_, floor) = self.stored();
        match needed_floor(floor, instant, lead) {
            Some(needed) => self.reserve_stopped(needed, landed),
            None => self.stopped(),
        }
    }

    /// A stop in `raise_to`; where it stores nothing, a stop between stores.
    fn raise_to_stopped(&mut self, waiting: &[u16; COUNTS], landed: bool)
        ensures stored { Self.stored self.new
            ≡ (if landed then with_waiting waiting.now (Self.stored self.old) else Self.stored
            self.old) }
        ensures left { StopsInRaise stops_as landed waiting.now (Self.stored self.old).counts
            self.old self.new }
    {
        match raised(&self.counts(), waiting) {
            Some(counts) => self.raise_stopped(&counts, landed),
            None => self.stopped(),
        }
    }

    /// No call answers `Device`.
    ghost never_fails: { Self.is_safe };

    /// No device fault ever stands.
    ghost never_broken: { (mark : Self) → Self.is_broken mark ≡ false };
}
