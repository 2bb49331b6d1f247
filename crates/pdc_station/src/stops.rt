//! Stops of a station: its life ends, and the next one begins with what the mark then stores. It is opened before anything is stored,
//! so a stop that is refused changes nothing.
ghost use Rattle.std.specs.Prelude.{◌≡◌, ◌+◌, ◌*◌, ◌<◌, ◌≤◌, ◌↔◌, [], IfNone, IfOk, IfSome};
ghost use Rattle.std.specs.Prelude.{IsErrOf, OnErr, OnOk, if◌then◌else◌};
ghost use Rattle.pdc_core.specs.pdc_memory.Asking.{SomeWasRefused};
ghost use Rattle.pdc_mark.specs.Stored.{with_due};
ghost use Rattle.pdc_publisher.specs.Publisher.{lead_in, mark_in, output_in};
ghost use Rattle.pdc_station.specs.Station.{FallsAt, HasStopped, IsOfSomeLife, left_by};
ghost use Rattle.pdc_station.specs.Station.{start_left, stop_in_publish};
ghost use Rattle.pdc_frame.specs.declared.tag_limits.TheConstants.{MAX_RATE, SECONDS};

use crate::fault::StopFault;
use crate::next_row::next_instant;
use crate::station::Station;
use pdc_core::Opens;
use pdc_history::{StopAt, Storing};
use pdc_life::MAX_PMUS;
use pdc_mark::{Store, Stored};
use pdc_publisher::Publisher;
use std::alloc::{AllocError, Global};

/// What is stored.
fn stored_in<M: Store>(mark: &M) -> Stored
    ensures { result ≡ M.stored mark.now }
{
    let (start, floor) = mark.stored();
    Stored {
        start,
        floor,
        counts: mark.counts(),
    }
}

/// After a publish whose row has this instant, if there is one.
fn published_by(stored: Stored, lead: u16, due: Option<u64>) -> Stored
    requires { IfSome due (λ instant. instant < SECONDS * MAX_RATE) }
    ensures { result ≡ with_due lead due stored }
{
    match due {
        Some(instant) => stored.with_instant(instant, lead),
        None => stored,
    }
}

/// What a stop leaves stored, where a row of this instant is the next and these counts wait; none where that start has more than 32 bits.
fn left_behind(
    stored: Stored,
    at: StopAt,
    lead: u16,
    due: Option<u64>,
    waiting: &[u16; MAX_PMUS],
) -> Option<Stored>
    requires { IfSome due (λ instant. instant < SECONDS * MAX_RATE) }
    ensures left { IfSome result (λ left. left ≡ left_by at lead due waiting.now stored) }
    ensures start { IfSome result (λ left. left.start ≡ start_left at stored.start) }
    ensures none { IfNone result (u32.MAX < start_left at stored.start) }
{
    match at {
        StopAt::In {
            storing,
            landed: true,
        } => match storing {
            Storing::Publish => Some(published_by(stored, lead, due)),
            Storing::Tick => Some(stored.with_waiting(waiting)),
            Storing::Start => Some(Stored {
                start: stored.start.checked_add(1)?,
                ..stored
            }),
        },
        _ => Some(stored),
    }
}

/// A stop in the publish of a row of this instant, if there is one.
fn stop_publish<M: Store>(publisher: &mut Publisher<M>, due: Option<u64>, landed: bool)
    requires { IfSome due (λ instant. instant < SECONDS * MAX_RATE) }
    ensures stored { M.stored (mark_in publisher.new)
        ≡ (if landed then with_due (lead_in publisher.old) due (M.stored (mark_in publisher.old))
        else M.stored (mark_in publisher.old)) }
    ensures stops { M.stops_as (stop_in_publish landed (lead_in publisher.old) due
        (M.stored (mark_in publisher.old)).floor)
        (mark_in publisher.old) (mark_in publisher.new) }
    ensures kept { (output_in publisher.new ≡ output_in publisher.old)
        × (lead_in publisher.new ≡ lead_in publisher.old) }
{
    match due {
        Some(instant) => publisher.publish_stopped(instant, landed),
        None => publisher.stopped(),
    }
}

/// Stops a publisher, where a row of this instant is the next and these counts wait.
fn stop_publisher<M: Store>(
    publisher: &mut Publisher<M>,
    at: StopAt,
    due: Option<u64>,
    waiting: &[u16; MAX_PMUS],
)
    requires tagged { IfSome due (λ instant. instant < SECONDS * MAX_RATE) }
    requires left { start_left at (M.stored (mark_in publisher.old)).start < u32.MAX }
    ensures stored { M.stored (mark_in publisher.new) ≡
        left_by at (lead_in publisher.old) due waiting.now (M.stored (mark_in publisher.old)) }
    ensures stops { FallsAt M.stops_as at (lead_in publisher.old) due waiting.now
        (M.stored (mark_in publisher.old)) (mark_in publisher.old) (mark_in publisher.new) }
    ensures kept { (output_in publisher.new ≡ output_in publisher.old)
        × (lead_in publisher.new ≡ lead_in publisher.old) }
{
    match at {
        StopAt::Between => publisher.stopped(),
        StopAt::In { storing, landed } => match storing {
            Storing::Publish => stop_publish(publisher, due, landed),
            Storing::Tick => publisher.raise_stopped(waiting, landed),
            Storing::Start => publisher.begin_stopped(landed),
        },
    }
}

/// The core of the life behind this start, with what is stored before it.
fn opened<C: Opens>(core: &C, alloc: Global, stored: &Stored) -> Result<C, StopFault>
    ensures stands { IfOk result (λ next. C.stands_for next
        (C.given_with (C.settings_of core.now) (stored.now.start +
        1) stored.now.floor stored.now.counts) []) }
    ensures some { IfOk result (λ next. IsOfSomeLife (C.stands_for next)) }
    ensures settings { IfOk result (λ next. C.settings_of next ≡ C.settings_of core.now) }
    ensures popped { IfOk result (λ next. C.popped_of next ≡ stored.now.floor) }
    ensures left { OnOk result (stored.now.start < u32.MAX) }
    ensures used_up { IsErrOf result StopFault.StartsUsedUp ↔ (stored.now.start ≡ u32.MAX) }
    ensures refused { IsErrOf result StopFault.NoMemory → SomeWasRefused }
{
    if stored.start == u32::MAX {
        return Err(StopFault::StartsUsedUp);
    }
    match core.open_next(alloc, stored.start + 1, stored.floor, &stored.counts) {
        Ok(next) => Ok(next),
        Err(AllocError) => Err(StopFault::NoMemory),
    }
}

impl<C: Opens, M: Store> Station<C, M> {
    /// A stop: between stores, or in a store, which landed or not. The step whose store that was is not taken. Where the store of the next
    /// start landed, that life ends before its first step.
    ///
    /// # Errors
    ///
    /// `StartsUsedUp` where what is left is the last start number; `NoMemory` where a request for the memory of the next life was refused.
    /// Then nothing changes.
    pub fn stop(&mut self, alloc: Global, at: StopAt) -> Result<(), StopFault>
        ensures stops { OnOk result (HasStopped M.stored M.stops_as (C.stands_for self.old.core) at
            (lead_in self.old.publisher) (mark_in self.old.publisher) (mark_in self.new.publisher)) }
        ensures stands { OnOk result (C.stands_for self.new.core
            (C.given_with (C.settings_of self.old.core)
            (M.stored (mark_in self.new.publisher)).start
            (M.stored (mark_in self.new.publisher)).floor
            (M.stored (mark_in self.new.publisher)).counts) []) }
        ensures used_up { IsErrOf result StopFault.StartsUsedUp ↔
            (u32.MAX ≤ start_left at (M.stored (mark_in self.old.publisher)).start) }
        ensures refused { IsErrOf result StopFault.NoMemory → SomeWasRefused }
        ensures err { OnErr result (self.new ≡ self.old) }
        ensures settings { C.settings_of self.new.core ≡ C.settings_of self.old.core }
        ensures lead { lead_in self.new.publisher ≡ lead_in self.old.publisher }
    {
        let due = next_instant(&self.core);
        let waiting = self.core.waiting();
        let stored = stored_in(self.publisher.mark());
        let Some(left) = left_behind(stored, at, self.publisher.lead(), due, &waiting) else {
            return Err(StopFault::StartsUsedUp);
        };
        let next = opened(&self.core, alloc, &left)?;
        stop_publisher(&mut self.publisher, at, due, &waiting);
        self.publisher.begin();
        self.core = next;
        Ok(())
    }
}
