//! A world.
ghost use Rattle.std.specs.Prelude.{◌≡◌, IfErr, IfOk, IsErrOf, IsOk, IsTrue, List, OnErr, OnOk};
ghost use Rattle.std.specs.Prelude.{length, option_map, true};
ghost use Rattle.std.specs.List.{slice_get};
ghost use Rattle.pdc_history.specs.declared.event_fault.Fault.TheVariants.{NoMemory};
ghost use Rattle.pdc_core.specs.pdc_memory.Asking.{SomeWasRefused};
ghost use Rattle.pdc_history.specs.Handed.{asked_of, fault_of};
ghost use Rattle.pdc_history.specs.Asked.{Cause, IsFault};
ghost use Rattle.pdc_history.specs.World.{Happened, World as Fixed};
ghost use Rattle.pdc_world.specs.Acts.{IsWhy};
ghost use Rattle.pdc_world.specs.Holds.{Holds, IsAnswered};
ghost use Rattle.pdc_world.specs.Room.{HasRoomFor};

use crate::act::act;
use crate::ledger::Ledger;
use crate::receiver::receiver;
use pdc_history::{Event, Fault, Published, Reply, Who, asked_is_event_or_fault};
use pdc_mark::Store;
use pdc_merge::Merger;
use pdc_node::Node;
use pdc_station::Station;
use pdc_table::RingTable;
use std::alloc::{AllocError, Global};
use std::marker::Model;

/// Two nodes, a merger and the network between them, and all that was ever sent and published.
#[derive(Drop)]
pub struct World<S: Store> {
    pub(crate) a: Station<Node<RingTable>, S>,
    pub(crate) b: Station<Node<RingTable>, S>,
    pub(crate) m: Station<Merger<RingTable>, S>,
    pub(crate) ledger: Ledger,
    pub(crate) alloc: Global,
}

impl<S: Store> Model for World<S> {
    ghost use Rattle.pdc_world.specs.Holds.{HoldsSome};
    ghost use Rattle.pdc_world.specs.Ledger.{station_view, world_view};
    ghost use Rattle.pdc_world.specs.Views.{WorldView};

    ghost Value = { WorldView };

    ghost view = { λ w. world_view (station_view S.stored w.a) (station_view S.stored w.b)
        (station_view S.stored w.m) w.ledger };

    ghost invariant = { λ w. HoldsSome (world_view (station_view S.stored w.a)
        (station_view S.stored w.b) (station_view S.stored w.m) w.ledger) };
}

impl<S: Store> World<S> {
    /// How many frames were ever sent, by PMUs, nodes and the merger.
    pub fn sent(&self) -> usize
        ensures { result ≡ length self.now.ledger.frames }
    {
        self.ledger.sent.len()
    }

    /// The frame with this number among them, from 0, if so many were sent.
    pub fn frame(&self, number: usize) -> Option<&[u8]>
        ensures { option_map (λ bytes. bytes.now) result ≡ slice_get self.now.ledger.frames number }
    {
        self.ledger.sent.get(number)
    }

    /// The rows that nodes and merger published, the first to be published first.
    pub fn published(&self) -> &[Published]
        ensures { result.now ≡ self.now.ledger.published }
    {
        self.ledger.published.as_slice()
    }

    /// What the core that an event is for is asked, or a PMU.
    fn act_for(&mut self, event: &Event<'_>) -> Result<Reply, Fault>
        ensures made { (W : Fixed) (H : List Happened) → Holds W H self.old →
            IfOk result (λ reply. IsAnswered W H (asked_of event.now) reply self.new) }
        ensures why { (W : Fixed) (H : List Happened) → Holds W H self.old →
            IfErr result (IsWhy W H (asked_of event.now)) }
        ensures err { OnErr result (self.new ≡ self.old) }
        ensures room { HasRoomFor self.old.has_room (asked_of event.now) → IsErrOf result NoMemory →
            ⊥ }
        ensures refused { IsErrOf result NoMemory → SomeWasRefused }
    {
        match receiver(event) {
            Who::A => act(&mut self.a, &mut self.ledger, self.alloc, event),
            Who::B => act(&mut self.b, &mut self.ledger, self.alloc, event),
            Who::M => act(&mut self.m, &mut self.ledger, self.alloc, event),
        }
    }

    /// Makes room for one frame and one row more, which no event takes away but one that sends. Where there is room, it takes no memory.
    ///
    /// # Errors
    ///
    /// [`AllocError`] where a request for that room was refused. Then nothing changes.
    pub fn reserve(&mut self) -> Result<(), AllocError>
        ensures ok { OnOk result (self.new ≡ record self.old { has_room = true }) }
        ensures err { OnErr result (self.new ≡ self.old) }
        ensures room { IsTrue self.old.has_room → IsOk result }
        ensures refused { OnErr result SomeWasRefused }
    {
        self.ledger.make_room()
    }

    /// Makes an event happen, if it may. Bytes that come to a core need no memory. Where there is room ([`World::reserve`]), neither does
    /// a send, a tick or a publish. A stop opens a core, and may always want memory.
    ///
    /// # Errors
    ///
    /// Where it may not: a premise that it breaks, `NoSuchFrame` or `StartsUsedUp`; and else `NoMemory`, where a request for memory was
    /// refused. Then nothing changes.
    pub fn step(&mut self, event: &Event<'_>) -> Result<Reply, Fault>
        ensures made { (W : Fixed) (H : List Happened) → Holds W H self.old →
            IfOk result (λ reply. IsAnswered W H (asked_of event.now) reply self.new) }
        ensures why { (W : Fixed) (H : List Happened) → Holds W H self.old →
            IfErr result (IsWhy W H (asked_of event.now)) }
        // And where there is a cause, it is told.
        ensures told { (W : Fixed) (H : List Happened) (cause : Cause) → Holds W H self.old →
            IsFault W H (asked_of event.now) cause →
            IsErrOf result (fault_of cause) }
        ensures err { OnErr result (self.new ≡ self.old) }
        ensures room { HasRoomFor self.old.has_room (asked_of event.now) → IsErrOf result NoMemory →
            ⊥ }
        ensures refused { IsErrOf result NoMemory → SomeWasRefused }
    {
        asked_is_event_or_fault();
        self.act_for(event)
    }
}
