//! How a world begins.
ghost use Rattle.std.specs.Prelude.{◌≡◌, ◌≢◌, [], IfErr, IfOk, OnErr, nat_lt, true};
ghost use Rattle.pdc_core.specs.pdc_memory.Asking.{SomeWasRefused};
ghost use Rattle.pdc_history.specs.declared.event_fault.Fault.TheVariants.{NoMemory, StartsUsedUp};
ghost use Rattle.pdc_mark.specs.Stored.{first_stored};
ghost use Rattle.pdc_world.specs.Agreement.{do_agree};
ghost use Rattle.pdc_world.specs.Holds.{Holds};
ghost use Rattle.pdc_world.specs.Opening.{IsOpeningFault, are_left, world_of};

use crate::agree::are_agreed;
use crate::ledger::Ledger;
use crate::world::World;
use pdc_history::{Fault, Premise, WorldFault};
use pdc_life::{MergerSettings, Settings};
use pdc_mark::{ModelMark, Store};
use pdc_node::copy_of;
use pdc_station::Station;
use std::alloc::{AllocError, Global};

/// How many instants each core reserves ahead.
#[derive(Clone, Copy, Debug, PartialEq, Eq)]
pub struct Leads {
    /// Node A.
    pub a: u16,
    /// Node B.
    pub b: u16,
    /// The merger.
    pub m: u16,
}

/// Whether the store has a next start.
fn has_next<S: Store>(store: &S) -> bool
    ensures { result ≡ nat_lt (S.stored store.now).start u32.MAX }
{
    let (start, _) = store.stored();
    start < u32::MAX
}

/// Whether each of three stores has a next start.
fn have_next<S: Store>(of_a: &S, of_b: &S, of_m: &S) -> bool
    ensures { result ≡ are_left (S.stored of_a.now) (S.stored of_b.now) (S.stored of_m.now) }
{
    has_next(of_a) && has_next(of_b) && has_next(of_m)
}

impl<S: Store + Drop> World<S> {
    /// A world whose premises hold. Each first life begins as every life does: the next start is stored, and with it a core is opened.
    fn begun(
        alloc: Global,
        a: Settings,
        b: Settings,
        m: MergerSettings,
        leads: Leads,
        stores: (S, S, S),
    ) -> Result<World<S>, AllocError>
        requires agree { do_agree a b m ≡ true }
        requires left { are_left (S.stored stores.0) (S.stored stores.1) (S.stored stores.2) ≡
            true }
        ensures holds { IfOk result (λ world. Holds
            (world_of a b m leads (S.stored stores.0) (S.stored stores.1) (S.stored stores.2)) []
            world) }
        ensures refused { OnErr result SomeWasRefused }
    {
        let (of_a, of_b, of_m) = stores;
        let ledger = Ledger::new(alloc, copy_of(&a))?;
        Ok(World {
            a: Station::begun(alloc, a, of_a, leads.a)?,
            b: Station::begun(alloc, b, of_b, leads.b)?,
            m: Station::begun(alloc, m, of_m, leads.m)?,
            ledger,
            alloc,
        })
    }

    /// A world over three stores, those of nodes A and B and of the merger. Each first life begins with the next start.
    ///
    /// # Errors
    ///
    /// At event 0: a broken premise where the settings do not agree, else `StartsUsedUp` where a store has no next start, and else
    /// `NoMemory`, where a request for memory was refused.
    pub fn over(
        alloc: Global,
        a: Settings,
        b: Settings,
        m: MergerSettings,
        leads: Leads,
        stores: (S, S, S),
    ) -> Result<World<S>, WorldFault>
        ensures holds { IfOk result (λ world. Holds
            (world_of a b m leads (S.stored stores.0) (S.stored stores.1) (S.stored stores.2)) []
            world) }
        ensures fault { IfErr result (IsOpeningFault
            (world_of a b m leads (S.stored stores.0) (S.stored stores.1) (S.stored stores.2))) }
        ensures refused { IfErr result (λ fault. fault.fault ≡ NoMemory → SomeWasRefused) }
    {
        if !are_agreed(&a, &b, &m) {
            return Err(WorldFault {
                fault: Fault::PremiseBroken(Premise::OneTable),
                at: 0,
            });
        }
        if !have_next(&stores.0, &stores.1, &stores.2) {
            return Err(WorldFault {
                fault: Fault::StartsUsedUp,
                at: 0,
            });
        }
        match World::begun(alloc, a, b, m, leads, stores) {
            Ok(world) => Ok(world),
            Err(AllocError) => Err(WorldFault {
                fault: Fault::NoMemory,
                at: 0,
            }),
        }
    }
}

impl World<ModelMark> {
    /// A world over new marks, of which no start number is used up.
    ///
    /// # Errors
    ///
    /// At event 0: a broken premise where the settings do not agree, and else `NoMemory`, where a request for memory was refused.
    pub fn new(
        alloc: Global,
        a: Settings,
        b: Settings,
        m: MergerSettings,
        leads: Leads,
    ) -> Result<World<ModelMark>, WorldFault>
        ensures holds { IfOk result (λ world. Holds
            (world_of a b m leads first_stored first_stored first_stored) [] world) }
        ensures fault { IfErr result (IsOpeningFault
            (world_of a b m leads first_stored first_stored first_stored)) }
        ensures starts { IfErr result (λ fault. fault.fault ≢ StartsUsedUp) }
        ensures refused { IfErr result (λ fault. fault.fault ≡ NoMemory → SomeWasRefused) }
    {
        let stores = (
            ModelMark::new(0, 0),
            ModelMark::new(0, 0),
            ModelMark::new(0, 0),
        );
        World::over(alloc, a, b, m, leads, stores)
    }
}
