//! The record of a run.
ghost use Rattle.std.specs.Prelude.{IfErr};
ghost use Rattle.pdc_startup.specs.Faults.{IsOfRecord};

use crate::begun::Begun;
use crate::described::Described;
use crate::fault::ServiceFault;
use pdc_mark::Mark;
use pdc_recording::{Begun as BegunEntry, Limits, Role, Series, Shelf, nanoseconds_now};
use pdc_sockets::Concentrator;
use pdc_version::VERSION_NUMBERS;
use std::alloc::Global;
use std::rt::Clock;

/// Where a life is recorded.
#[derive(Clone, Copy)]
pub struct RecordFile<'a> {
    /// What the names of its files begin with.
    pub name: &'a str,
    /// How large they grow, and how many stay.
    pub limits: Limits,
}

/// Whose life it is.
fn role_of(concentrator: &Concentrator) -> Role {
    match concentrator {
        Concentrator::Node(_) => Role::Node,
        Concentrator::Merger(_) => Role::Merger,
    }
}

/// The files of the record of a life that begins with this mark, under these settings.
pub fn open_record<'a, M: Mark + Drop, R: Clock + Shelf>(
    rt: &R,
    alloc: Global,
    record: RecordFile<'a>,
    described: &'a Described,
    mark: &Begun<M>,
) -> Result<Series<'a>, ServiceFault>
    ensures faults { IfErr result IsOfRecord }
{
    let output = described.concentrator.output();
    let begun = BegunEntry {
        role: role_of(&described.concentrator),
        id: output.id.value,
        rate: output.rate,
        start: mark.start(),
        floor: mark.floor(),
        counts: mark.counts(),
        now: 0,
        program: VERSION_NUMBERS,
        settings: described.text.as_bytes(),
    };
    Series::open(
        rt,
        alloc,
        record.name,
        record.limits,
        begun,
        nanoseconds_now(rt),
    )
    .map_err(ServiceFault::Record)
}
