//! The first life of a station.
ghost use Rattle.std.specs.Prelude.{◌≡◌, ◌<◌, [], IfOk, OnErr};
ghost use Rattle.pdc_core.specs.pdc_memory.Asking.{SomeWasRefused};
ghost use Rattle.pdc_mark.specs.Stored.{with_next_start};
ghost use Rattle.pdc_publisher.specs.Publisher.{lead_in, mark_in};

use crate::station::Station;
use pdc_core::Opens;
use pdc_mark::Store;
use std::alloc::{AllocError, Global};

/// Stores the next start number, of which one is left.
fn begin_next<M: Store>(mark: &mut M)
    requires { (M.stored mark.old).start < u32.MAX }
    ensures { M.stored mark.new ≡ with_next_start (M.stored mark.old) }
{
    let _start = mark.begin().unwrap();
}

impl<C: Opens, M: Store + Drop> Station<C, M> {
    /// A station whose first life begins: the next start is stored, and then the core is opened with what the mark stores.
    ///
    /// # Errors
    ///
    /// [`AllocError`] where a request for the memory of the core was refused.
    pub fn begun(
        alloc: Global,
        settings: C::Settings,
        mut mark: M,
        lead: u16,
    ) -> Result<Station<C, M>, AllocError>
        requires { (M.stored mark).start < u32.MAX }
        ensures mark { IfOk result (λ station. M.stored (mark_in station.publisher) ≡
            with_next_start (M.stored mark)) }
        ensures stands { IfOk result (λ station. C.stands_for station.core (C.given_with settings
            (M.stored (mark_in station.publisher)).start
            (M.stored (mark_in station.publisher)).floor
            (M.stored (mark_in station.publisher)).counts) []) }
        ensures settings { IfOk result (λ station. C.settings_of station.core ≡ settings) }
        ensures lead { IfOk result (λ station. lead_in station.publisher ≡ lead) }
        ensures refused { OnErr result SomeWasRefused }
    {
        begin_next(&mut mark);
        let (start, floor) = mark.stored();
        let counts = mark.counts();
        let core = C::open_first(alloc, settings, start, floor, &counts)?;
        Ok(Station::new(core, mark, lead))
    }
}
