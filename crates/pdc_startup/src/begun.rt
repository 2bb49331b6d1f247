//! A mark that has begun.
ghost use Rattle.std.specs.Prelude.{◌≡◌, ◌⊎◌, IfOk, IsErrOf, OnErr};
ghost use Rattle.pdc_mark.specs.Stored.{with_next_start};
ghost use Rattle.pdc_startup.specs.Begun.{begun_mark};

use crate::timed_mark::TimedMark;
use pdc_mark::{COUNTS, Mark, MarkFault};
use pdc_metrics::Stores;
use std::rt::Clock;
use std::sync::Wait;

/// A mark whose next start number was stored: one life may begin with what it stores, and no other will have this start.
#[derive(Drop)]
pub struct Begun<M: Mark> {
    mark: M,
}

impl<M: Mark + Drop> Begun<M> {
    ghost use Rattle.pdc_startup.specs.Begun.{begun_mark};

    /// Stores the next start number.
    ///
    /// # Errors
    ///
    /// `Device` where the device failed, and `StartsUsedUp` where no start number is left.
    pub fn new(mark: M) -> Result<Begun<M>, MarkFault>
        ensures begun { IfOk result (λ begun. M.stored (begun_mark begun) ≡
            with_next_start (M.stored mark)) }
        ensures faults { OnErr result (IsErrOf result MarkFault.Device ⊎ IsErrOf result
            MarkFault.StartsUsedUp) }
        ensures safe { M.is_safe → IsErrOf result MarkFault.Device → ⊥ }
    {
        let mut mark = mark;
        mark.begin()?;
        Ok(Begun { mark })
    }

    /// The start number of the life.
    pub fn start(&self) -> u32
        ensures { result ≡ (M.stored (begun_mark self.now)).start }
    {
        let (start, _) = self.mark.stored();
        start
    }

    /// The instant up to which all was published or given up before this life.
    pub fn floor(&self) -> u64
        ensures { result ≡ (M.stored (begun_mark self.now)).floor }
    {
        let (_, floor) = self.mark.stored();
        floor
    }

    /// For each column the count that is stored.
    pub fn counts(&self) -> [u16; COUNTS]
        ensures { result ≡ (M.stored (begun_mark self.now)).counts }
    {
        self.mark.counts()
    }

    /// The same mark, whose stores are timed from here on.
    pub fn timed<'a, R: Wait + Clock>(
        self,
        rt: &'a R,
        stores: &'a Stores,
    ) -> Begun<TimedMark<'a, M, R>>
        ensures { (begun_mark result).inner ≡ begun_mark self }
    {
        Begun {
            mark: TimedMark::new(rt, stores, self.mark),
        }
    }

    /// The mark.
    pub fn into_mark(self) -> M
        ensures { result ≡ begun_mark self }
    {
        self.mark
    }
}
