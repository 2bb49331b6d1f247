//! Who pops, and what was popped.
ghost use Rattle.std.specs.Prelude.{◌≤◌, ◌≡◌, [], OnErr};
ghost use Rattle.pdc_log.specs.Log.{turned_in};
ghost use Rattle.pdc_memory.specs.Asking.{WasRefused};

use crate::ledgers::{Ledgers, TopIn, TurnsIn};
use pdc_log::Front;
use pdc_memory::HeldBox;
use pdc_row::DueRow;
use std::alloc::{AllocError, Global};
use std::marker::PhantomData;
use std::sync::ledger::Share;

/// Who ticks and pops: the whole share of the greatest instant popped, the row that was popped last, and how many rows were. A new hub
/// hands it out, and only a pop of that hub counts in it. It ticks with what a mark of this type stores, and with no other counts.
#[derive(Drop)]
pub struct Pops<N: Ledgers, M> {
    /// The whole share of the greatest instant popped.
    pub top: Share<TopIn<N>>,
    /// The row that was popped last; at first one of instant 0, without blocks. The next one takes its place.
    pub row: HeldBox<DueRow>,
    pub(crate) count: u64,
    /// What was seen of the log.
    pub front: Front<N>,
    /// The whole share of ticks and pops.
    pub turns: Share<TurnsIn<N>>,
    marked: PhantomData<M>,
    // Instants rise from 0, so the number is no greater.
    ghost few: { count ≤ top.amount },
    // All ticks and pops that it has seen are its own.
    pub ghost own: { turns.amount ≡ turned_in front },
}

impl<N: Ledgers, M> Pops<N, M> {
    ghost use Rattle.pdc_hub.specs.Pops.{popped_by};

    /// With this share no row was popped yet. The first one takes the place of this one.
    pub(crate) fn new(
        top: Share<TopIn<N>>,
        turns: Share<TurnsIn<N>>,
        front: Front<N>,
        row: HeldBox<DueRow>,
    ) -> Pops<N, M>
        requires { (turns.amount ≡ 0) × (front ≡ []) }
        ensures top { (result.top ≡ top) × (result.turns ≡ turns) × (result.front ≡ front) }
        ensures none { popped_by result ≡ 0 }
    {
        Pops {
            top,
            row,
            count: 0,
            front,
            turns,
            marked: PhantomData,
        }
    }

    /// How many rows were popped.
    pub fn count(&self) -> u64
        ensures { result ≡ popped_by self.now }
    {
        self.count
    }
}

/// A row of instant 0, without blocks, whose place the first that is popped takes.
///
/// # Errors
///
/// [`AllocError`] where a request for the memory of a row was refused.
pub(crate) fn spare_row(alloc: Global) -> Result<HeldBox<DueRow>, AllocError>
    ensures { OnErr result (WasRefused 1) }
{
    HeldBox::new(alloc, DueRow::blank())
}
