//! The ledgers of a hub, for contracts.
ghost use Rattle.pdc_hub.specs.Cut.{Cut, no_cut};

use pdc_log::Logged;
use std::marker::{Brand, PhantomData};
use std::sync::ledger::Ledger;

/// Which ledgers a hub counts in. It exists for contracts alone, and each call of a program that makes a hub picks it.
pub trait Ledgers: Logged {
    // Of data that was taken,
    ghost taken: { Cut };

    // of what was refused,
    ghost refused: { Cut };

    // of configurations that were new or held already,
    ghost configured: { Cut };

    // of the greatest instant popped,
    ghost top: { Cut };

    // and of ticks and pops.
    ghost turns: { Cut };
}

/// None is named until it is picked.
impl Ledgers for Brand {
    ghost taken = { no_cut };

    ghost refused = { no_cut };

    ghost configured = { no_cut };

    ghost top = { no_cut };

    ghost turns = { no_cut };
}

/// The ledger of data that was taken.
pub struct TakenIn<N> {
    of: PhantomData<N>,
}

impl<N: Ledgers> Ledger for TakenIn<N> {
    ghost name = { N.taken.name };

    ghost parts = { N.taken.parts };
}

/// The ledger of what was refused.
pub struct RefusedIn<N> {
    of: PhantomData<N>,
}

impl<N: Ledgers> Ledger for RefusedIn<N> {
    ghost name = { N.refused.name };

    ghost parts = { N.refused.parts };
}

/// The ledger of configurations that were new or held already.
pub struct ConfiguredIn<N> {
    of: PhantomData<N>,
}

impl<N: Ledgers> Ledger for ConfiguredIn<N> {
    ghost name = { N.configured.name };

    ghost parts = { N.configured.parts };
}

/// The ledger of the greatest instant popped.
pub struct TopIn<N> {
    of: PhantomData<N>,
}

impl<N: Ledgers> Ledger for TopIn<N> {
    ghost name = { N.top.name };

    ghost parts = { N.top.parts };
}

/// The ledger of ticks and pops.
pub struct TurnsIn<N> {
    of: PhantomData<N>,
}

impl<N: Ledgers> Ledger for TurnsIn<N> {
    ghost name = { N.turns.name };

    ghost parts = { N.turns.parts };
}
