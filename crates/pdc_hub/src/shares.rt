//! What a hub counts, as tokens: they take no bytes.
ghost use Rattle.std.specs.Prelude.{◌≡◌, []};

use crate::ledgers::{ConfiguredIn, Ledgers, RefusedIn, TakenIn, TopIn, TurnsIn};
use pdc_log::{Front, Log};
use std::sync::ledger::{Blank, Book, Share};

/// A receiver's parts of the three ledgers, and what it has seen of the log.
#[derive(Drop)]
pub struct Shares<N: Ledgers> {
    /// Of data that was taken.
    pub taken: Share<TakenIn<N>>,
    /// Of what was refused.
    pub refused: Share<RefusedIn<N>>,
    /// Of configurations that were new or held already.
    pub configured: Share<ConfiguredIn<N>>,
    /// What was seen of the log.
    pub front: Front<N>,
}

/// The books of the five ledgers.
#[derive(Drop)]
pub struct Books<N: Ledgers> {
    /// Of data that was taken.
    pub taken: Book<TakenIn<N>>,
    /// Of what was refused.
    pub refused: Book<RefusedIn<N>>,
    /// Of configurations that were new or held already.
    pub configured: Book<ConfiguredIn<N>>,
    /// Its total is the greatest instant popped, at first the floor.
    pub top: Book<TopIn<N>>,
    /// Of ticks and pops.
    pub turns: Book<TurnsIn<N>>,
}

/// Five new ledgers and a log, which no type names yet.
#[derive(Drop)]
pub struct Blanks {
    /// Of data that was taken.
    pub taken: Blank,
    /// Of what was refused.
    pub refused: Blank,
    /// Of configurations that were new or held already.
    pub configured: Blank,
    /// Of the greatest instant popped.
    pub top: Blank,
    /// Of ticks and pops.
    pub turns: Blank,
    /// The log.
    pub log: Log,
}

impl Blanks {
    /// Ledgers of which nothing is counted, those of the three totals with so many parts, the others with one; and a log with no step.
    pub fn new(parts: u64) -> Blanks
        ensures parts { (result.taken.parts ≡ parts) × (result.refused.parts ≡ parts)
            × (result.configured.parts ≡ parts)
            × (result.top.parts ≡ 1) × (result.turns.parts ≡ 1) }
        ensures log { result.log.seen.log ≡ [] }
    {
        Blanks {
            taken: Blank::new(parts),
            refused: Blank::new(parts),
            configured: Blank::new(parts),
            top: Blank::new(1),
            turns: Blank::new(1),
            log: Log::new(),
        }
    }
}
