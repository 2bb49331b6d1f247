//! What a run is given, and what it hands back.
ghost use Rattle.std.specs.Prelude.{◌≡◌, Err};

use crate::outside::Outside;
use crate::receivers::Input;
use crate::totals::Totals;
use crossbeam_channel::Pass;
use pdc_aligner::{Aligner, Pace};
use pdc_hub::{HubFault, Ledgers, Pops, Shares};
use pdc_mark::Mark;
use pdc_pipe::{Log, Message, Returns};
use pdc_publisher::Publisher;

/// What a run is given beside its hub: the shares, a source for each stream, in order, and who publishes, ticks and sends.
#[derive(Drop)]
pub struct Crew<N: Ledgers, W: Outside> {
    /// All shares of the three totals.
    pub shares: Shares<N>,
    /// By which the aligner ticks and pops.
    pub pops: Pops<N, W::Mark>,
    /// A source for each stream, in order.
    pub sources: Vec<W::Source>,
    /// It publishes, and alone has the mark.
    pub publisher: Publisher<W::Mark>,
    /// It says when to tick, and is told how the run stands.
    pub ticker: W::Ticker,
    /// How instants are dated, and how often layouts are repeated.
    pub pace: Pace,
    /// It takes the frames.
    pub sink: W::Sink,
}

/// A crew whose sources have their buffers, and whose aligner and sender have their ends of a channel.
#[derive(Drop)]
pub struct Manned<N: Ledgers, W: Outside> {
    pub shares: Shares<N>,
    pub inputs: Vec<Input<W::Source>>,
    pub aligner: Aligner<N, W::Mark, W::Ticker>,
    pub pace: Pace,
    /// By which the sender takes.
    pub reader: Pass<Message, Log>,
    /// Where it gives frames back.
    pub back: Returns,
    pub sink: W::Sink,
}

/// What a run hands back: the publisher and the sink that it was given, and what it counted.
#[derive(Drop)]
pub struct Ran<M: Mark, K> {
    /// The publisher.
    pub publisher: Publisher<M>,
    /// The sink.
    pub sink: K,
    /// The totals, or the first fault in the order receivers, aligner, sender.
    pub outcome: Result<Totals, HubFault>,
}

/// A run that is over: what it hands back, the shares of those who received, and who popped.
#[derive(Drop)]
pub struct Finished<N: Ledgers, M: Mark, K> {
    /// The publisher, the sink and the outcome.
    pub ran: Ran<M, K>,
    /// The shares that it was given, as far as they came back: all of them where it was Ok.
    pub shares: Shares<N>,
    /// By which rows were popped, and how many.
    pub pops: Pops<N, M>,
}

/// A run that did not begin, for want of memory.
pub fn not_begun<N: Ledgers, M: Mark, K>(
    publisher: Publisher<M>,
    sink: K,
    shares: Shares<N>,
    pops: Pops<N, M>,
) -> Finished<N, M, K>
    ensures { (result.ran.publisher ≡ publisher) × (result.ran.sink ≡ sink)
        × (result.ran.outcome ≡ Err HubFault.NoMemory) × (result.pops ≡ pops) }
{
    Finished {
        ran: Ran {
            publisher,
            sink,
            outcome: Err(HubFault::NoMemory),
        },
        shares,
        pops,
    }
}
