//! What a run is handed.
ghost use Rattle.std.specs.Prelude.{◌≡◌};

use pdc_mark::Mark;
use pdc_startup::Begun;
use pdc_threads::{Beside, Outlet, Outside, Source, Ticker};

/// What a run is handed of the world outside: a mark that has begun, a source for each stream, in order, when it ticks, and where frames go.
#[derive(Drop)]
pub struct Handed<W: Outside> {
    /// With what it stores the life begins.
    pub mark: Begun<W::Mark>,
    /// A source for each stream, in order.
    pub sources: Vec<W::Source>,
    /// It says when to tick, and is told how the run stands.
    pub ticker: W::Ticker,
    /// It takes the frames.
    pub sink: W::Sink,
}

/// These four, for a run.
pub fn hand_over<
    S: Source + Send + Drop,
    M: Mark + Drop,
    I: Ticker + Drop,
    K: Outlet + Send + Drop,
>(mark: Begun<M>, sources: Vec<S>, ticker: I, sink: K) -> Handed<Beside<S, M, I, K>>
    ensures { (result.mark ≡ mark) × (result.sources ≡ sources)
        × (result.ticker ≡ ticker) × (result.sink ≡ sink) }
{
    Handed::<Beside<S, M, I, K>> {
        mark,
        sources,
        ticker,
        sink,
    }
}
