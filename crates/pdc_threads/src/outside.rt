//! What a run has of the world outside.

use pdc_mark::Mark;
use pdc_pipe::Outlet;
use pdc_ports::{Source, Ticker};
use std::marker::PhantomData;

/// What a run has of the world outside: where datagrams come from, where the mark is stored, when it ticks, and where frames go.
pub trait Outside {
    /// Where datagrams come from.
    type Source: Source + Send + Drop;

    /// Where the floor and the counts are stored.
    type Mark: Mark + Drop;

    /// When it ticks, and who is told how it stands.
    type Ticker: Ticker + Drop;

    /// Where frames go.
    type Sink: Outlet + Send + Drop;
}

/// The outside of these four. No value of it is made.
pub struct Beside<S, M, I, K> {
    of: PhantomData<(S, M, I, K)>,
}

impl<S: Source + Send + Drop, M: Mark + Drop, I: Ticker + Drop, K: Outlet + Send + Drop> Outside
    for Beside<S, M, I, K> {
    type Source = S;

    type Mark = M;

    type Ticker = I;

    type Sink = K;
}
