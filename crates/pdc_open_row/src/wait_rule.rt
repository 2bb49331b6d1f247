//! When the wait of an open instant is over.
ghost use Rattle.std.specs.Prelude.{◌≡◌};

/// How a tick tells that the wait of an open instant is over.
#[derive(Clone, Copy, Debug, PartialEq, Eq)]
pub enum WaitRule {
    /// Its age, this tick counted, is at least so many ticks.
    Ticks(u64),
    /// The instant is at most this limit; where there is no limit, the wait of none is over.
    Until(Option<u64>),
}

impl WaitRule {
    ghost use Rattle.pdc_open_row.specs.Due.{is_over};

    /// Whether the wait of an instant of this age, in ticks, is over.
    #[inline(always)]
    pub fn is_over(self, age: u64, instant: u64) -> bool
        ensures { result ≡ is_over self age instant }
    {
        match self {
            WaitRule::Ticks(wait) => wait <= age,
            WaitRule::Until(Some(limit)) => instant <= limit,
            WaitRule::Until(None) => false,
        }
    }
}
